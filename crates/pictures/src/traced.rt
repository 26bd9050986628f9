// A run in detail: its events and what they sent.

ghost use Rattle.std.specs.List.{AllByRecursion as Every, filter};
ghost use Rattle.std.specs.Prelude.{◌≡◌, ◌≤◌, ◌<◌, ◌^◌, ◌++◌, ℕ, Err, IfOk, List, [], get_or};
ghost use Rattle.std.specs.Prelude.{length, map, min, replicate, set};
ghost use Rattle.model.specs.Meaning.{IsAddressed, IsWords};
ghost use Rattle.model.specs.declared.WorldFault.TheVariants.{NumberLimit};
ghost use Rattle.pictures.specs.Inside.{IsWholeRun, lists};
ghost use Rattle.pictures.specs.Run.{IsOverLimit, IsPartBefore, IsRunOf, is_from, left_at};
ghost use Rattle.pictures.specs.Run.{sends_of as sends_from, sent_at, sent_in};

use crate::senders::add_times;
use eventkey::Message;
use model::{Model, Words, World, WorldFault, WorldParts};
use std::alloc::{AllocError, Global};

/// A run in detail: its events, how many messages each handling sent, and the pending messages.
pub struct Trace {
    time: u64,
    first: Vec<u64>,
    sends: Vec<u64>,
    events: Vec<Message>,
    pending: Vec<Message>,
    // For each process, the times at which it sent its messages, in the order of send numbers.
    times: Vec<Vec<u64>>,
}

// Not derived, so that callers drop a trace as one value, and not part by part.
impl Drop for Trace {
    fn drop(self) {
        let Trace {
            time: _,
            first: _,
            sends: _,
            events: _,
            pending: _,
            times: _,
        } = self;
    }
}

impl std::marker::Model for Trace {
    ghost use Rattle.pictures.specs.Inside.{IsTrace, run_of};
    ghost use Rattle.pictures.specs.Run.{Run};

    ghost Value = { Run };

    ghost view = { run_of };

    ghost invariant = { IsTrace };
}

impl Trace {
    /// Returns the virtual time in ticks up to which the run went.
    pub fn time(&self) -> u64
        ensures { result ≡ self.now.time }
    {
        self.time
    }

    /// Returns how many messages each process sent at the opening.
    pub fn first(&self) -> &[u64]
        ensures first { result.now ≡ self.now.first }
        ensures whole { IsWholeRun self.now }
    {
        self.first.as_slice()
    }

    /// Returns the events, in the order of handling.
    pub fn events(&self) -> &[Message]
        ensures { result.now ≡ self.now.events }
    {
        self.events.as_slice()
    }

    /// Returns the messages that were not handled, the least first.
    pub fn pending(&self) -> &[Message]
        ensures { result.now ≡ self.now.pending }
    {
        self.pending.as_slice()
    }

    /// Returns the virtual time in ticks at which a message of the run was sent, in constant time.
    /// For a number that its sender did not send it returns 0.
    pub fn sent_at(&self, message: &Message) -> u64
        ensures { result ≡ sent_at self.now message.now }
    {
        let Some(times) = self.times.get(message.from() as usize) else {
            return 0;
        };
        times.get(message.number() as usize).copied().unwrap_or(0)
    }

    /// Returns the trace with another time in ticks, and without the pending messages before that.
    fn left_at(self, alloc: Global, time: u64) -> Result<Trace, AllocError>
        requires { time ≤ 2 ^ 40 }
        ensures { IfOk result (λ t. t ≡ left_at time self) }
    {
        let Trace {
            time: _,
            first,
            sends,
            events,
            pending,
            times,
        } = self;
        let pending = from_time(alloc, pending.as_slice(), time)?;
        Ok(Trace {
            time,
            first,
            sends,
            events,
            pending,
            times,
        })
    }
}

/// Runs a model from its opening up to `to` ticks, and returns its `Trace`. The simulation ends at
/// `end` ticks, 1 to 2^40.
///
/// `NumberLimit` comes if the send number of a process would pass 2^63 before that, and `NoMemory`
/// if an allocation failed. It costs the simulation, each handling a second time, and memory in
/// proportion to the events.
pub fn trace_of<M: Model>(alloc: Global, model: &M, end: u64, to: u64) -> Result<Trace, WorldFault>
    requires some { 1 ≤ end }
    requires end { end ≤ 2 ^ 40 }
    ensures run { IfOk result (λ t. IsRunOf (M.meaning model.now) end to t) }
    ensures whole { IfOk result (λ t. IsWholeRun t) }
    ensures limit { result ≡ Err WorldFault.NumberLimit →
        IsOverLimit (M.meaning model.now) end to }
{
    let mut world = World::open(alloc, model, end)?;
    let (states, first) = opening(alloc, &world)?;
    world.run_to(model, to)?;
    let WorldParts {
        time,
        states: _,
        numbers: _,
        pending,
        log,
    } = world.into_parts();
    let sends = sends_of(alloc, model, states, log.as_slice())?;
    let times = times_of(alloc, first.as_slice(), log.as_slice(), sends.as_slice())?;
    Ok(Trace {
        time,
        first,
        sends,
        events: log,
        pending,
        times,
    })
}

/// Runs a model from its opening, and returns of its run up to `to` ticks the part before the tick
/// `before`: the events before it, and of the messages that were sent by then those that are left at
/// the end of the run. The simulation ends at `end` ticks, 1 to 2^40. It goes no further than
/// `before`.
///
/// The faults are those of `trace_of`, of the run up to the earlier of the two times.
pub fn trace_before<M: Model>(
    alloc: Global,
    model: &M,
    end: u64,
    to: u64,
    before: u64,
) -> Result<Trace, WorldFault>
    requires some { 1 ≤ end }
    requires end { end ≤ 2 ^ 40 }
    ensures run { IfOk result (λ t. IsPartBefore (M.meaning model.now) end to before t) }
    ensures limit { result ≡ Err WorldFault.NumberLimit →
        IsOverLimit (M.meaning model.now) end (min to before) }
{
    let trace = trace_of(alloc, model, end, to.min(before))?;
    Ok(trace.left_at(alloc, to.min(end))?)
}

/// Returns the messages that are not before a time in ticks.
fn from_time(alloc: Global, messages: &[Message], time: u64) -> Result<Vec<Message>, AllocError>
    ensures { IfOk result (λ v. v.items ≡ filter (is_from time) messages.now) }
{
    let mut late = Vec::new(alloc);
    for message in messages {
        if message.time() >= time {
            late.push(*message)?;
        }
    }
    Ok(late)
}

/// Returns the states of a world, and how many messages each process has sent.
fn opening(alloc: Global, world: &World) -> Result<(Vec<Words>, Vec<u64>), AllocError>
    ensures states { IfOk result (λ o. map (λ s. s.items) o.0.items ≡ world.now.world.states) }
    ensures numbers { IfOk result (λ o. o.1.items ≡ world.now.world.numbers) }
{
    let mut numbers = Vec::new(alloc);
    numbers.extend_from_slice(world.numbers())?;
    Ok((words_of(alloc, world.states())?, numbers))
}

/// Copies state words.
fn words_of(alloc: Global, all: &[Words]) -> Result<Vec<Words>, AllocError>
    ensures { IfOk result (λ words. map (λ w. w.items) words.items ≡ map (λ w. w.items) all.now) }
{
    let mut words = Vec::with_capacity(alloc, all.len())?;
    for next in all {
        words.push(Words::from_slice(alloc, next.as_slice())?)?;
    }
    Ok(words)
}

/// Returns how many messages each handling of a log sends, from these states on.
fn sends_of<M: Model>(
    alloc: Global,
    model: &M,
    states: Vec<Words>,
    log: &[Message],
) -> Result<Vec<u64>, AllocError>
    requires states { length states.items ≡ (M.meaning model.now).lps }
    requires words { Every IsWords (map (λ s. s.items) states.items) }
    requires log { Every (IsAddressed (M.meaning model.now).lps) log.now }
    ensures { IfOk result (λ v. v.items
        ≡ sends_from (M.meaning model.now) (map (λ s. s.items) states.items) log.now) }
{
    let mut now = states;
    let mut counts = Vec::new(alloc);
    for event in log {
        let lp = event.to();
        let place = lp as usize;
        let (words, sends) = model.handle(alloc, lp, &now[place], event);
        counts.push(sends.len() as u64)?;
        now[place] = words;
    }
    Ok(counts)
}

/// Returns, for each process, the times at which it sent its messages.
fn times_of(
    alloc: Global,
    first: &[u64],
    events: &[Message],
    sends: &[u64],
) -> Result<Vec<Vec<u64>>, AllocError>
    requires sends { length sends.now ≡ length events.now }
    requires events { Every (IsAddressed (length first.now)) events.now }
    ensures { IfOk result (λ rows. (lp : ℕ) → get_or (lists rows.items) lp []
        ≡ replicate (get_or first.now lp 0) 0 ++ sent_in lp events.now sends.now) }
{
    let mut rows = opening_rows(alloc, first)?;
    for (place, event) in events.iter().enumerate() {
        add_times(&mut rows[event.to() as usize], sends[place], event.time())?;
    }
    Ok(rows)
}

/// Returns a row for each process, with the time 0 for each message that it sent at the opening.
fn opening_rows(alloc: Global, first: &[u64]) -> Result<Vec<Vec<u64>>, AllocError>
    ensures { IfOk result (λ rows. lists rows.items ≡ map (λ n. replicate n 0) first.now) }
{
    let mut rows = Vec::new(alloc);
    for count in first {
        let mut row = Vec::new(alloc);
        add_times(&mut row, *count, 0)?;
        rows.push(row)?;
    }
    Ok(rows)
}
