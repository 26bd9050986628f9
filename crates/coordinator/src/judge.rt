// Whether the gathered reports are those of the front: what a commit finds out that trusts no node.

ghost use Rattle.std.specs.Prelude.{◌≡◌, ◌<◌, ◌≤◌, ◌+◌, ◌++◌, ◌^◌, ◌∷◌, [], ◌↔◌, IsTrue, IfOk, OnOk};
ghost use Rattle.std.specs.Prelude.{length, replicate, true, false, None};
ghost use Rattle.std.specs.List.{AllByRecursion as Every};
ghost use Rattle.eventkey.specs.Bag.{IsAscending, add_all};
ghost use Rattle.eventkey.specs.Message.{IsAtMost, IsRanged, Message};
ghost use Rattle.model.specs.Meaning.{IsWords};
ghost use Rattle.process.specs.Consistent.{AreConsistent};
ghost use Rattle.gvt.specs.Judged.{AreOfFront, early};
ghost use Rattle.gvt.specs.Moves.{merged, reported_before};
ghost use Rattle.gvt.specs.System.{reported_sends};
ghost use Rattle.coordinator.specs.Judging.{Follow, IsAccepted, IsNextInWords, Reports};
ghost use Rattle.coordinator.specs.Judging.{after_report, last_of, shown, standing};

use crate::FrontView;
use crate::order::in_order;
use eventkey::Message;
use model::{Model as Simulated, Outgoing, Sent, Words};
use process::{Done, Process};
use std::alloc::{AllocError, Global};

/// The most words of a state.
const MAX_WORDS: usize = 16;

/// Returns whether the reports before this time, in ticks, are those of this front. A state of the
/// front with more words than a model's states have is refused.
///
/// Costs a handling for each report before the time and a sort of their sends before it, one pass
/// over the other reports and the pending messages, and one word for each process.
pub(crate) fn are_of_front<M: Simulated>(
    alloc: Global,
    model: &M,
    front: &FrontView<'_>,
    gathered: &[Done],
    time: u64,
) -> Result<bool, AllocError>
    requires states { length front.now.states.now ≡ (M.meaning model.now).lps }
    requires numbers { length front.now.numbers.now ≡ (M.meaning model.now).lps }
    requires ascending { IsAscending front.now.pending.now }
    requires there { Every (λ d. d.message.to < (M.meaning model.now).lps) gathered.now }
    requires short { time ≤ 2 ^ 40 }
    ensures judged { IfOk result (λ ok. ok ≡ true →
        AreOfFront (M.meaning model.now) time gathered.now (shown front.now)
        × Every (λ d. IsRanged d.message) gathered.now) }
    ensures refused { IfOk result (λ ok. ok ≡ false → Every IsWords front.now.states.now →
        AreOfFront (M.meaning model.now) time gathered.now (shown front.now) → ⊥) }
{
    if !follow(alloc, model, front, gathered, time)? {
        return Ok(false);
    }
    is_whole(alloc, front.pending, gathered, time)
}

/// Returns whether the reports before this time, in ticks, handled exactly what is before it among
/// the pending messages, which are in order, and what they sent.
fn is_whole(
    alloc: Global,
    pending: &[Message],
    gathered: &[Done],
    time: u64,
) -> Result<bool, AllocError>
    requires { IsAscending pending.now }
    ensures { IfOk result (λ whole. IsTrue whole ↔ (early time (add_all (reported_sends
        (reported_before time gathered.now)) pending.now) ≡ merged time gathered.now)) }
{
    let mut due = early_sends(alloc, gathered, time)?;
    push_early(&mut due, pending, time)?;
    let due = in_order(alloc, due)?;
    let events = events_before(alloc, gathered, time)?;
    Ok(due.as_slice() == events.as_slice())
}

/// The messages handled before this time, in ticks, in order.
fn events_before(alloc: Global, gathered: &[Done], time: u64) -> Result<Vec<Message>, AllocError>
    ensures { IfOk result (λ events. events.items ≡ merged time gathered.now) }
{
    let mut events = Vec::with_capacity(alloc, gathered.len())?;
    for done in gathered {
        if done.message.time() < time {
            events.push(done.message)?;
        }
    }
    Ok(in_order(alloc, events)?)
}

/// Those of the messages sent by the reports before this time, in ticks, that are before it too.
fn early_sends(alloc: Global, gathered: &[Done], time: u64) -> Result<Vec<Message>, AllocError>
    ensures { IfOk result (λ sent. sent.items
        ≡ early time (reported_sends (reported_before time gathered.now))) }
{
    let mut sent = Vec::new(alloc);
    for done in gathered {
        if done.message.time() < time {
            push_early(&mut sent, done.sent.as_slice(), time)?;
        }
    }
    Ok(sent)
}

/// Appends those of these messages that are before this time, in ticks.
fn push_early(sent: &mut Vec<Message>, messages: &[Message], time: u64) -> Result<(), AllocError>
    ensures { OnOk result (sent.new.items ≡ sent.old.items ++ early time messages.now) }
{
    for message in messages {
        if message.time() < time {
            sent.push(*message)?;
        }
    }
    Ok(())
}

/// Returns whether the reports before this time, in ticks, follow this front: along each process
/// they are what the model does, in message order and not before the time of the front.
fn follow<M: Simulated>(
    alloc: Global,
    model: &M,
    front: &FrontView<'_>,
    gathered: &[Done],
    time: u64,
) -> Result<bool, AllocError>
    requires states { length front.now.states.now ≡ (M.meaning model.now).lps }
    requires numbers { length front.now.numbers.now ≡ (M.meaning model.now).lps }
    requires there { Every (λ d. d.message.to < (M.meaning model.now).lps) gathered.now }
    requires short { time ≤ 2 ^ 40 }
    ensures followed { IfOk result (λ ok. ok ≡ true → Follow (M.meaning model.now) time gathered.now
        (shown front.now)
        × Every (λ d. IsRanged d.message) gathered.now) }
    ensures refused { IfOk result (λ ok. ok ≡ false → Every IsWords front.now.states.now →
        Follow (M.meaning model.now) time gathered.now
        (shown front.now) → ⊥) }
{
    let mut latest = none_yet(alloc, front.states.len())?;
    'reports: for done in gathered {
        if !look(alloc, model, front, &mut latest, done, time)? {
            return Ok(false);
        }
    }
    Ok(true)
}

/// A list without any report yet, one entry for each process.
fn none_yet<'d>(alloc: Global, processes: usize) -> Result<Vec<Option<&'d Done>>, AllocError>
    ensures { IfOk result (λ latest. latest.items ≡ replicate processes None) }
{
    vec![in alloc; None; processes]
}

/// Looks at one report: if it is before this time, in ticks, it has to be the next one of its
/// process, and is then the latest one. Returns whether it is accepted.
fn look<'d, M: Simulated>(
    alloc: Global,
    model: &M,
    front: &FrontView<'_>,
    latest: &mut Vec<Option<&'d Done>>,
    done: &'d Done,
    time: u64,
) -> Result<bool, AllocError>
    requires many { length latest.old.items ≡ (M.meaning model.now).lps }
    requires states { length front.now.states.now ≡ (M.meaning model.now).lps }
    requires numbers { length front.now.numbers.now ≡ (M.meaning model.now).lps }
    requires there { done.now.message.to < (M.meaning model.now).lps }
    requires short { time ≤ 2 ^ 40 }
    ensures accepted { IfOk result (λ ok. IsTrue ok ↔ IsAccepted (M.meaning model.now) time
        (shown front.now) latest.old.items done.now) }
    ensures latest { IfOk result (λ ok. IsTrue ok →
        latest.new.items ≡ after_report time done.entry latest.old.items) }
    ensures ranged { IsRanged done.now.message }
{
    done.message.ranged();
    if done.message.time() >= time {
        return Ok(true);
    }
    let process = done.message.to() as usize;
    if !is_next(alloc, model, front, latest[process], done)? {
        return Ok(false);
    }
    latest[process] = Some(done);
    Ok(true)
}

/// Returns whether this is the next report of its process, whose latest one is `latest`.
fn is_next<M: Simulated>(
    alloc: Global,
    model: &M,
    front: &FrontView<'_>,
    latest: Option<&Done>,
    done: &Done,
) -> Result<bool, AllocError>
    requires there { done.now.message.to < (M.meaning model.now).lps }
    requires states { length front.now.states.now ≡ (M.meaning model.now).lps }
    requires numbers { length front.now.numbers.now ≡ (M.meaning model.now).lps }
    requires short { done.now.message.time < 2 ^ 40 }
    ensures { IfOk result (λ ok. IsTrue ok ↔ IsNextInWords (M.meaning model.now) front.now.time
        (standing (shown front.now)
        latest.entry done.now.message.to) done.now) }
{
    if done.message.time() < front.time || !is_in_order(latest, &done.message) {
        return Ok(false);
    }
    let process = done.message.to() as usize;
    let state = state_at(front, latest, process);
    let number = number_at(front, latest, process);
    is_handling(alloc, model, state, number, done)
}

/// Returns whether a message is not before that of the latest report of its process.
fn is_in_order(latest: Option<&Done>, message: &Message) -> bool
    ensures { IsTrue result ↔ Every (λ x. IsAtMost x message.now) (last_of latest.entry) }
{
    match latest {
        None => true,
        Some(before) => !message.is_before(&before.message),
    }
}

/// The state words of a process after its latest report, or else those of the front.
fn state_at<'d>(front: &FrontView<'d>, latest: Option<&'d Done>, process: usize) -> &'d [u64]
    requires { process < length front.now.states.now }
    ensures { result.now ≡ (standing (shown front.now) latest.entry process).state }
{
    match latest {
        None => front.states[process].as_slice(),
        Some(before) => before.after.as_slice(),
    }
}

/// The send number of a process after its latest report, or else that of the front.
fn number_at(front: &FrontView<'_>, latest: Option<&Done>, process: usize) -> u64
    requires { process < length front.now.numbers.now }
    ensures { result ≡ (standing (shown front.now) latest.entry process).number }
{
    match latest {
        None => front.numbers[process],
        Some(before) => before.number_after,
    }
}

/// Returns whether a report is what the model does with its message, from this state, which has at
/// most 16 words, and this number on.
fn is_handling<M: Simulated>(
    alloc: Global,
    model: &M,
    state: &[u64],
    number: u64,
    done: &Done,
) -> Result<bool, AllocError>
    requires there { done.now.message.to < (M.meaning model.now).lps }
    requires short { done.now.message.time < 2 ^ 40 }
    ensures { IfOk result (λ ok. IsTrue ok ↔ (length state.now ≤ 16)
        × AreConsistent (M.meaning model.now) done.now.message.to state.now number
        (done.now ∷ [])) }
{
    if state.len() > MAX_WORDS {
        return Ok(false);
    }
    let process = done.message.to();
    let state = Words::from_slice(alloc, state).unwrap();
    let (next, sends) = model.handle(alloc, process, &state, &done.message);
    is_reported(alloc, number, next.as_slice(), sends.as_slice(), done)
}

/// Returns whether a report says what a handling does that leaves these state words and makes these
/// sends, numbered from `number` on.
fn is_reported(
    alloc: Global,
    number: u64,
    next: &[u64],
    sends: &[Outgoing],
    done: &Done,
) -> Result<bool, AllocError>
    requires short { done.now.message.time < 2 ^ 40 }
    ensures { IfOk result (λ ok. IsTrue ok ↔ Reports next.now sends.now number done.now) }
{
    let many = sends.len() as u64;
    let after = done.number_after;
    if after > Process::NUMBER_LIMIT || many > after || after - many != number {
        return Ok(false);
    }
    if next != done.after.as_slice() {
        return Ok(false);
    }
    let message = &done.message;
    let sent = Sent::stamped(alloc, message.to(), message.time(), number, sends)?;
    Ok(sent.as_slice() == done.sent.as_slice())
}
