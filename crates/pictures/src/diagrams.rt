// The marks of a run's space-time diagram, from a simulation that forgets its events.

ghost use Rattle.std.specs.List.{AllByRecursion as Every, filter};
ghost use Rattle.std.specs.Prelude.{◌≡◌, ◌≤◌, ◌<◌, ◌+◌, ◌-◌, ◌^◌, ◌++◌, ◌∷◌, [], ℕ};
ghost use Rattle.std.specs.Prelude.{Err, IfOk, IfSome, List, Ok, OnOk, get_or, length, min, true};
ghost use Rattle.eventkey.specs.Message.{Message};
ghost use Rattle.model.specs.declared.WorldFault.TheVariants.{NumberLimit};
ghost use Rattle.pictures.specs.Drawing.{AreMarks, IsDiagram, drawn_end, drawn_frame, first_shown};
ghost use Rattle.pictures.specs.Drawing.{frame_of, is_shown, sendings};
ghost use Rattle.pictures.specs.Marking.{HasMarks};
ghost use Rattle.pictures.specs.Run.{IsOverLimit, IsPartBefore, IsRunOf, Run, is_from};
ghost use Rattle.pictures.specs.Run.{sending_times, with_event};
ghost use Rattle.pictures.specs.Senders.{AreSenders, HaveTime, HaveTimes};
ghost use Rattle.pictures.specs.declared.drawn.View.{View};

use crate::counted::{due, forget_times};
use crate::delays::one_more;
use crate::drawn::{Frame, View, framed};
use crate::senders::{Sender, add_sends, is_sent, opening_senders, sent_at};
use crate::stepping::EVENTS_KEPT;
use crate::traced::{Trace, trace_before};
use eventkey::Message;
use model::{Model, World, WorldFault, WorldParts};
use std::alloc::{AllocError, Global};

/// A message, and when it was sent, in ticks.
#[derive(Clone, Copy)]
pub(crate) struct Sending {
    pub(crate) message: Message,
    pub(crate) sent: u64,
}

/// The space-time diagram of a run in a view: the first 2,000 events and pending messages that are
/// drawn.
#[derive(Drop)]
pub struct Diagram {
    /// The virtual time in ticks up to which the run went.
    pub(crate) time: u64,
    /// The number of processes of the model.
    pub(crate) processes: u32,
    pub(crate) view: View,
    /// How many events the view has.
    pub(crate) count: u64,
    /// The time in ticks before which the picture ends.
    pub(crate) to: u64,
    pub(crate) events: Vec<Sending>,
    pub(crate) pending: Vec<Sending>,
}

/// The messages that a frame shows: how many, and the first 2,000 of them.
#[derive(Drop)]
pub(crate) struct Marks {
    pub(crate) count: u64,
    pub(crate) first: Vec<Sending>,
}

impl Diagram {
    /// Returns the number of processes of the model.
    pub fn processes(&self) -> u32 {
        self.processes
    }
}

impl Marks {
    /// Adds a message, if the frame shows it.
    fn add(&mut self, frame: &Frame, before: u64, sending: &Sending) -> Result<(), AllocError>
        ensures { OnOk result ((sendings : List Sending) →
            AreMarks frame.now before sendings self.old →
            AreMarks frame.now before (sendings ++ sending.now ∷ []) self.new) }
    {
        if !is_shown(frame, before, sending) {
            return Ok(());
        }
        self.count = one_more(self.count)?;
        if self.first.len() < 2000 {
            self.first.push(*sending)?;
        }
        Ok(())
    }
}

/// Runs a model from its opening up to `to` ticks, and returns the space-time diagram of its part
/// before the tick `before`, which is as far as it simulates. The simulation ends at `end` ticks, 1
/// to 2^40.
///
/// The diagram has the first 64 processes of the view, and the first 2,000 events and pending
/// messages.
///
/// `NumberLimit` comes if the send number of a process would pass 2^63 before that, and `NoMemory`
/// if an allocation failed, or at 2^64 events. The costs are the simulation, a constant time for
/// each event, and memory for the world, for 2^16 events or as many as messages are pending, and for
/// the diagram. Only if an event was handled before its sender sent it, which the origin of a
/// continued model can have, or if the diagram ends before one of its first 2,000 events, the
/// simulation begins again, and needs memory for its events.
pub fn diagram_of<M: Model>(
    alloc: Global,
    model: &M,
    end: u64,
    to: u64,
    before: u64,
    view: &View,
) -> Result<Diagram, WorldFault>
    requires some { 1 ≤ end }
    requires end { end ≤ 2 ^ 40 }
    ensures diagram { IfOk result (λ d. (r : Run)
        × IsPartBefore (M.meaning model.now) end to before r × IsDiagram r view.now d) }
    ensures limit { result ≡ Err WorldFault.NumberLimit →
        IsOverLimit (M.meaning model.now) end (min to before) }
{
    let time = to.min(end);
    let processes = model.lps();
    let frame = framed(time, u64::from(processes), view);
    if let Some((marks, pending)) = mark_run(alloc, model, end, to.min(before), time, &frame)? {
        let first = marks.first.as_slice();
        let diagram = finish(
            alloc,
            time,
            processes,
            view,
            &marks,
            first,
            pending.as_slice(),
        )?;
        if diagram.events.len() == first.len() {
            return Ok(diagram);
        }
    }
    let trace = trace_before(alloc, model, end, to, before)?;
    Ok(diagram_in(alloc, &trace, view)?)
}

/// Returns the marks that a frame has of the events of the run of a model up to `to` ticks, and its
/// pending messages that are not before the time `left`; or nothing if it cannot know them, since
/// an event was handled before its sender sent it.
fn mark_run<M: Model>(
    alloc: Global,
    model: &M,
    end: u64,
    to: u64,
    left: u64,
    frame: &Frame,
) -> Result<Option<(Marks, Vec<Sending>)>, WorldFault>
    requires some { 1 ≤ end }
    requires end { end ≤ 2 ^ 40 }
    ensures marks { IfOk result (λ o. IfSome o (λ m. (r : Run)
        × IsRunOf (M.meaning model.now) end to r
        × AreMarks frame.now frame.now.to (sendings r r.events) m.0
        × (m.1.items ≡ sendings r (filter (is_from left) r.pending)))) }
    ensures limit { result ≡ Err WorldFault.NumberLimit →
        IsOverLimit (M.meaning model.now) end to }
{
    let bound = to.min(end);
    let mut world = World::open(alloc, model, end)?;
    let mut senders = opening_senders(alloc, world.numbers())?;
    let mut marks = no_marks(alloc);
    let mut room = EVENTS_KEPT;
    for _ in 0..u64::MAX {
        let Some(event) = due(&world, bound) else {
            let pending = pending_from(alloc, world, senders.as_slice(), left)?;
            return Ok(Some((marks, pending)));
        };
        world.step(model)?;
        if !mark_event(frame, &event, world.numbers(), &mut senders, &mut marks)? {
            return Ok(None);
        }
        if world.log().len() >= room {
            let (short, pending) = forget_times(alloc, world, &mut senders, &[], end)?;
            world = short;
            room = EVENTS_KEPT.max(pending);
        }
    }
    Err(WorldFault::NoMemory)
}

/// Begins with no message.
fn no_marks(alloc: Global) -> Marks
    ensures { (f : Frame) (before : ℕ) → AreMarks f before [] result }
{
    Marks {
        count: 0,
        first: Vec::new(alloc),
    }
}

/// Adds an event to the marks, after which the processes have sent these numbers of messages.
/// Returns whether its sender has sent it.
fn mark_event(
    frame: &Frame,
    event: &Message,
    numbers: &[u64],
    senders: &mut Vec<Sender>,
    marks: &mut Marks,
) -> Result<bool, AllocError>
    requires numbers { event.now.to < length numbers.now }
    requires senders { event.now.to < length senders.old.items }
    ensures senders { OnOk result ((r : Run) (n : ℕ) (pending : List Message) →
        AreSenders r senders.old.items → length r.sends ≡ length r.events →
        get_or numbers.now event.now.to 0 ≡ length (sending_times r event.now.to) + n →
        HaveTimes r (with_event r event.now n pending) senders.old.items senders.new.items) }
    ensures marks { result ≡ Ok true → (r : Run) (n : ℕ) (pending : List Message) →
        AreSenders r senders.old.items → length r.sends ≡ length r.events →
        get_or numbers.now event.now.to 0 ≡ length (sending_times r event.now.to) + n →
        HaveTime r senders.old.items event.now → HasMarks r frame.now marks.old →
        HasMarks (with_event r event.now n pending) frame.now marks.new }
{
    let place = event.to() as usize;
    add_sends(senders, event, numbers[place])?;
    let senders = senders.as_slice();
    if !is_sent(senders, event) {
        return Ok(false);
    }
    let sending = Sending {
        message: *event,
        sent: sent_at(senders, event),
    };
    marks.add(frame, frame.to, &sending)?;
    Ok(true)
}

/// Returns the pending messages of a world that are not before a time in ticks.
fn pending_from(
    alloc: Global,
    world: World,
    senders: &[Sender],
    time: u64,
) -> Result<Vec<Sending>, AllocError>
    ensures { IfOk result (λ v. (r : Run) → AreSenders r senders.now →
        Every (HaveTime r senders.now) world.world.pending →
        v.items ≡ sendings r (filter (is_from time) world.world.pending)) }
{
    let WorldParts {
        time: _,
        states: _,
        numbers: _,
        pending,
        log: _,
    } = world.into_parts();
    sent_from(alloc, pending.as_slice(), senders, time)
}

/// Returns those of these messages that are not before a time in ticks.
fn sent_from(
    alloc: Global,
    messages: &[Message],
    senders: &[Sender],
    time: u64,
) -> Result<Vec<Sending>, AllocError>
    ensures { IfOk result (λ v. (r : Run) → AreSenders r senders.now →
        Every (HaveTime r senders.now) messages.now →
        v.items ≡ sendings r (filter (is_from time) messages.now)) }
{
    let mut late = Vec::new(alloc);
    for message in messages {
        if message.time() >= time {
            late.push(Sending {
                message: *message,
                sent: sent_at(senders, message),
            })?;
        }
    }
    Ok(late)
}

/// Returns the diagram of a trace in a view.
fn diagram_in(alloc: Global, trace: &Trace, view: &View) -> Result<Diagram, AllocError>
    ensures { IfOk result (λ d. IsDiagram trace.now view.now d) }
{
    let time = trace.time();
    let processes = trace.first().len() as u32;
    let frame = framed(time, u64::from(processes), view);
    let events = sendings_in(alloc, trace, trace.events())?;
    let events = events.as_slice();
    let pending = sendings_in(alloc, trace, trace.pending())?;
    let marks = marks_of(alloc, &frame, frame.to, events)?;
    finish(
        alloc,
        time,
        processes,
        view,
        &marks,
        events,
        pending.as_slice(),
    )
}

/// Returns these messages of a trace, with their times.
fn sendings_in(
    alloc: Global,
    trace: &Trace,
    messages: &[Message],
) -> Result<Vec<Sending>, AllocError>
    ensures { IfOk result (λ v. v.items ≡ sendings trace.now messages.now) }
{
    let mut sendings = Vec::new(alloc);
    for message in messages {
        sendings.push(Sending {
            message: *message,
            sent: trace.sent_at(message),
        })?;
    }
    Ok(sendings)
}

/// Returns the diagram of a run up to `time` ticks in a view, with these marks of its events, from
/// its events and pending messages.
fn finish(
    alloc: Global,
    time: u64,
    processes: u32,
    view: &View,
    marks: &Marks,
    events: &[Sending],
    pending: &[Sending],
) -> Result<Diagram, AllocError>
    ensures events { IfOk result (λ d. (r : Run) → time ≡ r.time → processes ≡ length r.first →
        AreMarks (frame_of r view.now) (frame_of r view.now).to (sendings r r.events) marks.now →
        d.events.items ≡ first_shown (drawn_frame r view.now) (drawn_frame r view.now).to
        events.now) }
    ensures diagram { IfOk result (λ d. (r : Run) → time ≡ r.time → processes ≡ length r.first →
        AreMarks (frame_of r view.now) (frame_of r view.now).to (sendings r r.events) marks.now →
        pending.now ≡ sendings r r.pending →
        d.events.items ≡ first_shown (drawn_frame r view.now) (drawn_frame r view.now).to
        (sendings r r.events) →
        IsDiagram r view.now d) }
{
    let frame = framed(time, u64::from(processes), view);
    let to = drawn_end(&frame, view.to, marks.first.as_slice());
    let drawn = Frame { to, ..frame };
    let Marks {
        count: _,
        first: events,
    } = marks_of(alloc, &drawn, to, events)?;
    let Marks {
        count: _,
        first: pending,
    } = marks_of(alloc, &drawn, u64::MAX, pending)?;
    Ok(Diagram {
        time,
        processes,
        view: *view,
        count: marks.count,
        to,
        events,
        pending,
    })
}

/// Returns the marks that a frame has of these messages.
fn marks_of(
    alloc: Global,
    frame: &Frame,
    before: u64,
    sendings: &[Sending],
) -> Result<Marks, AllocError>
    ensures { IfOk result (AreMarks frame.now before sendings.now) }
{
    let mut marks = no_marks(alloc);
    for sending in sendings {
        marks.add(frame, before, sending)?;
    }
    Ok(marks)
}

/// Returns where the picture of a frame ends that draws these events: with the frame if its view has
/// an end, and otherwise with the last event.
fn drawn_end(frame: &Frame, to: Option<u64>, events: &[Sending]) -> u64
    ensures { result ≡ drawn_end frame.now to events.now }
{
    let mut end = frame.to;
    if to.is_some() {
        return end;
    }
    for event in events {
        event.message.ranged();
        end = event.message.time() + 1;
    }
    end
}

/// Returns whether a message is drawn: it is received in the frame before the time `before`, and
/// sent before the frame's end.
fn is_shown(frame: &Frame, before: u64, sending: &Sending) -> bool
    ensures { result ≡ is_shown frame.now before sending.now }
{
    let time = sending.message.time();
    let to = sending.message.to();
    if time < frame.from || time >= before || sending.sent >= frame.to {
        return false;
    }
    to >= frame.first && to - frame.first < frame.rows
}
