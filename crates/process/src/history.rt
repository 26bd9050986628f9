// What a process handled, and the state to which that led.

ghost use Rattle.std.specs.Prelude.{◌≡◌, ◌≤◌, ◌+◌, ◌++◌, ◌∷◌, ◌^◌, [], length, take, OnOk, OnErr};
ghost use Rattle.queues.specs.Queue.{but_last, last_of};
ghost use Rattle.queues.specs.Record.{first_handled, handled_before, handled_from, number_before};
ghost use Rattle.queues.specs.Record.{state_before};
ghost use Rattle.process.specs.Process.{number_after, reported, state_after};

use crate::handlings::Handlings;
use crate::{Reports, ReportsLeft};
use eventkey::Message;
use model::Words;
use std::alloc::{AllocError, Global};

/// The handlings of a process that are not reported yet, and the state words and the send number to
/// which they led.
///
/// A handling is kept as the bytes of its report, which has the state words after it. So a rollback
/// reads the state from the last report that is left, a release copies one run of bytes, and
/// neither runs the model.
pub(crate) struct History {
    alloc: Global,
    // The state words and the send number before the first handling.
    start: Words,
    start_number: u64,
    handlings: Handlings,
    // Those after the last one.
    state: Words,
    number: u64,
}

// Handwritten: with a derived drop, each caller that drops a history proves again how its parts are
// dropped.
impl Drop for History {
    fn drop(self) {
        let History {
            alloc: _,
            start: _,
            start_number: _,
            handlings: _,
            state: _,
            number: _,
        } = self;
    }
}

impl std::marker::Model for History {
    ghost use Rattle.process.specs.Course.{Course, IsCourse, course_of};

    ghost Value = { Course };

    ghost view = { course_of };

    ghost invariant = { IsCourse };
}

impl History {
    /// Returns the history of a process that has handled nothing yet, in the state `words`, at most
    /// 16, whose next send has the number `number`. Allocates nothing.
    pub fn new(alloc: Global, words: Words, number: u64) -> History
        requires { length words.items ≤ 16 }
        ensures { result ≡ record { done = []; state = words.items; number = number } }
    {
        History {
            alloc,
            start: copied(alloc, &words),
            start_number: number,
            handlings: Handlings::new(alloc),
            state: words,
            number,
        }
    }

    /// Returns the number of handlings.
    pub fn len(&self) -> usize
        ensures { result ≡ length self.now.done }
    {
        self.handlings.len()
    }

    /// Returns the time of the first handling's message, in ticks, if there is one.
    pub fn first_time(&self) -> Option<u64>
        ensures { result ≡ first_handled self.now.done }
    {
        self.handlings.first_time()
    }

    /// Returns the state words after the last handling.
    pub fn words(&self) -> &Words
        ensures { result.now.items ≡ self.now.state }
    {
        &self.state
    }

    /// Returns the send number after the last handling.
    pub fn number(&self) -> u64
        ensures { result ≡ self.now.number }
    {
        self.number
    }

    /// Appends the handling of a message in the present state, which sent these messages, at most 8,
    /// and left the state words `after`, at most 16. Copies its report to the end of the others.
    /// Returns `AllocError` only if an allocation fails; nothing is then changed.
    pub fn push(
        &mut self,
        message: &Message,
        sent: &[Message],
        after: Words,
    ) -> Result<(), AllocError>
        requires sent { length sent.now ≤ 8 }
        requires after { length after.items ≤ 16 }
        requires room { self.old.number + length sent.now ≤ 2 ^ 63 }
        ensures pushed { OnOk result (self.new.done ≡ self.old.done ++ record {
          message = message.now;
          before = self.old.state;
          number_before = self.old.number;
          sent = sent.now;
        } ∷ []) }
        ensures state { OnOk result (self.new.state ≡ after.items) }
        ensures number { OnOk result (self.new.number ≡ self.old.number + length sent.now) }
        ensures unchanged { OnErr result (self.new ≡ self.old) }
    {
        let number = self.number + sent.len() as u64;
        self.handlings
            .push(message, sent, after.as_slice(), number)?;
        self.state = after;
        self.number = number;
        Ok(())
    }

    /// Returns the reports of the last `count` handlings, in order. Takes time in proportion to
    /// `count`.
    pub fn last_reports(&self, count: usize) -> ReportsLeft<'_>
        requires { count ≤ length self.now.done }
        ensures { result
            ≡ reported (last_of count self.now.done) self.now.state self.now.number }
    {
        self.handlings.last_reports(count)
    }

    /// Rolls back (Jefferson 1985): drops the last `count` handlings, and goes back to the state
    /// words and the send number before them. Allocates nothing.
    pub fn roll_back(&mut self, count: usize)
        requires { count ≤ length self.old.done }
        ensures left { self.new.done ≡ but_last count self.old.done }
        ensures state { self.new.state
            ≡ state_before (last_of count self.old.done) self.old.state }
        ensures number { self.new.number
            ≡ number_before (last_of count self.old.done) self.old.number }
    {
        if count == 0 {
            return;
        }
        self.handlings.roll_back(count);
        let (words, number) = after_all(
            self.alloc,
            &self.handlings,
            &self.start,
            self.start_number,
        );
        self.state = words;
        self.number = number;
    }

    /// Moves the reports of the handlings before `floor`, in ticks, to the end of `fossils`, by one
    /// copy of their bytes. Returns `AllocError` only if an allocation fails; nothing is then
    /// changed.
    pub fn release(&mut self, floor: u64, fossils: &mut Reports) -> Result<(), AllocError>
        ensures reported { OnOk result (fossils.new ≡ fossils.old
            ++ reported (handled_before floor self.old.done)
            (state_before (handled_from floor self.old.done) self.old.state)
            (number_before (handled_from floor self.old.done) self.old.number)) }
        ensures left { OnOk result (self.new.done ≡ handled_from floor self.old.done) }
        ensures state { self.new.state ≡ self.old.state }
        ensures number { self.new.number ≡ self.old.number }
        ensures unchanged { OnErr result
            ((self.new ≡ self.old) × (fossils.new ≡ fossils.old)) }
    {
        let count = self.handlings.count_before(floor);
        let (words, number) = after_first(
            self.alloc,
            &self.handlings,
            count,
            &self.start,
            self.start_number,
        );
        // The state words of reports are in range.
        self.handlings.ranged();
        self.handlings.release(count, fossils)?;
        self.start = words;
        self.start_number = number;
        Ok(())
    }
}

/// Returns the state words and the send number after these handlings, which began with the words
/// `start`, at most 16, and the number `number`. Allocates nothing.
fn after_all(alloc: Global, handlings: &Handlings, start: &Words, number: u64) -> (Words, u64)
    requires few { length start.now.items ≤ 16 }
    ensures words { result.0.items ≡ state_after handlings.now start.now.items }
    ensures number { result.1 ≡ number_after handlings.now number }
{
    match handlings.last() {
        Some(last) => (last.after(alloc), last.number_after()),
        None => (copied(alloc, start), number),
    }
}

/// Does the same for the first `count` of these handlings.
fn after_first(
    alloc: Global,
    handlings: &Handlings,
    count: usize,
    start: &Words,
    number: u64,
) -> (Words, u64)
    requires there { count ≤ length handlings.now }
    requires few { length start.now.items ≤ 16 }
    ensures words { result.0.items ≡ state_after (take count handlings.now) start.now.items }
    ensures number { result.1 ≡ number_after (take count handlings.now) number }
{
    match handlings.last_before(count) {
        Some(last) => (last.after(alloc), last.number_after()),
        None => (copied(alloc, start), number),
    }
}

/// Copies at most 16 state words. Allocates nothing, since they fit inline.
fn copied(alloc: Global, state: &Words) -> Words
    requires { length state.now.items ≤ 16 }
    ensures { result.items ≡ state.now.items }
{
    Words::from_slice(alloc, state.as_slice()).unwrap()
}
