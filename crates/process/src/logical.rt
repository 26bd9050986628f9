// A logical process.

ghost use Rattle.std.specs.Prelude.{◌≡◌, ◌≢◌, ◌↔◌, ◌<◌, ◌≤◌, ◌++◌, ◌^◌, [], length};
ghost use Rattle.std.specs.Prelude.{not, true, false, Ok, Err, None};
ghost use Rattle.std.specs.Prelude.{IfOk, IfErr, IfSome, OnOk, OnErr};
ghost use Rattle.model.specs.Meaning.{Meaning};
ghost use Rattle.queues.specs.Queue.{first_before, first_time};
ghost use Rattle.queues.specs.Record.{first_handled};
ghost use Rattle.process.specs.Consistent.{IsHistory};
ghost use Rattle.process.specs.View.{CollectionHasCause, DeliveryHasCause, HasDone};
ghost use Rattle.process.specs.View.{HasRun, IsCollected, IsDelivered, IsProcessKept, IsRefused};
ghost use Rattle.process.specs.View.{IsSound, RunHasCause, has_early, has_foreign, loaded};
ghost use Rattle.process.specs.declared.ProcessFault.TheVariants.{BelowFloor, NotMine};
ghost use Rattle.process.specs.declared.ProcessFault.TheVariants.{NumberLimit, Spent};

use crate::history::History;
use crate::sends::{append, cancel_sends};
use crate::{ProcessFault, Reports};
use eventkey::{Message, Sign, Signed};
use model::{Model as Simulated, Sent, Words};
use queues::InputQueue;
use smallvec::SmallVec;
use std::alloc::Global;

/// A logical process (Jefferson 1985): its input queue, and the history of what it handled, with
/// its state words and its send number. An allocation failure, or sends past the limit of the send
/// number, leave it spent.
///
/// No rollback undoes a handling below the floor, since no message below it is accepted.
pub struct Process {
    alloc: Global,
    lp: u32,
    floor: u64,
    spent: bool,
    queue: InputQueue,
    history: History,
}

// Handwritten: with a derived drop, each caller that drops a process proves again how its parts are
// dropped.
impl Drop for Process {
    fn drop(self) {
        let Process {
            alloc: _,
            lp: _,
            floor: _,
            spent: _,
            queue: _,
            history: _,
        } = self;
    }
}

impl std::marker::Model for Process {
    ghost use Rattle.process.specs.View.{ProcessView};
    ghost use Rattle.process.specs.Inside.{view_of, IsWholeProcess};

    ghost Value = { ProcessView };

    ghost view = { view_of };

    ghost invariant = { IsWholeProcess };
}

impl Process {
    /// The greatest send number.
    pub const NUMBER_LIMIT: u64 = 1 << 63;

    /// Returns process number `lp` in the state `words`, at most 16, whose next send has the number
    /// `number`, at most 2^63, and for which the messages `pending`, in any order, wait. Refuses
    /// with `NotMine` if one of them is for another process, else with `BelowFloor` if the time of
    /// one is below `floor`, in ticks, and with `NoMemory` only if an allocation fails.
    pub fn load(
        alloc: Global,
        lp: u32,
        words: Words,
        number: u64,
        pending: Vec<Message>,
        floor: u64,
    ) -> Result<Process, ProcessFault>
        requires few { length words.items ≤ 16 }
        requires number { number ≤ 2 ^ 63 }
        ensures loaded { IfOk result (λ p. p ≡ record {
          lp = lp;
          floor = floor;
          spent = false;
          process = loaded words.items number pending.items;
        }) }
        ensures not_mine { (result ≡ Err NotMine) ↔ (has_foreign lp pending.items ≡ true) }
        ensures below_floor { (result ≡ Err BelowFloor) ↔ ((has_foreign lp pending.items ≡ false)
            × (has_early floor pending.items ≡ true)) }
        ensures unlimited { result ≢ Err NumberLimit }
        ensures unspent { result ≢ Err Spent }
        ensures done { (m : Meaning) → IfOk result (λ p. HasDone m p words.items number) }
        ensures history { (m : Meaning) → IfOk result (λ p. IsHistory m p.lp p.process) }
    {
        if is_foreign(lp, pending.as_slice()) {
            return Err(ProcessFault::NotMine);
        }
        if is_early(floor, pending.as_slice()) {
            return Err(ProcessFault::BelowFloor);
        }
        Ok(Process {
            alloc,
            lp,
            floor,
            spent: false,
            queue: InputQueue::of_waiting(alloc, pending)?,
            history: History::new(alloc, words, number),
        })
    }

    /// Checks nothing at run time. The contract states that a process that is not spent has its
    /// lists in order, only its own messages, and its numbers in range.
    pub fn sound(&self)
        ensures { self.now.spent ≡ false → IsSound self.now }
    {
        let _ = &self.queue;
    }

    /// Returns the number of the process.
    pub fn lp(&self) -> u32
        ensures { result ≡ self.now.lp }
    {
        self.lp
    }

    /// Returns the floor, in ticks: no message below it is accepted.
    pub fn floor(&self) -> u64
        ensures { result ≡ self.now.floor }
    {
        self.floor
    }

    /// Returns whether the process is poisoned, by an allocation failure or by the limit of its
    /// send number.
    pub fn is_spent(&self) -> bool
        ensures { result ≡ self.now.spent }
    {
        self.spent
    }

    /// Returns the state words.
    pub fn state(&self) -> &Words
        ensures { result.now.items ≡ self.now.process.state }
    {
        self.history.words()
    }

    /// Returns the number of the next send.
    pub fn number(&self) -> u64
        ensures { result ≡ self.now.process.number }
    {
        self.history.number()
    }

    /// Returns the number of handlings that a rollback can still undo.
    pub fn done_len(&self) -> usize
        ensures { result ≡ length self.now.process.done }
    {
        self.history.len()
    }

    /// Returns the number of waiting messages.
    pub fn waiting_len(&self) -> usize
        ensures { result ≡ length self.now.process.waiting }
    {
        self.queue.waiting_len()
    }

    /// Returns the number of antimessages that wait for their message.
    pub fn antis_len(&self) -> usize
        ensures { result ≡ length self.now.process.antis }
    {
        self.queue.antis_len()
    }

    /// Delivers a message or an antimessage. If it is a straggler, or the antimessage of a handled
    /// message, the handlings that it undoes are rolled back: state and send number are again those
    /// before them, and the antimessages of their sends are appended to `out`, those of the
    /// earliest handling first.
    ///
    /// Refuses with `Spent` if the process is spent, with `NotMine` if the message is for another
    /// process, and with `BelowFloor` if its time is below the floor, whatever its sign; these
    /// change nothing. `NoMemory`, only if an allocation fails, leaves the process spent.
    pub fn deliver(&mut self, signed: Signed, out: &mut Vec<Signed>) -> Result<(), ProcessFault>
        ensures delivered { OnOk result
            (IsDelivered signed self.old self.new out.old.items out.new.items) }
        ensures causes { DeliveryHasCause signed self.old result }
        ensures refused { IfErr result (λ fault.
            IsRefused fault self.old self.new out.old.items out.new.items) }
        ensures kept { (m : Meaning) → IsProcessKept m self.old self.new }
        ensures floor { self.new.floor ≡ self.old.floor }
    {
        if self.spent {
            return Err(ProcessFault::Spent);
        }
        if signed.message.to() != self.lp {
            return Err(ProcessFault::NotMine);
        }
        if signed.message.time() < self.floor {
            return Err(ProcessFault::BelowFloor);
        }
        // Cleared at the end, so that an allocation failure midway leaves the process spent.
        self.spent = true;
        let arrival = self.queue.arrive(signed)?;
        let back = arrival.back();
        cancel_sends(self.alloc, &self.history, back, out)?;
        self.history.roll_back(back);
        self.spent = false;
        Ok(())
    }

    /// Returns the least waiting message if its time is below `end`, in ticks. Allocates nothing.
    pub fn next(&self, end: u64) -> Option<Message>
        ensures { result ≡ first_before end self.now.process.waiting }
    {
        self.queue.next(end)
    }

    /// Returns the least time, in ticks, of the waiting messages and antimessages, or `None` if
    /// none waits. Allocates nothing.
    pub fn low(&self) -> Option<u64>
        ensures low { result ≡ first_time (self.now.process.waiting ++ self.now.process.antis) }
        ensures range { IfSome result (λ time. time < 2 ^ 41) }
    {
        self.queue.low()
    }

    /// Returns the time, in ticks, of the earliest handling in the history, or `None` if it is
    /// empty. Allocates nothing.
    pub fn oldest(&self) -> Option<u64>
        ensures { result ≡ first_handled self.now.process.done }
    {
        self.history.first_time()
    }

    /// Handles the least waiting message if its time is below `end`, at most 2^40 ticks, and
    /// appends the messages that it sends to `out`. Returns whether there was one.
    ///
    /// Refuses with `Spent` if the process is spent, which changes nothing, and with `NumberLimit`
    /// if the sends would take the send number past its limit. `NumberLimit` and `NoMemory` leave
    /// the process spent.
    pub fn run_one<M: Simulated>(
        &mut self,
        model: &M,
        end: u64,
        out: &mut Vec<Signed>,
    ) -> Result<bool, ProcessFault>
        requires lp { self.old.lp < (M.meaning model.now).lps }
        requires end { end ≤ 2 ^ 40 }
        ensures ran { result ≡ Ok true → HasRun
            (M.meaning model.now) end self.old self.new out.old.items out.new.items }
        ensures idle { (result ≡ Ok false) ↔ ((self.old.spent ≡ false)
            × (first_before end self.old.process.waiting ≡ None)) }
        ensures idle_unchanged { result ≡ Ok false → (self.new ≡ self.old) × (out.new.items
            ≡ out.old.items) }
        ensures causes { RunHasCause (M.meaning model.now) end self.old result }
        ensures refused { IfErr result (λ fault.
            IsRefused fault self.old self.new out.old.items out.new.items) }
        ensures kept { IsProcessKept (M.meaning model.now) self.old self.new }
        ensures floor { self.new.floor ≡ self.old.floor }
    {
        if self.spent {
            return Err(ProcessFault::Spent);
        }
        let Some(message) = self.next(end) else {
            return Ok(false);
        };
        // The laws of the model require these ranges.
        message.ranged();
        model::ranged(self.history.words().as_slice());
        let mut next = SmallVec::new(self.alloc);
        let mut sends = SmallVec::new(self.alloc);
        model.handle_into(
            self.alloc,
            self.lp,
            self.history.words(),
            &message,
            &mut next,
            &mut sends,
        );
        let count = sends.len() as u64;
        let number = self.history.number();
        // Cleared at the end, so that an allocation failure midway leaves the process spent.
        self.spent = true;
        if count > Process::NUMBER_LIMIT - number {
            return Err(ProcessFault::NumberLimit);
        }
        let sent = Sent::stamped(
            self.alloc,
            self.lp,
            message.time(),
            number,
            sends.as_slice(),
        )?;
        append(out, Sign::Plus, sent.as_slice())?;
        self.queue.take_next(end)?;
        self.history.push(&message, sent.as_slice(), next)?;
        self.spent = false;
        Ok(true)
    }

    /// Removes the handlings below `floor`, in ticks, and returns them in order, each with what the
    /// process was after it. `floor` is at least the floor of the process, and becomes its floor.
    ///
    /// Refuses with `Spent` if the process is spent, which changes nothing. `NoMemory`, only if an
    /// allocation fails, leaves the process spent.
    pub fn collect(&mut self, floor: u64) -> Result<Reports, ProcessFault>
        requires floor { self.old.floor ≤ floor }
        ensures collected { IfOk result (λ fossils.
            IsCollected floor self.old self.new [] fossils) }
        ensures causes { CollectionHasCause self.old result }
        ensures refused { IfErr result (λ fault. IsRefused fault self.old self.new [] []) }
        ensures kept { (m : Meaning) → IsProcessKept m self.old self.new }
        ensures floor { OnErr result (self.new.floor ≡ self.old.floor) }
    {
        let mut fossils = Reports::new(self.alloc);
        self.collect_into(floor, &mut fossils)?;
        Ok(fossils)
    }

    /// Does the same as `collect`, but appends the handlings to `fossils`, which a refusal leaves
    /// unchanged.
    pub fn collect_into(&mut self, floor: u64, fossils: &mut Reports) -> Result<(), ProcessFault>
        requires floor { self.old.floor ≤ floor }
        ensures collected { OnOk result
            (IsCollected floor self.old self.new fossils.old fossils.new) }
        ensures causes { CollectionHasCause self.old result }
        ensures refused { IfErr result (λ fault. IsRefused fault self.old self.new [] []) }
        ensures unchanged { OnErr result (fossils.new ≡ fossils.old) }
        ensures kept { (m : Meaning) → IsProcessKept m self.old self.new }
        ensures floor { OnErr result (self.new.floor ≡ self.old.floor) }
    {
        if self.spent {
            return Err(ProcessFault::Spent);
        }
        // Cleared at the end, so that an allocation failure midway leaves the process spent.
        self.spent = true;
        self.queue.release(floor);
        self.history.release(floor, fossils)?;
        self.floor = floor;
        self.spent = false;
        Ok(())
    }
}

/// Returns whether one of these messages is for another process.
fn is_foreign(lp: u32, messages: &[Message]) -> bool
    ensures { result ≡ has_foreign lp messages.now }
{
    messages.iter().any(|message| message.to() != lp)
}

/// Returns whether the time of one of these messages is below the floor.
fn is_early(floor: u64, messages: &[Message]) -> bool
    ensures { result ≡ has_early floor messages.now }
{
    messages.iter().any(|message| message.time() < floor)
}
