// The input queue of a logical process.

ghost use Rattle.std.specs.Prelude.{◌≡◌, ◌<◌, ◌≤◌, ◌+◌, ◌++◌, [], length, nat_lt, ◌^◌, Ok, None};
ghost use Rattle.std.specs.Prelude.{IfOk, IfSome, OnOk, OnErr};
ghost use Rattle.eventkey.specs.Bag.{add_all};
ghost use Rattle.eventkey.specs.Signed.{minus, plus};
ghost use Rattle.queues.specs.Queue.{IsInOrder, arrival, arrived, first_before, first_time};
ghost use Rattle.queues.specs.Queue.{released, taken};

use crate::bag::Bag;
use crate::event_list::EventList;
use crate::{Arrival, done};
use eventkey::{Message, Sign, Signed};
use std::alloc::{AllocError, Global};
use std::collections::VecDeque;

/// The input queue of a logical process (Jefferson 1985), seen as three ascending lists: the done
/// messages, the waiting messages, none of them less than the last done one, and the antimessages
/// that wait for their message. An antimessage and its message are never both in the queue.
pub struct InputQueue {
    // Messages leave at the front (fossil collection) and at the back (rollback).
    done: VecDeque<Message>,
    waiting: EventList,
    antis: Bag,
}

// Handwritten: with a derived drop, each caller that drops a queue proves again how its parts are
// dropped.
impl Drop for InputQueue {
    fn drop(self) {
        let InputQueue {
            done: _,
            waiting: _,
            antis: _,
        } = self;
    }
}

impl std::marker::Model for InputQueue {
    ghost use Rattle.queues.specs.Queue.{Queue, IsInOrder};
    ghost use Rattle.queues.specs.Inside.{queue_inside};

    ghost Value = { Queue };

    ghost view = { queue_inside };

    ghost invariant = { λ q. IsInOrder (queue_inside q) };
}

impl InputQueue {
    /// Returns the empty queue.
    pub fn new(alloc: Global) -> InputQueue
        ensures { result ≡ record { done = []; waiting = []; antis = [] } }
    {
        InputQueue {
            done: VecDeque::new(alloc),
            waiting: EventList::new(alloc),
            antis: Bag::new(alloc),
        }
    }

    /// Returns a queue in which `messages` wait; they may be in any order. Returns `AllocError`
    /// only if an allocation fails.
    pub fn of_waiting(alloc: Global, messages: Vec<Message>) -> Result<InputQueue, AllocError>
        ensures { IfOk result (λ q. q
            ≡ record { done = []; waiting = add_all messages.items []; antis = [] }) }
    {
        let mut waiting = EventList::new(alloc);
        for place in 0..messages.len() {
            waiting.add(messages[place])?;
        }
        Ok(InputQueue {
            done: VecDeque::new(alloc),
            waiting,
            antis: Bag::new(alloc),
        })
    }

    /// States that the lists are in order and no antimessage is beside its message.
    pub fn in_order(&self)
        ensures { IsInOrder self.now }
    {
        let _ = &self.done;
    }

    /// Returns the number of done messages.
    pub fn done_len(&self) -> usize
        ensures { result ≡ length self.now.done }
    {
        self.done.len()
    }

    /// Returns the number of waiting messages.
    pub fn waiting_len(&self) -> usize
        ensures { result ≡ length self.now.waiting }
    {
        self.waiting.len()
    }

    /// Returns the number of waiting antimessages.
    pub fn antis_len(&self) -> usize
        ensures { result ≡ length self.now.antis }
    {
        self.antis.len()
    }

    /// Puts in a message or an antimessage. The done messages that it undoes wait again; then it
    /// annihilates with its opposite or waits. Returns `AllocError` only if an allocation fails;
    /// the queue is then unchanged.
    pub fn arrive(&mut self, signed: Signed) -> Result<Arrival, AllocError>
        ensures answer { IfOk result (λ a. a ≡ arrival signed self.old) }
        ensures arrived { OnOk result (self.new ≡ arrived signed self.old) }
        ensures unchanged { OnErr result (self.new ≡ self.old) }
    {
        match signed.sign {
            Sign::Plus => self.arrive_plus(signed.message),
            Sign::Minus => self.arrive_minus(signed.message),
        }
    }

    // A message annihilates with its antimessage, or undoes the done messages after it and waits.
    fn arrive_plus(&mut self, message: Message) -> Result<Arrival, AllocError>
        ensures answer { IfOk result (λ a. a ≡ arrival (plus message) self.old) }
        ensures arrived { OnOk result (self.new ≡ arrived (plus message) self.old) }
        ensures unchanged { OnErr result (self.new ≡ self.old) }
    {
        if self.antis.remove(&message) {
            return Ok(Arrival::Annihilated { back: 0 });
        }
        let back = done::count_after(&self.done, &message);
        // The calls that can fail come first.
        self.waiting.add(message)?;
        if done::wait_again(&self.done, &mut self.waiting, back).is_err() {
            self.waiting.remove(&message);
            return Err(AllocError);
        }
        done::undo(&mut self.done, back);
        Ok(Arrival::Queued { back })
    }

    // An antimessage annihilates with its message, waiting or done, or waits for it.
    fn arrive_minus(&mut self, message: Message) -> Result<Arrival, AllocError>
        ensures answer { IfOk result (λ a. a ≡ arrival (minus message) self.old) }
        ensures arrived { OnOk result (self.new ≡ arrived (minus message) self.old) }
        ensures unchanged { OnErr result (self.new ≡ self.old) }
    {
        if self.waiting.remove(&message) {
            return Ok(Arrival::Annihilated { back: 0 });
        }
        if done::holds(&self.done, &message) {
            let later = done::count_after(&self.done, &message);
            done::wait_again(&self.done, &mut self.waiting, later)?;
            done::undo(&mut self.done, later);
            // The last done message is now the annihilated one.
            self.done.pop_back();
            return Ok(Arrival::Annihilated { back: later + 1 });
        }
        self.antis.add(message)?;
        Ok(Arrival::Waits)
    }

    /// Returns the least waiting message if its time is below `end`, in ticks. Allocates nothing.
    pub fn next(&self, end: u64) -> Option<Message>
        ensures { result ≡ first_before end self.now.waiting }
    {
        match self.waiting.first() {
            Some(message) if message.time() < end => Some(message),
            _ => None,
        }
    }

    /// Moves the least waiting message to the done ones and returns it, if its time is below `end`,
    /// in ticks. Returns `AllocError` only if an allocation fails; the queue is then unchanged.
    pub fn take_next(&mut self, end: u64) -> Result<Option<Message>, AllocError>
        ensures answer { IfOk result (λ next. next ≡ first_before end self.old.waiting) }
        ensures taken { OnOk result (self.new ≡ taken end self.old) }
        ensures unchanged { OnErr result (self.new ≡ self.old) }
        ensures idle { first_before end self.old.waiting ≡ None → result ≡ Ok None }
    {
        let Some(message) = self.next(end) else {
            return Ok(None);
        };
        self.done.push_back(message)?;
        self.waiting.take_first();
        Ok(Some(message))
    }

    /// Drops the done messages below `floor`, in ticks. Allocates nothing.
    pub fn release(&mut self, floor: u64)
        ensures { self.new ≡ released floor self.old }
    {
        let count = self.done.partition_point(
            |message: &Message| -> bool
                ensures { result ≡ nat_lt message.now.time floor }
            { message.time() < floor },
        );
        done::let_go(&mut self.done, count);
    }

    /// Returns the least time, in ticks, of the waiting messages and antimessages, or `None` if
    /// none waits. Allocates nothing.
    pub fn low(&self) -> Option<u64>
        ensures low { result ≡ first_time (self.now.waiting ++ self.now.antis) }
        ensures range { IfSome result (λ time. time < 2 ^ 41) }
    {
        let waiting = self.waiting.least_time();
        let antis = self.antis.least_time();
        match (waiting, antis) {
            (Some(message), Some(anti)) => Some(message.min(anti)),
            (Some(message), None) => Some(message),
            (None, low) => low,
        }
    }
}
