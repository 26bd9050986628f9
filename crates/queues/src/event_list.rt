// The waiting messages of a process.

ghost use Rattle.std.specs.Prelude.{◌≡◌, ◌<◌, ◌≤◌, ◌^◌, [], length, drop, vec_len, vec_capacity};
ghost use Rattle.std.specs.Prelude.{slice_get};
ghost use Rattle.std.specs.Prelude.{IfSome, OnOk, OnErr};
ghost use Rattle.eventkey.specs.Bag.{IsAscending, add, is_among, remove_one};
ghost use Rattle.queues.specs.Queue.{first_time};
ghost use Rattle.queues.specs.Split.{IsSplit, both};

use crate::bag::Bag;
use crate::bucket::{find, put};
use eventkey::Message;
use std::alloc::{AllocError, Global};

/// The maximum number of messages at hand. It is small, so that an insertion moves few of them.
const AT_HAND: usize = 32;

/// The waiting messages, seen as their ascending list. The least ones are at hand in one piece of
/// memory, since they are handled next. If more than `AT_HAND` wait, the others are in a bag, where
/// an insertion costs the logarithm of the number of their times.
#[derive(Drop)]
pub(crate) struct EventList {
    // Greatest first, so that the least is popped from the end.
    near: Vec<Message>,
    far: Bag,
    len: usize,
}

impl std::marker::Model for EventList {
    ghost use Rattle.std.specs.Prelude.{List};
    ghost use Rattle.eventkey.specs.Message.{Message};
    ghost use Rattle.queues.specs.EventList.{IsInTwo, all_waiting};

    ghost Value = { List Message };

    ghost view = { all_waiting };

    ghost invariant = { IsInTwo };
}

impl EventList {
    /// Returns an empty list.
    pub fn new(alloc: Global) -> EventList
        ensures { result ≡ [] }
    {
        EventList {
            near: Vec::new(alloc),
            far: Bag::new(alloc),
            len: 0,
        }
    }

    /// Returns the number of waiting messages.
    pub fn len(&self) -> usize
        ensures { result ≡ length self.now }
    {
        self.len
    }

    /// Returns the least message, if one waits.
    pub fn first(&self) -> Option<Message>
        ensures least { result ≡ slice_get self.now 0 }
        ensures ascending { IsAscending self.now }
    {
        match self.near.last() {
            Some(least) => Some(*least),
            None => None,
        }
    }

    /// Returns the least time, in ticks, if a message waits.
    pub fn least_time(&self) -> Option<u64>
        ensures least { result ≡ first_time self.now }
        ensures range { IfSome result (λ time. time < 2 ^ 41) }
    {
        match self.first() {
            Some(least) => {
                least.ranged();
                Some(least.time())
            }
            None => None,
        }
    }

    /// Removes the least message and returns it, if one waits. Allocates nothing.
    pub fn take_first(&mut self) -> Option<Message>
        ensures least { result ≡ slice_get self.old 0 }
        ensures left { self.new ≡ drop 1 self.old }
    {
        let least = self.near.pop()?;
        refill(&mut self.near, &mut self.far);
        self.len -= 1;
        Some(least)
    }

    /// Adds a message. Returns `AllocError` only if an allocation fails; nothing is then changed.
    pub fn add(&mut self, message: Message) -> Result<(), AllocError>
        ensures added { OnOk result (self.new ≡ add message self.old) }
        ensures unchanged { OnErr result (self.new ≡ self.old) }
    {
        let Some(len) = self.len.checked_add(1) else {
            return Err(AllocError);
        };
        put_in(&mut self.near, &mut self.far, message)?;
        self.len = len;
        Ok(())
    }

    /// Removes one copy of a message, and returns whether there was one. Allocates nothing.
    pub fn remove(&mut self, message: &Message) -> bool
        ensures answer { result ≡ is_among message.now self.old }
        ensures removed { self.new ≡ remove_one message.now self.old }
    {
        let was_there = take_out(&mut self.near, &mut self.far, message);
        if was_there {
            self.len -= 1;
        }
        was_there
    }
}

/// Adds a message. Returns `AllocError` only if an allocation fails; the message is then not added.
fn put_in(near: &mut Vec<Message>, far: &mut Bag, message: Message) -> Result<(), AllocError>
    requires { IsSplit near.old.items far.old }
    ensures split { IsSplit near.new.items far.new }
    ensures added { OnOk result
        (both near.new.items far.new ≡ add message (both near.old.items far.old)) }
    ensures unchanged { OnErr result (both near.new.items far.new ≡ both near.old.items far.old) }
{
    make_room(near, far)?;
    if far.len() > 0 && near[0].is_before(&message) {
        far.add(message)?;
        return Ok(());
    }
    near.reserve(1)?;
    put(near, message);
    Ok(())
}

/// Moves the greatest message at hand to the others if `AT_HAND` messages are at hand. Returns
/// `AllocError` only if an allocation fails; the message then stays.
fn make_room(near: &mut Vec<Message>, far: &mut Bag) -> Result<(), AllocError>
    requires { IsSplit near.old.items far.old }
    ensures split { IsSplit near.new.items far.new }
    ensures room { OnOk result (length near.new.items < 32) }
    ensures same { both near.new.items far.new ≡ both near.old.items far.old }
{
    if near.len() < AT_HAND {
        return Ok(());
    }
    far.add(near[0])?;
    near.remove(0);
    Ok(())
}

/// Removes one copy of a message, and returns whether there was one. Allocates nothing.
fn take_out(near: &mut Vec<Message>, far: &mut Bag, message: &Message) -> bool
    requires { IsSplit near.old.items far.old }
    ensures split { IsSplit near.new.items far.new }
    ensures answer { result ≡ is_among message.now (both near.old.items far.old) }
    ensures taken { both near.new.items far.new ≡ remove_one message.now
        (both near.old.items far.old) }
{
    match find(near.as_slice(), message) {
        Some(place) => {
            near.remove(place);
            refill(near, far);
            true
        }
        None => far.remove(message),
    }
}

/// Moves the least of the others to those at hand if none is at hand. Allocates nothing.
fn refill(near: &mut Vec<Message>, far: &mut Bag)
    requires ascending { IsAscending (both near.old.items far.old) }
    requires few { length near.old.items ≤ 32 }
    requires room { 0 < vec_capacity near.old }
    ensures split { IsSplit near.new.items far.new }
    ensures same { both near.new.items far.new ≡ both near.old.items far.old }
{
    if near.len() > 0 {
        return;
    }
    if let Some(least) = far.first() {
        far.remove(&least);
        near.push(least).unwrap();
    }
}
