// The messages that one handling sent.

ghost use Rattle.std.specs.Prelude.{◌≡◌, ◌<◌, ◌≤◌, ◌+◌, ◌^◌, length, IfOk, IsOk};
ghost use Rattle.model.specs.Meaning.{stamp as stamped_all};

use crate::{Outgoing, stamp};
use eventkey::Message;
use smallvec::SmallVec;
use std::alloc::{AllocError, Global};

/// The messages that one handling sent, in the order of sending, which contracts see as a list. One
/// message, as most models send, is in the value itself; more are in an allocation.
pub struct Sent {
    messages: SmallVec<Message, 1>,
}

// Not derived: the proof of each caller that drops these would have to go through its parts.
impl Drop for Sent {
    fn drop(self) {
        let Sent { messages: _ } = self;
    }
}

impl std::marker::Model for Sent {
    ghost use Rattle.std.specs.Prelude.{List};
    ghost use Rattle.eventkey.specs.Message.{Message};

    ghost Value = { List Message };

    ghost view = { λ s. s.messages.items };
}

impl Sent {
    /// Copies these messages, without an allocation for at most one.
    pub fn from_slice(alloc: Global, messages: &[Message]) -> Result<Sent, AllocError>
        ensures ok { IfOk result (λ sent. sent ≡ messages.now) }
        ensures succeeds { length messages.now ≤ 1 → IsOk result }
    {
        let messages = SmallVec::from_slice(alloc, messages)?;
        Ok(Sent { messages })
    }

    /// Makes the messages that process `lp` sends in a handling at `time` ticks, below 2^40,
    /// numbered from `number` on, without an allocation for at most one.
    pub fn stamped(
        alloc: Global,
        lp: u32,
        time: u64,
        number: u64,
        sends: &[Outgoing],
    ) -> Result<Sent, AllocError>
        requires time { time < 2 ^ 40 }
        requires room { number + length sends.now ≤ 2 ^ 63 }
        ensures { IfOk result (λ sent. sent ≡ stamped_all lp time number sends.now) }
    {
        let mut messages = SmallVec::new(alloc);
        messages.reserve(sends.len())?;
        let mut next = number;
        for outgoing in sends {
            messages.push(stamp(lp, time, next, outgoing))?;
            next += 1;
        }
        Ok(Sent { messages })
    }

    /// Returns the messages.
    pub fn as_slice(&self) -> &[Message]
        ensures { result.now ≡ self.now }
    {
        self.messages.as_slice()
    }
}
