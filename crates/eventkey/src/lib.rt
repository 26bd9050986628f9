//! Messages of a simulation: their order and their bytes.
#![tactic(auto)]

ghost use Rattle.std.specs.Prelude.{◌≡◌, if◌then◌else◌, nat_lt, ◌<◌, ◌≤◌, ◌^◌, ◌↔◌, IfOk, IsErrOf};
ghost use Rattle.std.specs.Prelude.{IsTrue, length, MatchResult, List, ℕ, take, ◌++◌, refl};
ghost use Rattle.std.specs.Cmp.{partial_order_from_agreeing_total};
ghost use Rattle.std.specs.Ordering.{as_partial_cmp};
ghost use Rattle.eventkey.specs.Order.{messages_are_total, messages_are_tied};
ghost use Rattle.eventkey.specs.Encoding.{made};
ghost use Rattle.eventkey.specs.Message.{message_cmp, is_before, is_same, Message, IsRanged};
ghost use Rattle.eventkey.specs.declared.Signed.{Signed};
ghost use Rattle.eventkey.specs.declared.KeyFault.TheVariants.{Short, TimeTooLarge, BadSign};

mod bytes;
mod laws;
mod list;
mod reading;

pub use bytes::{MESSAGE_BYTES, SIGNED_BYTES, get_message, get_signed, put_message, put_signed};
pub use laws::{law_of_bags, law_of_messages, law_of_order, law_of_signed_messages};
pub use list::Listed;
pub use reading::{
    append_message, append_messages, append_signed, append_signed_list, read_message,
    read_messages, read_signed, read_signed_list, read_u8, read_u32, read_u64,
};
use std::cmp::Ordering;
use std::marker::Model;
use thiserror::Error;

/// A message of a simulation, stamped with its receive time (Jefferson 1985).
///
/// It has a receive time in ticks, below 2^41; the number of its sender; how many messages the
/// sender sent before it; the number of its receiver; and four words of content. Messages are
/// ordered by these, in this order.
// Fields lie in memory in the declared order, and the two 32-bit fields side by side leave no
// padding. A derived order would compare `to` before `number`, so `Ord` is written out.
#[derive(Clone, Copy, Debug, Default, PartialEq, Eq)]
pub struct Message {
    time: u64,
    from: u32,
    to: u32,
    number: u64,
    a: u64,
    b: u64,
    c: u64,
    d: u64,
}

// Messages fill most of the memory that a run touches, so each padding byte costs time.
const _: () = prove!(size_of::<Message>() == 56);

impl PartialOrd for Message {
    ghost partial_cmp = { as_partial_cmp message_cmp };

    ghost laws = { partial_order_from_agreeing_total message_cmp messages_are_total
        (λ x y. refl) messages_are_tied };

    fn partial_cmp(&self, other: &Message) -> Option<Ordering> {
        Some(self.cmp(other))
    }
}

impl Ord for Message {
    ghost cmp = { message_cmp };

    ghost total = { messages_are_total };

    ghost matches_partial_cmp = { λ x y. refl };

    ghost matches_eq = { messages_are_tied };

    #[tactic(auto, unfolding(crate::specs::Message::message_cmp))]
    fn cmp(&self, other: &Message) -> Ordering {
        if self.time != other.time {
            return self.time.cmp(&other.time);
        }
        if self.from != other.from {
            return self.from.cmp(&other.from);
        }
        if self.number != other.number {
            return self.number.cmp(&other.number);
        }
        if self.to != other.to {
            return self.to.cmp(&other.to);
        }
        if self.a != other.a {
            return self.a.cmp(&other.a);
        }
        if self.b != other.b {
            return self.b.cmp(&other.b);
        }
        if self.c != other.c {
            return self.c.cmp(&other.c);
        }
        self.d.cmp(&other.d)
    }
}

impl Model for Message {
    ghost use Rattle.eventkey.specs.Message.{Message, IsRanged};

    ghost Value = { Message };

    ghost view = { λ m. record {
      time = m.time;
      from = m.from;
      number = m.number;
      to = m.to;
      a = m.a;
      b = m.b;
      c = m.c;
      d = m.d;
    } };

    ghost invariant = { λ m. IsRanged (record {
      time = m.time;
      from = m.from;
      number = m.number;
      to = m.to;
      a = m.a;
      b = m.b;
      c = m.c;
      d = m.d;
    }) };

    ghost inverse = { λ v. record {
      time = v.time;
      from = v.from;
      number = v.number;
      to = v.to;
      a = v.a;
      b = v.b;
      c = v.c;
      d = v.d;
    } };
}

/// The greatest end of a simulation, in ticks. An event is before the end,
/// and a delay is below 2^32, so the receive time of each message is below 2^41.
pub const MOST_END: u64 = 1 << 40;

/// The limit of times in ticks: each message has a time below it.
const TIME_LIMIT: u64 = 1 << 41;

/// The reason why bytes or numbers are not a message.
#[derive(Clone, Copy, Debug, PartialEq, Eq, Error)]
pub enum KeyFault {
    /// There are fewer bytes than a message, or a signed message, has.
    #[error("Short")]
    Short,
    /// The time is 2^41 ticks or more.
    #[error("TimeTooLarge")]
    TimeTooLarge,
    /// The sign byte is above 1.
    #[error("BadSign")]
    BadSign,
}

impl Message {
    /// Makes a message of these numbers. `TimeTooLarge` comes for a time of 2^41 ticks or more.
    pub fn new(
        time: u64,
        from: u32,
        number: u64,
        to: u32,
        a: u64,
        b: u64,
        c: u64,
        d: u64,
    ) -> Result<Message, KeyFault>
        ensures { result ≡ made (record {
          time = time;
          from = from;
          number = number;
          to = to;
          a = a;
          b = b;
          c = c;
          d = d;
        }) }
    {
        if time < TIME_LIMIT {
            Ok(Message {
                time,
                from,
                number,
                to,
                a,
                b,
                c,
                d,
            })
        } else {
            Err(KeyFault::TimeTooLarge)
        }
    }

    /// Does nothing: its contract states that the numbers are in their ranges.
    pub fn ranged(&self)
        ensures { IsRanged self.now }
    {
        let _ = &self.time;
    }

    /// Returns whether this message comes before `other` in the order of messages.
    #[tactic(auto, unfolding(crate::specs::Message::message_cmp))]
    pub fn is_before(&self, other: &Message) -> bool
        ensures { result ≡ is_before self.now other.now }
    {
        *self < *other
    }

    /// Returns whether all eight numbers are equal.
    #[tactic(auto, unfolding(crate::specs::Message::message_cmp))]
    pub fn is_same(&self, other: &Message) -> bool
        ensures same { result ≡ is_same self.now other.now }
        ensures equal { IsTrue result ↔ (self.now ≡ other.now) }
    {
        *self == *other
    }

    /// Compares two messages in the order of messages.
    #[tactic(auto, unfolding(crate::specs::Message::message_cmp))]
    pub fn order(&self, other: &Message) -> Ordering
        ensures { result ≡ message_cmp self.now other.now }
    {
        self.cmp(other)
    }

    /// Returns the receive time in ticks, below 2^41.
    pub fn time(&self) -> u64
        ensures { result ≡ self.now.time }
    {
        self.time
    }

    /// Returns the number of the sender.
    pub fn from(&self) -> u32
        ensures { result ≡ self.now.from }
    {
        self.from
    }

    /// Returns how many messages the sender sent before it.
    pub fn number(&self) -> u64
        ensures { result ≡ self.now.number }
    {
        self.number
    }

    /// Returns the number of the receiver.
    pub fn to(&self) -> u32
        ensures { result ≡ self.now.to }
    {
        self.to
    }

    /// Returns the first word of its content.
    pub fn a(&self) -> u64
        ensures { result ≡ self.now.a }
    {
        self.a
    }

    /// Returns the second word of its content.
    pub fn b(&self) -> u64
        ensures { result ≡ self.now.b }
    {
        self.b
    }

    /// Returns the third word of its content.
    pub fn c(&self) -> u64
        ensures { result ≡ self.now.c }
    {
        self.c
    }

    /// Returns the fourth word of its content.
    pub fn d(&self) -> u64
        ensures { result ≡ self.now.d }
    {
        self.d
    }
}

/// The sign of a message (Jefferson 1985).
#[derive(Clone, Copy, Debug, PartialEq, Eq)]
pub enum Sign {
    /// It is a message.
    Plus,
    /// It is an antimessage, which annihilates its message.
    Minus,
}

/// A message or an antimessage.
#[derive(Clone, Copy, Debug, PartialEq, Eq)]
pub struct Signed {
    /// Its sign.
    pub sign: Sign,
    /// The message.
    pub message: Message,
}
