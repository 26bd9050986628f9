//! Models of a simulation, and the plain runner.
#![tactic(auto)]

ghost use Rattle.std.specs.Prelude.{◌≡◌, ◌<◌, ◌≤◌, ◌+◌, ◌^◌, [], length, slice_index, ℕ, All};
ghost use Rattle.std.specs.Prelude.{IfSome, None, Some};
ghost use Rattle.eventkey.specs.Message.{Message};
ghost use Rattle.model.specs.Meaning.{Meaning, IsLawful, IsWords, stamped};

mod continued;
mod laws;
mod origin;
mod pending;
mod runner;
mod sent;
mod state;
mod state_bytes;
mod ticks;

pub use continued::Continued;
use eventkey::Message;
pub use laws::{law_of_continuations, law_of_runs, law_of_sequential_simulation, law_of_worlds};
pub use origin::Origin;
pub use runner::{World, WorldParts, make_empty};
pub use sent::Sent;
use smallvec::SmallVec;
pub use state::State;
pub use state_bytes::{append_words, read_words};
use std::alloc::Global;
use thiserror::Error;

/// The state words of a process: at most 16, of 64 bits.
pub type Words = SmallVec<u64, 16>;

/// A message to send.
#[derive(Clone, Copy, Debug, Default, PartialEq, Eq)]
pub struct Outgoing {
    /// The number of the logical process that receives it.
    pub to: u32,
    /// How many ticks after the handling it is received, at least 1.
    pub delay: u32,
    /// The first word of its content.
    pub a: u64,
    /// The second word of its content.
    pub b: u64,
    /// The third word of its content.
    pub c: u64,
    /// The fourth word of its content.
    pub d: u64,
}

/// The sends of one handling, or of one start: at most 8, in the order of sending.
pub type Sends = SmallVec<Outgoing, 8>;

/// The reason why a world can't go on.
#[derive(Clone, Copy, Debug, PartialEq, Eq, Error)]
pub enum WorldFault {
    /// An allocation failed.
    #[error("NoMemory")]
    NoMemory,
    /// The send number of a process would pass 2^63.
    #[error("NumberLimit")]
    NumberLimit,
}

/// A model of a simulation: logical processes that act only by handling messages (Jefferson 1985).
///
/// Each function returns a value of its arguments alone, and does not allocate. The laws of
/// `IsLawful` bound these values.
pub trait Model {
    ghost meaning: { Self → Meaning };

    /// Returns the number of logical processes, 1 to 65,536.
    fn lps(&self) -> u32
        ensures { result ≡ (meaning self.now).lps };

    /// Returns the words that distinguish this model from others, at most 8.
    fn identity(&self, alloc: Global) -> SmallVec<u64, 8>
        ensures { result.items ≡ (meaning self.now).identity };

    /// Returns the origin with which a simulation of this model begins, or `None` if it begins with
    /// what its processes do at their start. Each model but a continued one answers `None`.
    fn origin(&self) -> Option<&Origin>
        ensures none { result ≡ None → (meaning self.now).origin ≡ None }
        ensures some { IfSome result (λ origin. (meaning self.now).origin ≡ Some origin.now) };

    /// Returns the state in which process `lp` starts, and what it sends then.
    fn start(&self, alloc: Global, lp: u32) -> (Words, Sends)
        requires { lp < (meaning self.now).lps }
        ensures state { result.0.items ≡ (meaning self.now).start_state lp }
        ensures sends { result.1.items ≡ (meaning self.now).start_sends lp };

    /// Returns the state of process `lp` after a message, and what it sends then. It is defined for
    /// every process, every list of at most 16 words and every message, also for those that never
    /// occur in the sequential simulation.
    fn handle(&self, alloc: Global, lp: u32, state: &Words, message: &Message) -> (Words, Sends)
        requires in_range { lp < (meaning self.now).lps }
        requires few { length state.now.items ≤ 16 }
        ensures state { result.0.items
            ≡ (meaning self.now).next_state lp state.now.items message.now }
        ensures sends { result.1.items ≡ (meaning self.now).sends lp state.now.items message.now };

    /// Does what `handle` does, but writes into `next` and `sends`, which are empty. A runner that
    /// keeps these two neither clears nor moves a whole answer for each message. A model that must
    /// be fast implements this function, and calls it from `handle`.
    fn handle_into(
        &self,
        alloc: Global,
        lp: u32,
        state: &Words,
        message: &Message,
        next: &mut Words,
        sends: &mut Sends,
    )
        requires in_range { lp < (meaning self.now).lps }
        requires few { length state.now.items ≤ 16 }
        requires next { (next.old.items ≡ []) × (16 ≤ next.old.capacity) }
        requires sends { (sends.old.items ≡ []) × (8 ≤ sends.old.capacity) }
        ensures state { next.new.items
            ≡ (meaning self.now).next_state lp state.now.items message.now }
        ensures sends { sends.new.items
            ≡ (meaning self.now).sends lp state.now.items message.now }
    {
        let (words, sent) = self.handle(alloc, lp, state, message);
        *next = words;
        *sends = sent;
    }

    ghost lawful: { (m : Self) → IsLawful (meaning m) };
}

/// Returns the message that a handling by process `lp` makes of a send, without an allocation. The
/// handling's time is in ticks, below 2^40; the send number is below 2^63.
pub fn stamp(lp: u32, time: u64, number: u64, outgoing: &Outgoing) -> Message
    requires time { time < 2 ^ 40 }
    requires number { number < 2 ^ 63 }
    ensures { result ≡ stamped lp time number outgoing.now }
{
    let Outgoing {
        to,
        delay,
        a,
        b,
        c,
        d,
    } = *outgoing;
    Message::new(time + u64::from(delay), lp, number, to, a, b, c, d).unwrap()
}

/// Does nothing: its contract states that the words are 64-bit numbers.
pub fn ranged(words: &[u64])
    ensures { All (λ w. w < 2 ^ 64) words.now }
{}
