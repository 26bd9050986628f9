// Processes that send each message on, to a receiver that depends on their state.

ghost use Rattle.models.specs.Relay.{relay_lawful, relay_meaning};

use eventkey::Message;
use model::{Model as Simulated, Origin, Outgoing, Sends, Words};
use smallvec::SmallVec;
use std::alloc::Global;

/// A model of this project for tests: six processes that send each message on twice.
///
/// One send is received 1 to 3 ticks later, by a process that depends on the state, and the other
/// one 23 ticks later, by the next process. Each process starts with one message to itself. The one
/// word of a state depends on the order of the messages, and the sends depend on the state, so a
/// wrong rollback shows in the sends.
#[derive(Clone, Copy, Debug, Drop, PartialEq, Eq)]
pub struct Relay;

/// The number of processes.
const RELAYS: u32 = 6;

impl Simulated for Relay {
    ghost meaning = { λ _. relay_meaning };

    ghost lawful = { λ _. relay_lawful };

    fn lps(&self) -> u32 {
        RELAYS
    }

    fn identity(&self, alloc: Global) -> SmallVec<u64, 8> {
        SmallVec::new(alloc)
    }

    fn origin(&self) -> Option<&Origin> {
        None
    }

    fn start(&self, alloc: Global, lp: u32) -> (Words, Sends) {
        let mut words = SmallVec::new(alloc);
        words.push_reserved(0);
        let mut sends = SmallVec::new(alloc);
        sends.push_reserved(Outgoing {
            to: lp,
            delay: 1 + lp,
            a: u64::from(lp),
            b: 0,
            c: 0,
            d: 0,
        });
        (words, sends)
    }

    fn handle(&self, alloc: Global, lp: u32, state: &Words, message: &Message) -> (Words, Sends) {
        let seen = state.as_slice().first().copied().unwrap_or(0);
        let mut words = SmallVec::new(alloc);
        words.push_reserved(seen.wrapping_mul(3).wrapping_add(message.time()));
        let mut sends = SmallVec::new(alloc);
        sends.push_reserved(Outgoing {
            to: (lp + (seen % 6) as u32) % RELAYS,
            delay: 1 + (seen % 3) as u32,
            a: message.a(),
            b: message.b().wrapping_add(seen),
            c: message.c(),
            d: message.d(),
        });
        sends.push_reserved(Outgoing {
            to: (lp + 1) % RELAYS,
            delay: 23,
            a: message.b(),
            b: message.a(),
            c: message.c(),
            d: message.d(),
        });
        (words, sends)
    }
}
