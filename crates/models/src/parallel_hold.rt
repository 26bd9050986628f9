// PHOLD: messages that go from process to process, with drawn receivers and delays.

ghost use Rattle.std.specs.Prelude.{◌≡◌, ◌≤◌, ◌<◌, ◌*◌, ◌^◌, map};
ghost use Rattle.model.specs.World.{below};
ghost use Rattle.models.specs.HoldLaws.{hold_lawful};
ghost use Rattle.models.specs.Phold.{Hold, IsHold, delay_by, first_hold, hold_meaning};

use crate::words::{next_key, word};
use eventkey::Message;
use model::{Model as Simulated, Origin, Outgoing, Sends, Words};
use smallvec::SmallVec;
use std::alloc::Global;
use std::marker::Model;

/// PHOLD (Fujimoto 1990): a process sends each message on.
///
/// The receiver and the delay are drawn. Each handling sends one message, so the number of pending
/// messages never changes. Each process starts with `population` messages to itself, with drawn
/// delays. The state is the key of the next words and how many messages the process has handled; a
/// message's content is its number and how often it was handled.
#[derive(Clone, Copy, Debug, PartialEq, Eq)]
pub struct Phold {
    lps: u32,
    population: u32,
    spread: u32,
    seed: u64,
    ghost good: { IsHold (record {
      lps = lps;
      population = population;
      spread = spread;
      seed = seed;
    }) },
}

impl Model for Phold {
    ghost use Rattle.models.specs.Phold.{GoodHold};

    ghost Value = { GoodHold };

    ghost view = { λ h. record {
      hold = record { lps = h.lps; population = h.population; spread = h.spread; seed = h.seed };
      good = h.good;
    } };

    ghost inverse = { λ v. record {
      lps = v.hold.lps;
      population = v.hold.population;
      spread = v.hold.spread;
      seed = v.hold.seed;
      good = v.good;
    } };
}

impl Phold {
    /// Makes PHOLD of `lps` processes, 1 to 1,024, each with `population` messages, 1 to 8, and
    /// with delays of 1 to `spread` ticks, `spread` at least 1. The key of the first words is
    /// `seed`, below 2^63.
    pub fn new(lps: u32, population: u32, spread: u32, seed: u64) -> Phold
        requires some { 1 ≤ lps }
        requires few { lps ≤ 1024 }
        requires some_messages { 1 ≤ population }
        requires few_messages { population ≤ 8 }
        requires far { 1 ≤ spread }
        requires seed { seed < 2 ^ 63 }
        ensures { result.hold ≡ record {
          lps = lps;
          population = population;
          spread = spread;
          seed = seed;
        } }
    {
        Phold {
            lps,
            population,
            spread,
            seed,
        }
    }

    /// Returns how many messages each process starts with.
    pub fn population(&self) -> u32
        ensures { result ≡ self.now.hold.population }
    {
        self.population
    }

    /// Returns the greatest delay, in ticks.
    pub fn spread(&self) -> u32
        ensures { result ≡ self.now.hold.spread }
    {
        self.spread
    }

    /// Returns the seed of the drawn words.
    pub fn seed(&self) -> u64
        ensures { result ≡ self.now.hold.seed }
    {
        self.seed
    }

    /// Returns the sends by which a process starts.
    fn first_sends(&self, alloc: Global, lp: u32) -> Sends
        requires { lp < self.now.hold.lps }
        ensures { result.items
            ≡ map (first_hold self.now.hold lp) (below self.now.hold.population) }
    {
        let mut sends = SmallVec::new(alloc);
        'sends: for k in 0..self.population {
            let place = u64::from(k);
            sends.push_reserved(Outgoing {
                to: lp,
                delay: delay_by(self.spread, word(self.seed, lp, place)),
                a: u64::from(lp) * u64::from(self.population) + place,
                b: 0,
                c: 0,
                d: 0,
            });
        }
        sends
    }
}

/// Returns a delay of 1 to `spread` ticks, by a drawn word.
fn delay_by(spread: u32, word: u32) -> u32
    requires { 1 ≤ spread }
    ensures { result ≡ delay_by spread word }
{
    1 + word % spread
}

impl Simulated for Phold {
    ghost meaning = { λ h. hold_meaning h.hold };

    ghost lawful = { hold_lawful };

    fn lps(&self) -> u32 {
        self.lps
    }

    fn identity(&self, alloc: Global) -> SmallVec<u64, 8> {
        let mut words = SmallVec::new(alloc);
        words.push_reserved(2);
        words.push_reserved(u64::from(self.population));
        words.push_reserved(u64::from(self.spread));
        words.push_reserved(self.seed);
        words
    }

    fn origin(&self) -> Option<&Origin> {
        None
    }

    fn start(&self, alloc: Global, lp: u32) -> (Words, Sends) {
        let mut words = SmallVec::new(alloc);
        words.push_reserved(next_key(self.seed, lp, u64::from(self.population)));
        words.push_reserved(0);
        (words, self.first_sends(alloc, lp))
    }

    fn handle(&self, alloc: Global, lp: u32, state: &Words, message: &Message) -> (Words, Sends) {
        let mut next = SmallVec::new(alloc);
        let mut sends = SmallVec::new(alloc);
        self.handle_into(alloc, lp, state, message, &mut next, &mut sends);
        (next, sends)
    }

    fn handle_into(
        &self,
        _alloc: Global,
        lp: u32,
        state: &Words,
        message: &Message,
        next: &mut Words,
        sends: &mut Sends,
    ) {
        let state = state.as_slice();
        let key = state.first().copied().unwrap_or(0);
        let count = state.get(1).copied().unwrap_or(0);
        sends.push_reserved(Outgoing {
            to: word(key, lp, 0) % self.lps,
            delay: delay_by(self.spread, word(key, lp, 1)),
            a: message.a(),
            b: message.b().wrapping_add(1),
            c: message.c(),
            d: message.d(),
        });
        next.push_reserved(next_key(key, lp, 2));
        next.push_reserved(count.saturating_add(1));
    }
}
