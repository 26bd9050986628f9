// A ring of processes that hand tokens round.

ghost use Rattle.std.specs.Prelude.{◌≡◌, ◌≤◌, ◌<◌, ◌*◌, ◌^◌, map};
ghost use Rattle.models.specs.Ring.{ring_meaning, first_send, tokens_at, IsRing, GoodRing};
ghost use Rattle.models.specs.RingLaws.{ring_lawful};

use eventkey::Message;
use model::{Model as Simulated, Origin, Outgoing, Sends, Words};
use smallvec::SmallVec;
use std::alloc::Global;
use std::marker::Model;

/// A ring of processes that hand tokens round (a model of this project).
///
/// Token `j` starts at process `j mod lps`, at time 1. A process counts each token that it gets,
/// holds it for `hold` ticks and hands it to the next process, the last one to the first. The state
/// is the count; a message's content is the token's number and how often it was handed on.
#[derive(Clone, Copy, Debug, PartialEq, Eq)]
pub struct TokenRing {
    lps: u32,
    hold: u32,
    tokens: u32,
    ghost good: { IsRing (record { lps = lps; hold = hold; tokens = tokens }) },
}

impl Model for TokenRing {
    ghost use Rattle.models.specs.Ring.{GoodRing};

    ghost Value = { GoodRing };

    ghost view = { λ r. record {
      ring = record { lps = r.lps; hold = r.hold; tokens = r.tokens };
      good = r.good;
    } };

    ghost inverse = { λ v. record {
      lps = v.ring.lps;
      hold = v.ring.hold;
      tokens = v.ring.tokens;
      good = v.good;
    } };
}

impl TokenRing {
    /// Makes a ring of `lps` processes, 1 to 1,024, that hold a token for `hold` ticks, at least 1,
    /// with `tokens` tokens, 1 to `8 * lps`.
    pub fn new(lps: u32, hold: u32, tokens: u32) -> TokenRing
        requires some { 1 ≤ lps }
        requires few { lps ≤ 1024 }
        requires held { 1 ≤ hold }
        requires some_tokens { 1 ≤ tokens }
        requires few_tokens { tokens ≤ 8 * lps }
        ensures { result.ring ≡ record { lps = lps; hold = hold; tokens = tokens } }
    {
        TokenRing { lps, hold, tokens }
    }

    /// Returns for how many ticks a process holds a token.
    pub fn hold(&self) -> u32
        ensures { result ≡ self.now.ring.hold }
    {
        self.hold
    }

    /// Returns the number of tokens.
    pub fn tokens(&self) -> u32
        ensures { result ≡ self.now.ring.tokens }
    {
        self.tokens
    }
}

impl Simulated for TokenRing {
    ghost meaning = { λ r. ring_meaning r.ring };

    ghost lawful = { ring_lawful };

    fn lps(&self) -> u32 {
        self.lps
    }

    fn identity(&self, alloc: Global) -> SmallVec<u64, 8> {
        let mut words = SmallVec::new(alloc);
        words.push_reserved(1);
        words.push_reserved(u64::from(self.hold));
        words.push_reserved(u64::from(self.tokens));
        words
    }

    fn origin(&self) -> Option<&Origin> {
        None
    }

    fn start(&self, alloc: Global, lp: u32) -> (Words, Sends) {
        let mut words = SmallVec::new(alloc);
        words.push_reserved(0);
        (words, first_sends(alloc, self.lps, self.tokens, lp))
    }

    fn handle(&self, alloc: Global, lp: u32, state: &Words, message: &Message) -> (Words, Sends) {
        let mut next = SmallVec::new(alloc);
        let mut sends = SmallVec::new(alloc);
        self.handle_into(alloc, lp, state, message, &mut next, &mut sends);
        (next, sends)
    }

    fn handle_into(
        &self,
        _alloc: Global,
        lp: u32,
        state: &Words,
        message: &Message,
        next: &mut Words,
        sends: &mut Sends,
    ) {
        let count = state.as_slice().first().copied().unwrap_or(0);
        next.push_reserved(count.saturating_add(1));
        sends.push_reserved(Outgoing {
            to: (lp + 1) % self.lps,
            delay: self.hold,
            a: message.a(),
            b: message.b().wrapping_add(1),
            c: message.c(),
            d: message.d(),
        });
    }
}

/// Returns the sends by which a process starts: one for each of its tokens.
fn first_sends(alloc: Global, lps: u32, tokens: u32, lp: u32) -> Sends
    requires in_range { lp < lps }
    requires few_lps { lps ≤ 1024 }
    requires few_tokens { tokens ≤ 8 * lps }
    ensures { result.items ≡ map (first_send lp) (tokens_at lps tokens lp) }
{
    let mut sends = SmallVec::new(alloc);
    let mut token = lp;
    while token < tokens {
        sends.push_reserved(Outgoing {
            to: lp,
            delay: 1,
            a: u64::from(token),
            b: 0,
            c: 0,
            d: 0,
        });
        token += lps;
    }
    sends
}
