// A model that is described by rules.

ghost use Rattle.std.specs.Prelude.{◌≡◌, ◌≤◌, ◌<◌, ◌^◌, [], List, IfErr, IfOk, length};
ghost use Rattle.model.specs.declared.Outgoing.{Outgoing};
ghost use Rattle.rules.specs.Limits.{IsFault, IsWithin};
ghost use Rattle.rules.specs.RuleLaws.{rules_lawful};
ghost use Rattle.rules.specs.Rules.{IsDescription, description_of, ended, opening};
ghost use Rattle.rules.specs.Rules.{padded as padded_words, rules_meaning};

use crate::evaluate::{Context, put, run_all};
use crate::limits::{MAX_LPS, RulesFault, exceeded};
use crate::parts::RulesParts;
use crate::tables::Table;
use crate::tree::Statement;
use eventkey::Message;
use model::{Model as Simulated, Origin, Sends, Words, ranged};
use models::next_key;
use smallvec::SmallVec;
use std::alloc::Global;
use std::marker::Model;

/// A model that is described by rules: a rule for the start of a process, and a rule for a message.
/// Every such model obeys the laws of a model.
///
/// All words of a state are 0 before the rule for the start, except the key of drawn words, which is
/// the seed. Drawn words depend on the key, the process and the number of words that the rule has
/// drawn; after each rule, the next two drawn words are the new key.
#[derive(Debug, Drop)]
pub struct Rules {
    parts: RulesParts,
    ghost good: { IsDescription (description_of parts) },
}

impl Model for Rules {
    ghost use Rattle.rules.specs.Rules.{GoodRules, description_of};
    ghost use Rattle.rules.specs.contracts.tree.Statement as statement;
    ghost use Rattle.std.specs.Coded.{codes};

    ghost Value = { GoodRules };

    ghost coded = { Prim.hlevel (codes, statement.the_row.coded) };

    ghost view = { λ r. record { description = description_of r.parts; good = r.good } };
}

impl Rules {
    /// Makes a model of these parts, without an allocation. A fault says which limit one of the
    /// rules exceeds.
    pub fn new(parts: RulesParts) -> Result<Rules, RulesFault>
        requires some { 1 ≤ parts.lps }
        requires few { parts.lps ≤ MAX_LPS }
        requires width { parts.width ≤ 16 }
        requires seed { parts.seed < 2 ^ 63 }
        ensures ok { IfOk result (λ r. r.description ≡ description_of parts) }
        ensures within { IfOk result (λ _. IsWithin parts.start.items
            × IsWithin parts.handle.items) }
        ensures err { IfErr result (λ fault. IsFault fault parts.start.items parts.handle.items) }
    {
        if let Some(limit) = exceeded(parts.start.as_slice()) {
            return Err(RulesFault::Start(limit));
        }
        if let Some(limit) = exceeded(parts.handle.as_slice()) {
            return Err(RulesFault::Handle(limit));
        }
        ranged(&parts.digest);
        Ok(Rules { parts })
    }

    /// Returns the number of words of a state.
    pub fn width(&self) -> u8
        ensures { result ≡ self.now.description.width }
    {
        self.parts.width
    }

    /// Returns the tables that the rules read.
    pub fn tables(&self) -> &[Table]
        ensures { result.now ≡ self.now.description.tables }
    {
        self.parts.tables.as_slice()
    }

    /// Returns what a process does when it starts.
    pub fn start_rule(&self) -> &[Statement]
        ensures { result.now ≡ self.now.description.start }
    {
        self.parts.start.as_slice()
    }

    /// Returns what a process does with a message.
    pub fn handle_rule(&self) -> &[Statement]
        ensures { result.now ≡ self.now.description.handle }
    {
        self.parts.handle.as_slice()
    }

    /// Returns what a rule can read before its first statement.
    fn opening(
        &self,
        lp: u32,
        sender: u32,
        time: u64,
        content: [u64; 4],
        words: [u64; 16],
    ) -> Context
        ensures { result ≡ (opening self.now.description lp sender time content words).context }
    {
        let key = match self.parts.key {
            Some(place) => words.get(usize::from(place)).copied().unwrap_or(0),
            None => 0,
        };
        Context {
            processes: self.parts.lps,
            process: lp,
            sender,
            time,
            content,
            key,
            words,
            locals: [0; 16],
        }
    }

    /// Writes the state after a rule into an empty list of words, with a new key. `drawn` is the
    /// number of words that the rule has drawn.
    fn write(&self, context: &mut Context, drawn: u64, next: &mut Words)
        requires drawn { drawn ≤ 14 }
        requires room { (next.old.items ≡ []) × (16 ≤ next.old.capacity) }
        ensures { (sends : List Outgoing) → next.new.items ≡ ended self.now.description
            (record { context = context.old; drawn = drawn; sends = sends }) }
    {
        if let Some(place) = self.parts.key {
            put(
                &mut context.words,
                place,
                next_key(context.key, context.process, drawn),
            );
        }
        next.extend_from_slice(&context.words[..usize::from(self.parts.width)])
            .unwrap();
    }
}

/// Returns the words of a state, where a missing word counts as 0.
fn padded(state: &[u64]) -> [u64; 16]
    requires { length state.now ≤ 16 }
    ensures { result ≡ padded_words state.now }
{
    let mut words = [0; 16];
    words[..state.len()].copy_from_slice(state);
    words
}

impl Simulated for Rules {
    ghost meaning = { λ r. rules_meaning r.description };

    ghost lawful = { rules_lawful };

    fn lps(&self) -> u32 {
        self.parts.lps
    }

    fn identity(&self, alloc: Global) -> SmallVec<u64, 8> {
        let mut words = SmallVec::new(alloc);
        words.push_reserved(102);
        words.extend_from_slice(&self.parts.digest).unwrap();
        words
    }

    fn origin(&self) -> Option<&Origin> {
        None
    }

    fn start(&self, alloc: Global, lp: u32) -> (Words, Sends) {
        let mut words = [0; 16];
        if let Some(place) = self.parts.key {
            put(&mut words, place, self.parts.seed);
        }
        let mut context = self.opening(lp, lp, 0, [0, 0, 0, 0], words);
        let mut drawn = 0;
        let mut sends = SmallVec::new(alloc);
        run_all(
            self.parts.tables.as_slice(),
            &mut context,
            &mut drawn,
            &mut sends,
            self.parts.start.as_slice(),
        );
        let mut next = SmallVec::new(alloc);
        self.write(&mut context, drawn, &mut next);
        (next, sends)
    }

    fn handle(&self, alloc: Global, lp: u32, state: &Words, message: &Message) -> (Words, Sends) {
        let mut next = SmallVec::new(alloc);
        let mut sends = SmallVec::new(alloc);
        self.handle_into(alloc, lp, state, message, &mut next, &mut sends);
        (next, sends)
    }

    fn handle_into(
        &self,
        _alloc: Global,
        lp: u32,
        state: &Words,
        message: &Message,
        next: &mut Words,
        sends: &mut Sends,
    ) {
        let content = [message.a(), message.b(), message.c(), message.d()];
        let words = padded(state.as_slice());
        let mut context = self.opening(lp, message.from(), message.time(), content, words);
        let mut drawn = 0;
        run_all(
            self.parts.tables.as_slice(),
            &mut context,
            &mut drawn,
            sends,
            self.parts.handle.as_slice(),
        );
        self.write(&mut context, drawn, next);
    }
}
