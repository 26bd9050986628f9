// What is known of the processes of a node, and the judgement of their reports.

ghost use Rattle.std.specs.List.{slice_get};
ghost use Rattle.std.specs.Prelude.{◌≡◌, ◌<◌, ◌≤◌, ◌+◌, ◌/◌, ◌^◌, ◌↔◌, IsTrue, IfErr, IfOk, OnErr};
ghost use Rattle.std.specs.Prelude.{List, OnOk, Some, length, map, set};
ghost use Rattle.std.specs.List.{AllByRecursion as Every};
ghost use Rattle.model.specs.Meaning.{stamp};
ghost use Rattle.node.specs.Handling.{IsInRange};
ghost use Rattle.frames.specs.Judging.{AreAccepted, IsAccepted, IsFirstRefused, IsOfModel};
ghost use Rattle.frames.specs.Judging.{IsOneAccepted};
ghost use Rattle.frames.specs.Judging.{Known as KnownProcess, loaded_known, moved};

use crate::judging::differences::ReportDifference;
use crate::judging::sends::are_sent;
use model::{Model as Simulated, Outgoing, Sends, Words};
use node::Part;
use process::{Process, Report, Reports};
use std::alloc::{AllocError, Global};
use std::marker::Model;

/// What is known of a process: its state words and its send number after its last report, or those
/// of the load before its first, and the number of its reports since one was judged.
pub(crate) struct Known {
    alloc: Global,
    lp: u32,
    words: Words,
    number: u64,
    passed: u32,
}

// Handwritten: with a derived drop, each caller that drops one proves again how its parts are
// dropped.
impl Drop for Known {
    fn drop(self) {
        let Known {
            alloc: _,
            lp: _,
            words: _,
            number: _,
            passed: _,
        } = self;
    }
}

impl Model for Known {
    ghost use Rattle.std.specs.Prelude.{◌≤◌, ◌^◌, length};
    ghost use Rattle.frames.specs.Judging.{Known};

    ghost Value = { Known };

    ghost view = { λ k. record {
      lp = k.lp;
      words = k.words.items;
      number = k.number;
      passed = k.passed;
    } };

    ghost invariant = { λ k. (length k.words.items ≤ 16) × (k.number ≤ 2 ^ 63) };
}

impl Known {
    /// Returns what is known of a process that has just been loaded. Its first report is judged.
    fn of_part(alloc: Global, every: u32, part: &Part) -> Known
        requires { IsInRange part.now }
        ensures { result ≡ loaded_known every part.now }
    {
        Known {
            alloc,
            lp: part.lp,
            words: Words::from_slice(alloc, part.words.as_slice()).unwrap(),
            number: part.number,
            passed: every,
        }
    }

    /// Judges a report of this process if one is due, one in `every`, at least 1, and then knows
    /// what it reports. Returns whether the report is accepted. If it is not, nothing changes.
    ///
    /// It costs one handling if the report is judged, otherwise a copy of the state words.
    fn judge<M: Simulated>(&mut self, model: &M, every: u32, report: &Report<'_>) -> bool
        ensures accepted { IsTrue result ↔ IsAccepted (M.meaning model.now) every self.old report.now }
        ensures moved { IsTrue result → self.new ≡ moved every report.now self.old }
    {
        let after = report.after(self.alloc);
        let number = report.number_after();
        if report.message().to() != self.lp
            || after.as_slice().len() > 16
            || number > Process::NUMBER_LIMIT
        {
            return false;
        }
        let due = u64::from(self.passed) + 1 >= u64::from(every);
        if due && !self.is_of_model(model, report) {
            return false;
        }
        self.passed = if due { 0 } else { self.passed + 1 };
        self.number = number;
        copy_words(self.alloc, &mut self.words, after.as_slice());
        true
    }

    /// Returns whether a report is what the model does with its message, from what is known of the
    /// process.
    fn is_of_model<M: Simulated>(&self, model: &M, report: &Report<'_>) -> bool
        ensures { IsTrue result ↔ IsOfModel (M.meaning model.now) self.now report.now }
    {
        let lp = self.lp;
        let message = report.message();
        if lp >= model.lps() || report.number_after() > Process::NUMBER_LIMIT {
            return false;
        }
        let mut next = Words::new(self.alloc);
        let mut sends = Sends::new(self.alloc);
        model.handle_into(self.alloc, lp, &self.words, &message, &mut next, &mut sends);
        let (next, sends) = (next.as_slice(), sends.as_slice());
        is_reported(self.alloc, lp, self.number, next, sends, report)
    }
}

/// Returns whether a report of process `lp` says what a handling does that leaves these state words
/// and makes these sends, numbered from `number` on.
#[tactic(auto, using(crate::proofs::Handlings::same_words, crate::proofs::Handlings::other_words))]
fn is_reported(
    alloc: Global,
    lp: u32,
    number: u64,
    next: &[u64],
    sends: &[Outgoing],
    report: &Report<'_>,
) -> bool
    requires { report.now.number_after ≤ 2 ^ 63 }
    ensures { IsTrue result ↔ ((report.now.number_after ≡ number + length sends.now)
        × (next.now ≡ report.now.after)
        × (report.now.sent ≡ stamp lp report.now.message.time number sends.now)) }
{
    let message = report.message();
    message.ranged();
    let number_after = report.number_after();
    if number_after < number {
        return false;
    }
    if sends.len() as u64 != number_after - number {
        return false;
    }
    if next != report.after(alloc).as_slice() {
        return false;
    }
    let sent = report.sent(alloc);
    are_sent(lp, message.time(), number, sends, sent.as_slice())
}

/// Replaces the words. Those of equal number are copied, as almost always.
#[inline]
fn copy_words(alloc: Global, words: &mut Words, after: &[u64])
    requires { length after.now ≤ 16 }
    ensures { words.new.items ≡ after.now }
{
    let to = words.as_mut_slice();
    if to.len() == after.len() {
        to.copy_from_slice(after);
        return;
    }
    *words = Words::from_slice(alloc, after).unwrap();
}

/// Returns what is known of these processes, which have just been loaded.
pub(crate) fn known_of(alloc: Global, every: u32, parts: &[Part]) -> Result<Vec<Known>, AllocError>
    requires { Every IsInRange parts.now }
    ensures { IfOk result (λ known. known.items ≡ map (loaded_known every) parts.now) }
{
    let mut known = Vec::with_capacity(alloc, parts.len())?;
    'parts: for part in parts {
        known.push(Known::of_part(alloc, every, part))?;
    }
    Ok(known)
}

/// Judges the reports of a reply, one in `every` of each process, at least 1, in their order.
/// Process lp is at place lp / `nodes`. The error is the event of the first report that is not
/// accepted.
pub(crate) fn judge_all<M: Simulated>(
    model: &M,
    every: u32,
    nodes: u32,
    known: &mut Vec<Known>,
    reports: &Reports,
) -> Result<(), ReportDifference>
    requires nodes { 0 < nodes }
    ensures accepted { OnOk result (AreAccepted (M.meaning model.now) every nodes
        known.old.items reports.now known.new.items) }
    ensures refused { OnErr result ((ks : List KnownProcess) →
        AreAccepted (M.meaning model.now) every nodes known.old.items reports.now ks → ⊥) }
    ensures first { IfErr result (λ event. IsFirstRefused (M.meaning model.now) every nodes
        known.old.items reports.now event) }
{
    let mut left = reports.iter();
    'reports: while let Some(report) = left.next() {
        if !judge_one(model, every, nodes, known, &report) {
            return Err(ReportDifference::of_report(&report));
        }
    }
    Ok(())
}

/// Judges one report.
fn judge_one<M: Simulated>(
    model: &M,
    every: u32,
    nodes: u32,
    known: &mut Vec<Known>,
    report: &Report<'_>,
) -> bool
    requires nodes { 0 < nodes }
    ensures accepted { IsTrue result ↔ IsOneAccepted (M.meaning model.now) every nodes
        known.old.items report.now }
    ensures moved { IsTrue result → (k : KnownProcess) → slice_get known.old.items
        (report.now.message.to / nodes) ≡ Some k → known.new.items ≡ set known.old.items
        (report.now.message.to / nodes) (moved every report.now k) }
{
    let place = (report.message().to() / nodes) as usize;
    if place >= known.len() {
        return false;
    }
    let process = &mut known[place];
    process.judge(model, every, report)
}
