// The values of a word of messages in bins of equal width.

ghost use Rattle.std.specs.Prelude.{◌≡◌, ◌≤◌, ◌<◌, ◌+◌, ◌*◌, ◌++◌, ◌^◌, ℕ, IfOk, IfSome, List, OnOk};
ghost use Rattle.std.specs.Prelude.{length, min};
ghost use Rattle.pictures.specs.Histograms.{content_at, count_between, is_of_sort, values_of};
ghost use Rattle.pictures.specs.Histograms.{AreBins, HasTallied, IsTallyOfRun};
ghost use Rattle.pictures.specs.Tallies.{IsTally};

use crate::stepping::{EVENTS_AT_MOST, forget, step_some};
use crate::tallies::Tally;
use eventkey::Message;
use model::{Model, World, WorldFault};
use std::alloc::{AllocError, Global};

/// A word of the content of some messages.
#[derive(Clone, Copy, Debug, PartialEq, Eq)]
pub struct Word {
    /// The first word of content of these messages, which is the number of their sort; none for all
    /// messages.
    pub sort: Option<u64>,
    /// The place of the word, 0 to 3.
    pub place: u8,
}

/// How many values are in each of some bins: the first begins with the least value, and all have the
/// same width, a whole number.
#[derive(Drop)]
pub struct Bins {
    /// The least value.
    pub least: u64,
    /// The width of a bin.
    pub width: u64,
    /// The number of values in each bin, at most 50.
    pub counts: Vec<u64>,
}

/// Runs a model from its opening up to `to` ticks, or to its end if that is earlier, and returns the
/// values of a word in the messages that it handles. The simulation ends at `end` ticks, 1 to 2^40.
///
/// `NumberLimit` comes if the send number of a process would pass 2^63 before that, and `NoMemory`
/// if an allocation failed. It costs the simulation, and memory for the world and up to 512 KiB.
pub fn tally_of<M: Model>(
    alloc: Global,
    model: &M,
    end: u64,
    to: u64,
    word: Word,
) -> Result<Tally, WorldFault>
    requires some { 1 ≤ end }
    requires short { end ≤ 2 ^ 40 }
    ensures { IfOk result (IsTallyOfRun (M.meaning model.now) end to word) }
{
    let (mut world, mut tally) = tally_most(alloc, model, end, to, word)?;
    let from = world.log().len();
    world.run_to(model, to)?;
    add_values(alloc, world.log().split_at(from).1, word, &mut tally)?;
    Ok(tally)
}

/// Returns the world, at the opening's time, when no event before `to` is left, and the values so
/// far.
fn tally_most<M: Model>(
    alloc: Global,
    model: &M,
    end: u64,
    to: u64,
    word: Word,
) -> Result<(World, Tally), WorldFault>
    requires some { 1 ≤ end }
    requires short { end ≤ 2 ^ 40 }
    ensures tallied { IfOk result (λ r.
        HasTallied (M.meaning model.now) (min to end) word r.0.world r.1) }
    ensures end { IfOk result (λ r. r.0.end ≡ end) }
    ensures lps { IfOk result (λ r. length r.0.world.states ≡ (M.meaning model.now).lps) }
{
    let mut world = World::open(alloc, model, end)?;
    let mut tally = Tally::new(alloc);
    // more than the events of a log
    for _ in 0..u64::MAX {
        let from = world.log().len();
        let more = step_some(model, &mut world, to, EVENTS_AT_MOST)?;
        add_values(alloc, world.log().split_at(from).1, word, &mut tally)?;
        if !more {
            return Ok((world, tally));
        }
        world = forget(alloc, world, end)?;
    }
    Ok((world, tally))
}

/// Adds the values of a word in these messages.
fn add_values(
    alloc: Global,
    events: &[Message],
    word: Word,
    tally: &mut Tally,
) -> Result<(), AllocError>
    ensures { OnOk result ((values : List ℕ) → IsTally values tally.old →
        IsTally (values ++ values_of word events.now) tally.new) }
{
    for event in events {
        if is_of_sort(word.sort, event) {
            tally.add(alloc, content_at(word.place, event))?;
        }
    }
    Ok(())
}

/// Returns whether a message is of a sort, or of any if none is asked for.
fn is_of_sort(sort: Option<u64>, message: &Message) -> bool
    ensures { result ≡ is_of_sort sort message.now }
{
    match sort {
        None => true,
        Some(sort) => message.a() == sort,
    }
}

/// Returns the word at a place of the content of a message.
fn content_at(place: u8, message: &Message) -> u64
    ensures { result ≡ content_at place message.now }
{
    match place {
        0 => message.a(),
        1 => message.b(),
        2 => message.c(),
        _ => message.d(),
    }
}

/// The most bins.
const MOST_BINS: u64 = 50;

/// Returns in which bins the values of a tally are, if it has any. Of up to 2^16 values that is
/// exact, and of more each counts as the greatest one of its bucket, or as the greatest of all if
/// that is less.
pub fn bins_of(alloc: Global, tally: &Tally) -> Result<Option<Bins>, AllocError>
    ensures { IfOk result (λ o. IfSome o (λ bins. (values : List ℕ) → IsTally values tally.now →
        length values ≤ 65536 → AreBins values bins)) }
{
    let Some((least, most)) = tally.range() else {
        return Ok(None);
    };
    let span = most.saturating_sub(least);
    let width = span / MOST_BINS + 1;
    let bins = span / width + 1;
    let mut counts = Vec::new(alloc);
    for bin in 0..bins {
        let from = u128::from(least) + u128::from(bin) * u128::from(width);
        counts.push(tally.count_between(from, from + u128::from(width)))?;
    }
    Ok(Some(Bins {
        least,
        width,
        counts,
    }))
}
