// Per-process summaries, with their times in lists of their own for searches.

ghost use Rattle.std.specs.Prelude.{◌≡◌, ◌<◌, ◌≤◌, ◌^◌, length, set, get_or, replicate, IfOk};
ghost use Rattle.std.specs.Prelude.{IfSome, true};
ghost use Rattle.node.specs.Blocks.{IsQuietFrom, with_oldest};
ghost use Rattle.node.specs.Seats.{is_due};
ghost use Rattle.node.specs.Tournament.{IsLowInRange, absent, least_among};

use crate::summary::Summary;
use crate::times::{Times, ticks_of, time_of};
use std::alloc::{AllocError, Global};

/// A summary for each process, by place. The two times of each stand in lists too, so that a search
/// by time reads 8 bytes for each place and no summary.
#[derive(Drop)]
pub(crate) struct Blocks {
    summaries: Vec<Summary>,
    lows: Times,
    oldest: Times,
}

impl std::marker::Model for Blocks {
    ghost use Rattle.std.specs.Prelude.{List};
    ghost use Rattle.node.specs.declared.summary.Summary.{Summary};

    ghost Value = { List Summary };

    ghost use Rattle.node.specs.Blocks.{AreBlocks};

    ghost view = { λ b. b.summaries.items };

    ghost invariant = { λ b. AreBlocks b.summaries.items b.lows b.oldest };
}

impl Blocks {
    /// Returns this number of places, with empty summaries.
    pub(crate) fn new(alloc: Global, places: usize) -> Result<Blocks, AllocError>
        ensures { IfOk result (λ b. b ≡ replicate places absent) }
    {
        let mut summaries = Vec::new(alloc);
        summaries.resize(places, Summary::ABSENT)?;
        let lows = Times::new(alloc, places)?;
        let oldest = Times::new(alloc, places)?;
        Ok(Blocks {
            summaries,
            lows,
            oldest,
        })
    }

    /// Returns all summaries, by place.
    #[inline(always)]
    pub(crate) fn as_slice(&self) -> &[Summary]
        ensures { result.now ≡ self.now }
    {
        self.summaries.as_slice()
    }

    /// Replaces the summary at a place. Allocates nothing; takes constant time.
    #[inline(always)]
    pub(crate) fn set(&mut self, place: usize, summary: Summary)
        requires inside { place < length self.old }
        requires range { IsLowInRange summary }
        ensures { self.new ≡ set self.old place summary }
    {
        self.lows.set(place, ticks_of(summary.low));
        self.oldest.set(place, ticks_of(summary.oldest));
        self.summaries[place] = summary;
    }

    /// Replaces the oldest time at a place. Allocates nothing; takes constant time.
    #[inline(always)]
    pub(crate) fn set_oldest(&mut self, place: usize, oldest: Option<u64>)
        requires { place < length self.old }
        ensures { self.new ≡ set self.old place (with_oldest oldest
            (get_or self.old place absent)) }
    {
        self.oldest.set(place, ticks_of(oldest));
        self.summaries[place].oldest = oldest;
    }

    /// Returns the least waiting time, in ticks, at any place. Allocates nothing. Takes one step
    /// for each block of places, and a scan of the times of each block whose bound is below the
    /// least time found before it.
    pub(crate) fn low(&mut self) -> Option<u64>
        ensures same { self.new ≡ self.old }
        ensures low { result ≡ (least_among self.old).low }
        ensures range { IfSome result (λ time. time < 2 ^ 41) }
    {
        time_of(self.lows.least())
    }

    /// Returns the first place, from `from` on, whose oldest time is below `floor`, in ticks, or
    /// the number of places if there is none. Allocates nothing. Takes one step for each block of
    /// places passed, and a scan of the times of each block whose bound is below `floor`.
    pub(crate) fn first_due(&mut self, from: usize, floor: u64) -> usize
        requires { from ≤ length self.old }
        ensures same { self.new ≡ self.old }
        ensures after { from ≤ result }
        ensures within { result ≤ length self.old }
        ensures quiet { IsQuietFrom floor self.old from result }
        ensures due { result < length self.old → is_due floor (get_or self.old result absent).oldest
            ≡ true }
    {
        self.oldest.first_before(from, floor)
    }
}
