// Times by place, in blocks, so that a search skips most of them.

ghost use Rattle.std.specs.Prelude.{◌≡◌, ◌<◌, ◌≤◌, ◌*◌, length, set, get_or, replicate, IfOk};
ghost use Rattle.node.specs.Times.{AreFrom, block_at, least_in, never, ticks_of, time_of};

use std::alloc::{AllocError, Global};

/// The number of times in a block.
const BLOCK: usize = 32;

/// The time of a place that has none.
const NEVER: u64 = u64::MAX;

/// A time for each place, in ticks, `NEVER` if it has none, and a bound for each block of places:
/// no time there is below it. A change of a time lowers the bound of its block and never raises it,
/// so that it needs no scan. A search that scans a block makes its bound exact again.
#[derive(Drop)]
pub(crate) struct Times {
    times: Vec<u64>,
    bounds: Vec<u64>,
}

impl std::marker::Model for Times {
    ghost use Rattle.std.specs.Prelude.{List, ℕ};

    ghost Value = { List ℕ };

    ghost use Rattle.node.specs.Times.{AreTimes};

    ghost view = { λ t. t.times.items };

    ghost invariant = { λ t. AreTimes t.times.items t.bounds.items };
}

impl Times {
    /// Returns this number of places, which have no times.
    pub(crate) fn new(alloc: Global, places: usize) -> Result<Times, AllocError>
        ensures { IfOk result (λ t. t ≡ replicate places never) }
    {
        let mut times = Vec::new(alloc);
        times.resize(places, NEVER)?;
        let mut bounds = Vec::new(alloc);
        bounds.resize(places / BLOCK + 1, NEVER)?;
        Ok(Times { times, bounds })
    }

    /// Replaces the time at a place. Allocates nothing; takes constant time.
    #[inline(always)]
    pub(crate) fn set(&mut self, place: usize, time: u64)
        requires { place < length self.old }
        ensures { self.new ≡ set self.old place time }
    {
        let bound = self.bounds[place / BLOCK].min(time);
        self.bounds[place / BLOCK] = bound;
        self.times[place] = time;
    }

    /// Returns the least time at any place. Allocates nothing. Takes one step for each block, and a
    /// scan of each block whose bound is below the least time found before it.
    pub(crate) fn least(&mut self) -> u64
        ensures same { self.new ≡ self.old }
        ensures least { result ≡ least_in self.old }
    {
        let mut least = NEVER;
        for block in 0..self.bounds.len() {
            // No time there is below the least one found.
            if self.bounds[block] >= least {
                continue;
            }
            let exact = least_of(block_of(&self.times, block));
            self.bounds[block] = exact;
            least = least.min(exact);
        }
        least
    }

    /// Returns the first place, from `from` on, whose time is below `limit`, in ticks, or the
    /// number of places if there is none. Allocates nothing. Takes one step for each block passed,
    /// and a scan of each block whose bound is below `limit`.
    pub(crate) fn first_before(&mut self, from: usize, limit: u64) -> usize
        requires { from ≤ length self.old }
        ensures same { self.new ≡ self.old }
        ensures after { from ≤ result }
        ensures within { result ≤ length self.old }
        ensures none { AreFrom limit self.old from result }
        ensures before { result < length self.old → get_or self.old result 0 < limit }
    {
        let mut place = from;
        while place < self.times.len() {
            let block = place / BLOCK;
            let end = self.times.len().min((block + 1) * BLOCK);
            if self.bounds[block] < limit {
                let found = first_among(&self.times, place, end, limit);
                if found < end {
                    return found;
                }
                // The bound can be that of a time since replaced.
                let exact = least_of(block_of(&self.times, block));
                self.bounds[block] = exact;
            }
            place = end;
        }
        place
    }
}

/// Returns a time, which can be missing, as `Times` has it.
#[inline(always)]
pub(crate) fn ticks_of(time: Option<u64>) -> u64
    ensures { result ≡ ticks_of time }
{
    match time {
        Some(time) => time,
        None => NEVER,
    }
}

/// Returns the time that `Times` has as this number.
#[inline(always)]
pub(crate) fn time_of(ticks: u64) -> Option<u64>
    ensures { result ≡ time_of ticks }
{
    if ticks < NEVER { Some(ticks) } else { None }
}

/// Returns the times of a block.
fn block_of(times: &[u64], block: usize) -> &[u64]
    requires { 32 * block ≤ length times.now }
    ensures { result.now ≡ block_at block times.now }
{
    let start = block * BLOCK;
    let end = times.len().min(start + BLOCK);
    &times[start..end]
}

/// Returns the least of these times. Scans them all.
fn least_of(times: &[u64]) -> u64
    ensures { result ≡ least_in times.now }
{
    let mut least = NEVER;
    for time in times {
        least = least.min(*time);
    }
    least
}

/// Returns the first place, from `from` on and before `end`, whose time is below `limit`, or `end`
/// if there is none.
fn first_among(times: &[u64], from: usize, end: usize, limit: u64) -> usize
    requires from { from ≤ end }
    requires end { end ≤ length times.now }
    ensures after { from ≤ result }
    ensures within { result ≤ end }
    ensures none { AreFrom limit times.now from result }
    ensures before { result < end → get_or times.now result 0 < limit }
{
    for place in from..end {
        if times[place] < limit {
            return place;
        }
    }
    end
}
