// How often each delay came, of which there are fewer than messages.

ghost use Rattle.std.specs.Prelude.{◌≡◌, ◌+◌, ◌++◌, ℕ, IfOk, List, OnOk, [], ◌∷◌, get_or};
ghost use Rattle.pictures.specs.Delays.{AreCounted, expanded};
ghost use Rattle.pictures.specs.Figures.{IsSpread};

use crate::Spread;
use std::alloc::{AllocError, Global};
use std::collections::BTreeMap;

/// Delays of messages: how many came of each.
#[derive(Drop)]
pub(crate) struct Delays {
    /// How often each delay came.
    pub(crate) counts: BTreeMap<u64, u64>,
    /// How many delays came.
    pub(crate) total: u64,
}

impl Delays {
    /// Makes the delays of no message.
    pub(crate) fn new(alloc: Global) -> Delays
        ensures { AreCounted [] result }
    {
        Delays {
            counts: BTreeMap::new(alloc),
            total: 0,
        }
    }

    /// Adds a delay. `AllocError` comes if an allocation failed, or if there are 2^64 delays. It
    /// costs the logarithm of the number of different delays.
    pub(crate) fn add(&mut self, delay: u64) -> Result<(), AllocError>
        ensures { OnOk result ((delays : List ℕ) → AreCounted delays self.old →
            AreCounted (delays ++ delay ∷ []) self.new) }
    {
        let total = one_more(self.total)?;
        let count = one_more(self.counts.get(&delay).copied().unwrap_or(0))?;
        self.counts.insert(delay, count)?;
        self.total = total;
        Ok(())
    }

    /// Returns the least, the lower median and the greatest of the delays. It costs the number of
    /// different delays.
    pub(crate) fn spread(&self) -> Spread
        ensures { (delays : List ℕ) → AreCounted delays self.now → IsSpread delays result }
    {
        let last = self.total.saturating_sub(1);
        Spread {
            least: delay_at(&self.counts, 0),
            median: delay_at(&self.counts, last / 2),
            most: delay_at(&self.counts, last),
        }
    }
}

/// Returns a count after one more, or `AllocError` if it would be 2^64.
pub(crate) fn one_more(count: u64) -> Result<u64, AllocError>
    ensures { IfOk result (λ n. n ≡ count + 1) }
{
    count.checked_add(1).ok_or(AllocError)
}

/// Returns the delay at a place among all delays in ascending order, counted from 0; past the end
/// it is 0.
fn delay_at(counts: &BTreeMap<u64, u64>, place: u64) -> u64
    ensures { result ≡ get_or (expanded counts.now.entries) place 0 }
{
    let mut left = place;
    for (delay, count) in counts {
        if left < *count {
            return *delay;
        }
        left -= *count;
    }
    0
}
