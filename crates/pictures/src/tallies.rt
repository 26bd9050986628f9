// The values of a word in messages.

ghost use Rattle.std.specs.Prelude.{◌≡◌, ◌<◌, ◌≤◌, ◌+◌, ◌-◌, ◌*◌, ◌↔◌, ℕ, List, [], ◌∷◌, ◌++◌};
ghost use Rattle.std.specs.Prelude.{get_or, IfOk, IfSome, None, OnOk, length, true};
ghost use Rattle.pictures.specs.Histograms.{count_between, is_between};
ghost use Rattle.pictures.specs.Levels.{total};
ghost use Rattle.pictures.specs.Tallies.{AreCounts, AreFiguresOf, AreMoments, IsInOrder, IsNearest};
ghost use Rattle.pictures.specs.Tallies.{IsRanked, IsRanking, IsTally};
ghost use Rattle.pictures.specs.Tallies.{bucket_of, rank_of, upper_of};

use crate::quotients::{Decimal, deviation, quotient};
use std::alloc::{AllocError, Global};

/// The figures of values.
#[derive(Clone, Copy)]
pub struct Tallied {
    /// How many there are.
    pub count: u64,
    /// Their mean.
    pub mean: Decimal,
    /// Their deviation from the mean, if it was computed in 128 bits.
    pub deviation: Option<Decimal>,
    /// The least.
    pub least: u64,
    /// The greatest.
    pub most: u64,
    /// The 50th, 90th, 95th and 99th percentile.
    pub percentiles: [u64; 4],
}

/// Values, of which each is added once.
#[derive(Drop)]
pub struct Tally {
    moments: Moments,
    ranking: Ranking,
}

impl Tally {
    /// Makes a tally without values.
    pub fn new(alloc: Global) -> Tally
        ensures { IsTally [] result }
    {
        Tally {
            moments: Moments::new(),
            ranking: Ranking::new(alloc),
        }
    }

    /// Adds a value, in constant time. `AllocError` comes if an allocation failed, and nothing is
    /// added.
    pub fn add(&mut self, alloc: Global, value: u64) -> Result<(), AllocError>
        ensures { OnOk result ((values : List ℕ) → IsTally values self.old →
            IsTally (values ++ value ∷ []) self.new) }
    {
        self.ranking.add(alloc, value)?;
        self.moments.add(value);
        Ok(())
    }

    /// Returns the least and the greatest value, if there are any.
    pub(crate) fn range(&self) -> Option<(u64, u64)>
        ensures some { IfSome result (λ r. (r.0 ≡ self.now.moments.least)
            × (r.1 ≡ self.now.moments.most)) }
        ensures none { result ≡ None → self.now.moments.count ≡ 0 }
    {
        let Moments {
            count,
            least,
            most,
            ..
        } = self.moments;
        if count == 0 {
            return None;
        }
        Some((least, most))
    }

    /// Returns how many values are at least `from` and below `to`. Of more than 2^16 values each
    /// counts as the greatest one of its bucket, or as the greatest of all if that is less.
    pub(crate) fn count_between(&self, from: u128, to: u128) -> u64
        ensures exact { self.now.ranking.counts.items ≡ [] →
            result ≡ count_between from to self.now.ranking.values.items }
    {
        if !self.ranking.counts.is_empty() {
            return self.count_rounded(from, to);
        }
        let mut count = 0u64;
        for value in self.ranking.values.as_slice() {
            if is_between(from, to, *value) {
                count += 1;
            }
        }
        count
    }

    /// Returns how many values the buckets between these bounds have.
    fn count_rounded(&self, from: u128, to: u128) -> u64 {
        let mut count = 0u64;
        for (bucket, values) in self.ranking.counts.as_slice().iter().enumerate() {
            let value = upper_of(bucket as u64).min(self.moments.most);
            if is_between(from, to, value) {
                count = count.saturating_add(*values);
            }
        }
        count
    }

    /// Returns whether all values are kept, so that percentiles and counts are exact.
    pub fn is_exact(&self) -> bool
        ensures { (result ≡ true) ↔ (self.now.ranking.counts.items ≡ []) }
    {
        self.ranking.counts.is_empty()
    }

    /// Returns the figures of the values, if there are any. It costs a sort of up to 2^16 values.
    pub fn figures(&self, alloc: Global) -> Result<Option<Tallied>, AllocError>
        ensures figures { IfOk result
            (λ o. IfSome o (λ f. AreFiguresOf self.now.moments f)) }
        ensures none { IfOk result (λ o. o ≡ None → self.now.moments.count ≡ 0) }
    {
        let Moments {
            count,
            sum,
            squares,
            least,
            most,
        } = self.moments;
        if count == 0 {
            return Ok(None);
        }
        Ok(Some(Tallied {
            count,
            mean: quotient(sum, count),
            deviation: deviation(count, sum, squares),
            least,
            most,
            percentiles: self.ranking.percentiles(alloc, count)?,
        }))
    }
}

/// Returns whether a value is at least `from` and below `to`.
fn is_between(from: u128, to: u128, value: u64) -> bool
    ensures { result ≡ is_between from to value }
{
    let value = u128::from(value);
    from <= value && value < to
}

/// Sums over values.
#[derive(Clone, Copy)]
pub(crate) struct Moments {
    /// How many there are, or 2^64 - 1 if that is less.
    pub(crate) count: u64,
    /// Their sum, or 2^128 - 1 if that is less.
    pub(crate) sum: u128,
    /// The sum of their squares, or 2^128 - 1 if that is less.
    pub(crate) squares: u128,
    /// The least.
    pub(crate) least: u64,
    /// The greatest.
    pub(crate) most: u64,
}

impl Moments {
    fn new() -> Moments
        ensures { AreMoments [] result }
    {
        Moments {
            count: 0,
            sum: 0,
            squares: 0,
            least: u64::MAX,
            most: 0,
        }
    }

    fn add(&mut self, value: u64)
        ensures { (values : List ℕ) → AreMoments values self.old →
            AreMoments (values ++ value ∷ []) self.new }
    {
        let wide = u128::from(value);
        self.count = self.count.saturating_add(1);
        self.sum = self.sum.saturating_add(wide);
        self.squares = self.squares.saturating_add(wide.saturating_mul(wide));
        self.least = self.least.min(value);
        self.most = self.most.max(value);
    }
}

/// Values in order, or how many are in each bucket.
#[derive(Drop)]
pub(crate) struct Ranking {
    /// The values, if there are at most 2^16.
    pub(crate) values: Vec<u64>,
    /// The number of values in each bucket, if there are more.
    pub(crate) counts: Vec<u64>,
}

/// The number of values up to which percentiles are exact.
const EXACT: usize = 1 << 16;

const BUCKETS: usize = 7424;

impl Ranking {
    fn new(alloc: Global) -> Ranking
        ensures { IsRanking [] result }
    {
        Ranking {
            values: Vec::new(alloc),
            counts: Vec::new(alloc),
        }
    }

    fn add(&mut self, alloc: Global, value: u64) -> Result<(), AllocError>
        ensures { OnOk result ((values : List ℕ) → IsRanking values self.old →
            IsRanking (values ++ value ∷ []) self.new) }
    {
        if !self.counts.is_empty() {
            count(self.counts.as_mut_slice(), value);
            return Ok(());
        }
        if self.values.len() < EXACT {
            self.values.push(value)?;
            return Ok(());
        }
        let mut counts = counts_of(alloc, self.values.as_slice())?;
        count(counts.as_mut_slice(), value);
        self.counts = counts;
        self.values = Vec::new(alloc);
        Ok(())
    }

    /// Returns the 50th, 90th, 95th and 99th percentile of this number of values.
    fn percentiles(&self, alloc: Global, count: u64) -> Result<[u64; 4], AllocError> {
        let sorted = self.sorted(alloc)?;
        let sorted = sorted.as_slice();
        Ok([
            self.percentile(sorted, rank_of(50, count)),
            self.percentile(sorted, rank_of(90, count)),
            self.percentile(sorted, rank_of(95, count)),
            self.percentile(sorted, rank_of(99, count)),
        ])
    }

    /// Returns the values that are kept, in ascending order.
    fn sorted(&self, alloc: Global) -> Result<Vec<u64>, AllocError>
        ensures { IfOk result (λ v. IsInOrder self.now.values.items v.items) }
    {
        let mut sorted = Vec::new(alloc);
        sorted.extend_from_slice(self.values.as_slice())?;
        sorted.sort_unstable();
        Ok(sorted)
    }

    /// Returns the value of this rank, from the values that are kept in ascending order.
    fn percentile(&self, sorted: &[u64], rank: u64) -> u64
        requires { IsInOrder self.now.values.items sorted.now }
        ensures { IsRanked self.now rank result }
    {
        if self.counts.is_empty() {
            return ranked(sorted, rank);
        }
        match bucket_at(self.counts.as_slice(), rank) {
            Some(bucket) => upper_of(bucket as u64),
            None => u64::MAX,
        }
    }
}

/// Returns the rank of a percentile among this number of values.
fn rank_of(percent: u64, count: u64) -> u64
    requires { percent ≤ 100 }
    ensures { result ≡ rank_of percent count }
{
    ((u128::from(count) * u128::from(percent) + 99) / 100) as u64
}

/// Returns the value of this rank in ascending values, or 0 if there is none.
fn ranked(sorted: &[u64], rank: u64) -> u64
    ensures { result ≡ get_or sorted.now (rank - 1) 0 }
{
    let place = rank.saturating_sub(1);
    let Ok(place) = usize::try_from(place) else {
        return 0;
    };
    sorted.get(place).copied().unwrap_or(0)
}

/// Returns the bucket of the value of this rank, if there are as many values.
fn bucket_at(counts: &[u64], rank: u64) -> Option<usize>
    ensures found { IfSome result (λ bucket. 1 ≤ rank → IsNearest rank counts.now bucket) }
    ensures missing { result ≡ None → 1 ≤ rank → total counts.now < rank }
{
    let mut left = rank;
    for (bucket, count) in counts.iter().enumerate() {
        if left <= *count {
            return Some(bucket);
        }
        left -= *count;
    }
    None
}

/// Counts these values in buckets.
fn counts_of(alloc: Global, values: &[u64]) -> Result<Vec<u64>, AllocError>
    ensures { IfOk result (λ counts. AreCounts values.now counts.items) }
{
    let mut counts = Vec::new(alloc);
    counts.resize(BUCKETS, 0)?;
    for value in values {
        count(counts.as_mut_slice(), *value);
    }
    Ok(counts)
}

/// Counts a value in its bucket.
fn count(counts: &mut [u64], value: u64)
    ensures counted { (values : List ℕ) → AreCounts values counts.old →
        AreCounts (values ++ value ∷ []) counts.new }
    ensures long { length counts.new ≡ length counts.old }
{
    let bucket = bucket_of(value);
    if bucket < counts.len() {
        counts[bucket] = counts[bucket].saturating_add(1);
    }
}

/// Returns the bucket of a value.
fn bucket_of(value: u64) -> usize
    ensures bucket { result ≡ bucket_of value }
    ensures few { result < 7424 }
{
    let mut rest = value;
    for halvings in 0..56 {
        if rest < 256 {
            return 128 * halvings + rest as usize;
        }
        rest /= 2;
    }
    128 * 56 + rest.min(255) as usize
}

/// Returns the greatest value of a bucket, of which there are 7,424.
fn upper_of(bucket: u64) -> u64
    ensures { bucket < 7424 → result ≡ upper_of bucket }
{
    if bucket < 256 {
        return bucket;
    }
    let shift = (bucket / 128 - 1).min(56);
    ((u128::from(bucket % 128 + 129) << shift) - 1) as u64
}
