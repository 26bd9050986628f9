// The distributions of rules, by whole numbers alone.

ghost use Rattle.std.specs.Prelude.{◌≡◌, ◌≤◌, ◌<◌, ◌+◌, ◌*◌, ◌/◌, ◌%◌, ◌^◌, slice_index};
ghost use Rattle.rules.specs.Distributions.{between as between_of, depth as depth_of};
ghost use Rattle.rules.specs.Distributions.{exponential as exponential_of};
ghost use Rattle.rules.specs.Distributions.{geometric as geometric_of, normal as normal_of};
ghost use Rattle.rules.specs.Distributions.{saturated, standard_exponential as nats_of};
ghost use Rattle.rules.specs.Distributions.{standard_normal as normal_way};
ghost use Rattle.rules.specs.Distributions.{stretched as stretched_of};
ghost use Rattle.rules.specs.Distributions.{triangular as triangular_of};

use crate::quantiles::{exponential_quantiles, normal_quantiles};

/// Returns a number, or 2^64 - 1 if it is greater.
fn narrowed(n: u128) -> u64
    ensures { result ≡ saturated n }
{
    n.min(0xffff_ffff_ffff_ffff) as u64
}

/// Returns how far `v`, below 2^33, lies below 2^33: halvings in units of 2^32, and the way through
/// the last one.
fn depth(v: u64) -> u64
    requires { 1 ≤ v }
    ensures depth { result ≡ depth_of v }
    ensures small { result < 2 ^ 39 }
{
    let zeros = v.leading_zeros();
    let rest = (0xffff_ffff_ffff_ffff - (v << zeros)) >> 31;
    u64::from(zeros.saturating_sub(31)) * 0x1_0000_0000 + rest
}

/// Returns an entry of a table, or 0 if there is none.
fn entry(table: &[u32], place: u64) -> u32
    ensures { result ≡ slice_index table.now place }
{
    table.get(place as usize).copied().unwrap_or(0)
}

/// Returns what lies between two neighbours of an ascending table, in proportion; `part` of the way
/// is one entry.
fn between(table: &[u32], part: u64, way: u64) -> u64
    requires some { 1 ≤ part }
    requires few { part ≤ 2 ^ 28 }
    requires near { way < 2 ^ 40 }
    ensures value { result ≡ between_of table.now part way }
    ensures small { result < 2 ^ 33 }
{
    let low = u64::from(entry(table, way / part));
    let high = u64::from(entry(table, way / part + 1));
    low + high.saturating_sub(low) * (way % part) / part
}

/// Returns an exponential variable with the mean 1, in units of 2^-32.
#[tactic(auto, unfolding(crate::specs::Distributions::standard_exponential))]
fn standard_exponential(word: u32) -> u64
    ensures value { result ≡ nats_of word }
    ensures small { result < 2 ^ 40 }
{
    let depth = depth(2 * u64::from(word) + 1);
    let quantiles = exponential_quantiles();
    (depth >> 32) * u64::from(entry(quantiles, 256))
        + between(quantiles, 0x100_0000, depth & 0xffff_ffff)
}

/// Returns a number from the exponential distribution.
#[tactic(auto, unfolding(crate::specs::Distributions::exponential))]
pub(crate) fn exponential(mean: u64, word: u32) -> u64
    ensures { result ≡ exponential_of mean word }
{
    narrowed((u128::from(mean) * u128::from(standard_exponential(word)) + 0x8000_0000) >> 32)
}

/// Returns how far a standard normal variable lies from 0, in units of 2^-28.
#[tactic(auto, unfolding(crate::specs::Distributions::standard_normal))]
fn standard_normal(word: u32) -> u64
    ensures value { result ≡ normal_way word }
    ensures small { result < 2 ^ 33 }
{
    let depth = depth(4 * u64::from(word & 0x7fff_ffff) + 2);
    between(normal_quantiles(), 0x1000_0000, depth)
}

/// Returns a number from the normal distribution.
#[tactic(auto, unfolding(crate::specs::Distributions::normal))]
pub(crate) fn normal(mean: u64, deviation: u64, word: u32) -> u64
    ensures { result ≡ normal_of mean deviation word }
{
    let way = (u128::from(deviation) * u128::from(standard_normal(word)) + 0x800_0000) >> 28;
    if word < 0x8000_0000 {
        mean.saturating_sub(narrowed(way))
    } else {
        narrowed(u128::from(mean) + way)
    }
}

/// Returns a number from the triangular distribution.
#[tactic(auto, unfolding(crate::specs::Distributions::triangular))]
pub(crate) fn triangular(least: u64, mode: u64, most: u64, one: u32, two: u32) -> u64
    ensures { result ≡ triangular_of least mode most one two }
{
    let top = least.max(most);
    let peak = least.max(mode).min(top);
    let left = u128::from(peak - least) * u128::from(one.max(two));
    let right = u128::from(top - peak) * u128::from(one.min(two));
    narrowed(u128::from(least) + ((left + right + 0x8000_0000) >> 32))
}

/// Returns the mean, in units of 2^-16, of the exponential variable whose whole part is geometric.
fn stretched(mean: u64) -> u128
    ensures value { result ≡ stretched_of mean }
    ensures small { result < 2 ^ 81 }
{
    let rest = if mean < 8192 {
        163_840 * (2 * mean + 1) / (60 * (mean * (mean + 1)) + 11)
    } else {
        0
    };
    (u128::from(mean) << 16) + 32_768 - u128::from(rest)
}

/// Returns a number from the geometric distribution.
#[tactic(auto, unfolding(crate::specs::Distributions::geometric))]
pub(crate) fn geometric(mean: u64, word: u32) -> u64
    ensures { result ≡ geometric_of mean word }
{
    if mean == 0 {
        0
    } else {
        narrowed((u128::from(standard_exponential(word)) * stretched(mean)) >> 48)
    }
}
