// Quotients and roots of whole numbers, in millionths.

ghost use Rattle.std.specs.Prelude.{◌≡◌, ◌≤◌, ◌+◌, ◌-◌, ◌*◌, ◌/◌, ◌%◌, ◌^◌, IfSome, min, max};
ghost use Rattle.pictures.specs.Quotients.{IsRoot, variance};

use std::fmt;

/// A number that is rounded down to millionths.
#[derive(Clone, Copy, Debug, PartialEq, Eq)]
pub struct Decimal {
    /// The whole part.
    pub whole: u64,
    /// The remaining millionths, below 1,000,000.
    pub millionths: u64,
}

impl fmt::Display for Decimal {
    /// Writes the number with six digits after the point.
    fn fmt<W: fmt::Write>(&self, f: &mut fmt::Formatter<W>) -> fmt::Result {
        write!(f, "{}.{:06}", self.whole, self.millionths)
    }
}

/// Returns a quotient. A divisor of 0 counts as 1, and a whole part of 2^64 or above as 2^64 - 1.
pub(crate) fn quotient(sum: u128, count: u64) -> Decimal
    ensures whole { result.whole ≡ min (2 ^ 64 - 1) (sum / max 1 count) }
    ensures millionths { result.millionths ≡ 1000000 * (sum % max 1 count) / max 1 count }
{
    let count = u128::from(count.max(1));
    Decimal {
        whole: u64::try_from(sum / count).unwrap_or(u64::MAX),
        millionths: (1_000_000 * (sum % count) / count) as u64,
    }
}

/// Returns the deviation of numbers from their mean, from how many there are, their sum and the sum
/// of their squares. `None` comes if there are none, or if a number on the way does not fit into
/// 128 bits.
pub(crate) fn deviation(count: u64, sum: u128, squares: u128) -> Option<Decimal>
    ensures { IfSome result (λ d. IsRoot (variance count sum squares)
        (1000000 * d.whole + d.millionths)) }
{
    let count = u128::from(count);
    let spread = count
        .checked_mul(squares)?
        .checked_sub(sum.checked_mul(sum)?)?;
    let root = root(scaled_quotient(spread, count.checked_mul(count)?)?);
    Some(Decimal {
        whole: root / 1_000_000,
        millionths: root % 1_000_000,
    })
}

/// Returns a quotient in units of 10^-12, if the divisor is not 0 and the numbers on the way fit
/// into 128 bits.
fn scaled_quotient(number: u128, by: u128) -> Option<u128>
    ensures { IfSome result (λ q. q ≡ 1000000000000 * number / by) }
{
    let whole = number.checked_div(by)?.checked_mul(SCALE)?;
    let rest = (number % by).checked_mul(SCALE)? / by;
    Some(whole.checked_add(rest)?)
}

const SCALE: u128 = 1_000_000_000_000;

/// Returns the root of a number, rounded down.
fn root(number: u128) -> u64
    ensures { IsRoot number result }
{
    let mut low = 0u128;
    let mut high = 1u128 << 64;
    'halvings: while high - low > 1 {
        let middle = low + (high - low) / 2;
        if middle * middle <= number {
            low = middle;
        } else {
            high = middle;
        }
    }
    low as u64
}
