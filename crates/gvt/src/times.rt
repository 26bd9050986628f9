// Least times, in ticks.

ghost use Rattle.std.specs.Prelude.{◌≡◌, ◌∷◌, []};
ghost use Rattle.gvt.specs.Ledger.{least_low};
ghost use Rattle.node.specs.Node.{earliest};
ghost use Rattle.gvt.specs.Times.{low_in};

use eventkey::Signed;

/// The lesser of two times; `None` is no bound.
pub(crate) fn lesser(first: Option<u64>, second: Option<u64>) -> Option<u64>
    ensures { result ≡ earliest first second }
{
    match (first, second) {
        (None, _) => second,
        (_, None) => first,
        (Some(one), Some(other)) => Some(one.min(other)),
    }
}

/// The lesser of a time and a low; `None` is no bound.
pub(crate) fn lowered(time: u64, low: Option<u64>) -> u64
    ensures { result ≡ least_low time (low ∷ []) }
{
    match low {
        Some(low) => time.min(low),
        None => time,
    }
}

/// The least time of these messages and antimessages, if there are any.
pub(crate) fn least_of(signed: &[Signed]) -> Option<u64>
    ensures { result ≡ low_in signed.now }
{
    let mut least = None;
    for one in signed {
        least = lesser(least, Some(one.message.time()));
    }
    least
}
