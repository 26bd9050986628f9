// The pseudorandom words that a process draws, also for the models of users.

ghost use Rattle.std.specs.Prelude.{◌≡◌, ◌+◌, ◌*◌, ◌<◌, ◌^◌};
ghost use Rattle.models.specs.Words.{next_key as key_after, word as drawn};

use rand_core::Rng;
use rand_pcg::Lcg64Xsh32;

/// Returns drawn word `j`, below 16, of process `lp` with this key.
///
/// It is the first word of a generator of its own (PCG's XSH RR 64/32, O'Neill 2014), so it is a
/// function of the three numbers.
pub fn word(key: u64, lp: u32, j: u64) -> u32
    requires { j < 16 }
    ensures { result ≡ drawn key lp j }
{
    Lcg64Xsh32::new(key, 16 * u64::from(lp) + j).next_u32()
}

/// Returns the key after word `j - 1`, `j` below 15: word `j` in the high half and word `j + 1` in
/// the low half.
pub fn next_key(key: u64, lp: u32, j: u64) -> u64
    requires { j < 15 }
    ensures { result ≡ key_after key lp j }
{
    (u64::from(word(key, lp, j)) << 32) + u64::from(word(key, lp, j + 1))
}
