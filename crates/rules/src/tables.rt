// A table of numbers.

ghost use Rattle.std.specs.Prelude.{◌≡◌, ◌+◌, ◌*◌, ◌/◌, ◌-◌, ◌^◌};
ghost use Rattle.rules.specs.Distributions.{choice_of, pick, saturated, total as total_of};
ghost use Rattle.rules.specs.Values.{entry_of};

/// A table of numbers that rules can read. Contracts see it as the list of its numbers.
#[derive(Debug, Drop)]
pub struct Table {
    numbers: Vec<u64>,
}

impl std::marker::Model for Table {
    ghost use Rattle.std.specs.Prelude.{List, ℕ};

    ghost Value = { List ℕ };

    ghost view = { λ t. t.numbers.items };
}

impl Table {
    /// Makes a table of these numbers, without an allocation.
    pub fn from_numbers(numbers: Vec<u64>) -> Table
        ensures { result ≡ numbers.items }
    {
        Table { numbers }
    }

    /// Returns the number at an index, or 0 if the table has no such index.
    pub fn number(&self, index: u64) -> u64
        ensures { result ≡ entry_of self.now index }
    {
        self.numbers.get(index as usize).copied().unwrap_or(0)
    }

    /// Returns an index by the weights that the numbers are, from a drawn word: 0 if all are 0.
    ///
    /// The share of an index is its weight in the sum of all, which stops at 2^64 - 1, up to 2^-32.
    /// The cost is two passes over the table.
    #[tactic(auto, unfolding(crate::specs::Distributions::choice_of))]
    pub fn choose(&self, word: u32) -> u64
        ensures { result ≡ choice_of self.now word }
    {
        let numbers = self.numbers.as_slice();
        place(numbers, share(total(numbers), word))
    }

    /// Returns the numbers.
    pub fn as_slice(&self) -> &[u64]
        ensures { result.now ≡ self.now }
    {
        self.numbers.as_slice()
    }
}

/// Returns the sum of the numbers, at most 2^64 - 1.
fn total(numbers: &[u64]) -> u64
    ensures { result ≡ saturated (total_of numbers.now) }
{
    let mut sum: u64 = 0;
    'numbers: for number in numbers {
        sum = sum.saturating_add(*number);
    }
    sum
}

/// Returns the part of a whole that a drawn word stands for, as its share of 2^32.
fn share(whole: u64, word: u32) -> u64
    ensures { result ≡ whole * word / 2 ^ 32 }
{
    ((u128::from(whole) * u128::from(word)) >> 32) as u64
}

/// Returns the first index at which the sum of the numbers up to it is above `n`, or 0.
fn place(numbers: &[u64], n: u64) -> u64
    ensures { result ≡ saturated (pick 0 numbers.now n) }
{
    let mut left = n;
    'numbers: for (i, number) in numbers.iter().enumerate() {
        if left < *number {
            return i as u64;
        }
        left -= *number;
    }
    0
}
