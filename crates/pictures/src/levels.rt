// A number over virtual time.

ghost use Rattle.std.specs.Prelude.{◌≡◌, ℕ, List, [], max};
ghost use Rattle.pictures.specs.Levels.{HasSet, IsLevel, held};

/// A number that changes over virtual time, and its figures from a tick on. It takes 64 bytes, and
/// a change a constant time.
#[derive(Clone, Copy)]
pub struct Level {
    /// The first tick that counts.
    pub from: u64,
    /// The tick up to which the figures are.
    pub since: u64,
    /// The value from this tick on.
    pub value: u64,
    /// The sum of its values at the ticks, or 2^128 - 1 if that is less.
    pub integral: u128,
    /// The least of these values; 2^64 - 1 if there are none.
    pub least: u64,
    /// The greatest of these values; 0 if there are none.
    pub most: u64,
}

impl Level {
    /// Makes the level of a number that has this value at first. Its figures count from `from`
    /// ticks on.
    pub fn new(from: u64, value: u64) -> Level
        ensures level { IsLevel [] result }
        ensures from { result.from ≡ from }
        ensures value { result.value ≡ value }
    {
        Level {
            from,
            since: 0,
            value,
            integral: 0,
            least: u64::MAX,
            most: 0,
        }
    }

    /// Sets the number to a value from `time` ticks on. Before this tick it keeps its old value.
    pub fn set(&mut self, time: u64, value: u64)
        ensures { HasSet time value self.old self.new }
    {
        self.hold(time);
        self.value = value;
    }

    /// Lets the number keep its value at the ticks before `time`.
    pub fn hold(&mut self, time: u64)
        ensures held { (values : List ℕ) → IsLevel values self.old →
            IsLevel (held time self.old values) self.new }
        ensures value { self.new.value ≡ self.old.value }
        ensures from { self.new.from ≡ self.old.from }
    {
        let first = self.from.max(self.since);
        self.since = self.since.max(time);
        let ticks = u128::from(time.saturating_sub(first));
        if ticks == 0 {
            return;
        }
        self.integral = self
            .integral
            .saturating_add(ticks.saturating_mul(u128::from(self.value)));
        self.least = self.least.min(self.value);
        self.most = self.most.max(self.value);
    }
}
