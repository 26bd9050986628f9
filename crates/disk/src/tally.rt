// A count that exists only in proofs.
ghost use Rattle.std.specs.Prelude.{◌≡◌, ◌+◌, ℕ};
ghost use Rattle.std.specs.Borrow.{ftrue};

use std::marker::Model;

/// The number of failures of a device. The count is unbounded, so no machine integer can hold it,
/// and it exists only in proofs.
#[derive(Drop)]
pub struct FailureCount {
    pub ghost count: { ℕ },
}

// It owns no memory.
impl Model for FailureCount {
    ghost also_owns = { λ _. ftrue };
}

impl FailureCount {
    pub fn new() -> FailureCount
        ensures { result.count ≡ 0 }
    {
        FailureCount {}
    }

    pub fn and_one(&self) -> FailureCount
        ensures { result.count ≡ self.now.count + 1 }
    {
        FailureCount {}
    }
}
