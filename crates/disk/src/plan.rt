// The planned failures of a disk in memory.
ghost use Rattle.std.specs.Prelude.{◌≡◌};

use crate::tally::FailureCount;
use std::marker::Model;

/// The operations of a [`MemDisk`](crate::MemDisk) that fail with `Device`.
///
/// Each read, write, sync and growth counts as one operation, unless it is refused for another
/// cause: `NoSuchSector`, `Fewer`, `TooMany` or `NoMemory`. A failure does not change what reads
/// give.
#[derive(Clone, Copy, Debug, Default, PartialEq, Eq)]
pub struct DiskPlan {
    /// The number of an operation that fails, counted from 0.
    pub fail: Option<u64>,
    /// The number of a write, counted from 0, that fails together with every operation after it.
    pub stop: Option<u64>,
}

/// A plan, and the numbers of operations and writes so far. The counts saturate at 2^64 - 1.
#[derive(Drop)]
pub struct PlanProgress {
    plan: DiskPlan,
    operations: u64,
    writes: u64,
    stopped: bool,
    failures: FailureCount,
}

impl Model for PlanProgress {
    ghost use Rattle.disk.specs.Plans.{Counts};

    ghost Value = { Counts };

    ghost view = { λ s. record {
      plan = s.plan;
      operations = s.operations;
      writes = s.writes;
      stopped = s.stopped;
      failures = s.failures.count;
    } };
}

impl PlanProgress {
    ghost use Rattle.disk.specs.Plans.{is_at, started, fails, operation_counted};
    ghost use Rattle.disk.specs.Plans.{write_fails, write_counted};

    fn is_at(planned: Option<u64>, number: u64) -> bool
        ensures { result ≡ is_at planned number }
    {
        match planned {
            Some(n) => n == number,
            None => false,
        }
    }

    pub fn new(plan: DiskPlan) -> PlanProgress
        ensures { result ≡ started plan }
    {
        PlanProgress {
            plan,
            operations: 0,
            writes: 0,
            stopped: false,
            failures: FailureCount::new(),
        }
    }

    /// Counts an operation that is not a write, and returns whether it fails.
    pub fn fails(&mut self) -> bool
        ensures fails { result ≡ fails self.old }
        ensures counts { self.new ≡ operation_counted self.old }
    {
        let fails = self.stopped || PlanProgress::is_at(self.plan.fail, self.operations);
        self.operations = self.operations.saturating_add(1);
        if fails {
            self.failures = self.failures.and_one();
        }
        fails
    }

    /// Counts a write, which is also an operation, and returns whether it fails.
    pub fn write_fails(&mut self) -> bool
        ensures fails { result ≡ write_fails self.old }
        ensures counts { self.new ≡ write_counted self.old }
    {
        self.stopped = self.stopped || PlanProgress::is_at(self.plan.stop, self.writes);
        self.writes = self.writes.saturating_add(1);
        self.fails()
    }
}
