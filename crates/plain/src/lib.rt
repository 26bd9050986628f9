//! Plain runs: a simulation on its disk, one event at a time and without nodes. Commits go to the
//! disk's log, so a crash costs only the events since the last one.
#![tactic(auto)]

ghost use Rattle.std.specs.Prelude.{◌≡◌};

mod advancing;
mod appending;
mod committing;
mod opening;
mod running;
mod whole;

use commitlog::LogFault;
use disk::SectorDisk;
use model::WorldFault;
use recovery::RecoveryFault;
pub use running::PlainRun;
use std::alloc::{AllocError, AllocFailed};
use thiserror::Error;
pub use whole::{PlainPlan, PlainWatch, Reached, run_plain};

/// Why a plain run stopped.
#[derive(Clone, Copy, Debug, PartialEq, Eq, Error)]
pub enum PlainFault {
    /// The log of the disk could not be opened or recovered.
    #[error("Recovery {0}")]
    Recovery(RecoveryFault),
    /// A send number would have passed 2^63.
    #[error("NumberLimit")]
    NumberLimit,
    /// The record would have more than 2^24 bytes.
    #[error("TooLong")]
    TooLong,
    /// The record does not fit on the disk.
    #[error("Full")]
    Full,
    /// The disk failed.
    #[error("Disk")]
    Disk,
    /// All commits were made before everything was committed.
    #[error("Commits")]
    Commits,
    /// The run was asked to stop, and stopped before its end with commits left.
    #[error("Stopped")]
    Stopped {
        /// The virtual time before which everything is committed, in ticks.
        time: u64,
        /// The number of committed events.
        events: usize,
    },
    /// An allocation failed.
    #[error("NoMemory")]
    NoMemory,
}

/// Why an open plain run ended early, and its disk.
#[derive(Drop)]
pub struct Stopped<D: SectorDisk> {
    pub fault: PlainFault,
    pub disk: D,
}

impl From<AllocError> for PlainFault {
    ghost use Rattle.plain.specs.declared.PlainFault.TheVariants.{NoMemory};

    ghost from_gives = { λ _ e. e ≡ NoMemory };

    fn from(_refused: AllocError) -> PlainFault {
        PlainFault::NoMemory
    }
}

impl<T: Drop> From<AllocFailed<T>> for PlainFault {
    ghost use Rattle.plain.specs.declared.PlainFault.TheVariants.{NoMemory};

    ghost from_gives = { λ _ e. e ≡ NoMemory };

    fn from(_refused: AllocFailed<T>) -> PlainFault {
        PlainFault::NoMemory
    }
}

impl From<WorldFault> for PlainFault {
    ghost use Rattle.plain.specs.Refusals.{of_world};

    ghost from_gives = { λ fault e. e ≡ of_world fault };

    fn from(fault: WorldFault) -> PlainFault {
        match fault {
            WorldFault::NoMemory => PlainFault::NoMemory,
            WorldFault::NumberLimit => PlainFault::NumberLimit,
        }
    }
}

impl From<RecoveryFault> for PlainFault {
    ghost use Rattle.plain.specs.Refusals.{of_recovery};

    ghost from_gives = { λ fault e. e ≡ of_recovery fault };

    fn from(fault: RecoveryFault) -> PlainFault {
        match fault {
            RecoveryFault::NoMemory => PlainFault::NoMemory,
            RecoveryFault::NumberLimit => PlainFault::NumberLimit,
            _ => PlainFault::Recovery(fault),
        }
    }
}
