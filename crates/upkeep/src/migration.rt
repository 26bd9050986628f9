// Migration: reads a disk of format 1, and appends its records, widened, to a new disk.

ghost use Rattle.std.specs.Prelude.{◌≡◌};

mod carrying;
mod migrating;
mod old;
mod reading;

use commitlog::LogFault;
pub use migrating::migrate;
pub use old::{old_end_of, old_header_end};
use recovery::RecoveryFault;
use thiserror::Error;

/// Why a disk was not migrated, or only in part.
#[derive(Clone, Copy, Debug, PartialEq, Eq, Error)]
pub enum MigrateFault {
    /// The new log has records, or its header is not that of the model with the end in the old
    /// header. Nothing is written.
    #[error("NotEmpty")]
    NotEmpty,
    /// The old log cannot be recovered. Nothing is written.
    #[error("Old {0}")]
    Old(RecoveryFault),
    /// The new log refused a record. It keeps the records before that.
    #[error("New {0}")]
    New(LogFault),
}

impl From<RecoveryFault> for MigrateFault {
    ghost use Rattle.upkeep.specs.declared.migration.MigrateFault.TheVariants.{Old};

    ghost from_gives = { λ fault e. e ≡ Old fault };

    fn from(fault: RecoveryFault) -> MigrateFault {
        MigrateFault::Old(fault)
    }
}
