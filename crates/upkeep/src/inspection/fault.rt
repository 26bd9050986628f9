// Why a disk cannot be inspected.

use commitlog::LogFault;
use recovery::RecoveryFault;
use thiserror::Error;

/// Why a disk cannot be inspected.
#[derive(Clone, Copy, Debug, PartialEq, Eq, Error)]
pub enum InspectionFault {
    /// The log cannot be opened.
    #[error("Log {0}")]
    Log(LogFault),
    /// No world is recovered from the log, and no record is at fault.
    #[error("Recovery {0}")]
    Recovery(RecoveryFault),
    /// A record is at fault.
    #[error("Record {number} {fault}")]
    Record {
        /// The number of records before it. They can be replayed without this record, and not with
        /// it.
        number: u64,
        /// What is wrong with it.
        fault: RecoveryFault,
    },
}
