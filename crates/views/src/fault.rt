// Why a read-only command failed.

ghost use Rattle.std.specs.IoError.{error_kind};
ghost use Rattle.std.specs.Prelude.{◌≡◌, ◌≢◌};
ghost use Rattle.views.specs.Views.{of_file, of_inspection, of_model, of_trace, of_verification};
ghost use Rattle.views.specs.declared.fault.ViewFault.TheVariants.{NoMemory, Output};
ghost use Rattle.views.specs.declared.fault.ViewFault.TheVariants.{Recovery as RecoveryCase};
ghost use Rattle.views.specs.declared.fault.ViewFault.TheVariants.{World as WorldCase};

use commitlog::LogFault;
use disk::FileFault;
use model::WorldFault;
use pictures::NotRead;
use recovery::RecoveryFault;
use std::alloc::{AllocError, AllocFailed};
use std::io::{Error as IoError, ErrorKind};
use texts::{Mistake, ModelFault, SettingFault};
use thiserror::Error;
use upkeep::VerifyFault;
use upkeep::inspection::InspectionFault;

/// Why a disk is no segment of a simulation.
#[derive(Clone, Copy, Debug, PartialEq, Eq, Error)]
pub enum SegmentFault {
    /// Its origin is not the world that the disk before it represents.
    #[error("NotTheNext")]
    NotTheNext,
    /// Its origin would have more than 2^24 bytes.
    #[error("TooLong")]
    TooLong,
}

/// Why a read-only command failed. Printed as its name, followed by a space and the fault that it
/// carries, if any.
#[derive(Clone, Copy, Debug, PartialEq, Eq, Error)]
pub enum ViewFault {
    /// The text is not a model file.
    #[error("BadModel")]
    BadModel,
    /// A file cannot be read, or is not a disk of the requested size.
    #[error("File")]
    File,
    /// The sequential runner refused.
    #[error("World {0}")]
    World(WorldFault),
    /// The log of a disk was not opened.
    #[error("Log {0}")]
    Log(LogFault),
    /// No world was recovered from the log.
    #[error("Recovery {0}")]
    Recovery(RecoveryFault),
    /// `status` or `verify` found a fault in a record of a disk.
    #[error("Record {number} {fault}")]
    Record {
        /// The number of records before it.
        number: u64,
        /// What is wrong with it.
        fault: RecoveryFault,
    },
    /// A segment does not go on from the disk that it should go on from.
    #[error("Segment {0}")]
    Segment(SegmentFault),
    /// A value is not set in the model file.
    #[error("Setting {0}")]
    Setting(SettingFault),
    /// The text is not a trace of a run.
    #[error("BadTrace")]
    BadTrace,
    /// `check` found a mistake in a file that is not a model file.
    #[error("{0}")]
    Mistake(Mistake),
    /// The model does not have the process that is asked for.
    #[error("NoSuchProcess")]
    NoSuchProcess {
        /// How many processes it has.
        processes: u32,
    },
    /// No word of messages has the name that is asked for, or several sorts of messages have one.
    #[error("NoSuchWord")]
    NoSuchWord,
    /// An allocation failed in a call without its own fault for it.
    #[error("NoMemory")]
    NoMemory,
    /// The writer refused a write.
    #[error("Output")]
    Output,
}

impl From<NotRead> for ViewFault {
    ghost from_gives = { λ fault e. e ≡ of_trace fault };

    fn from(fault: NotRead) -> ViewFault {
        match fault {
            NotRead::BadTrace => ViewFault::BadTrace,
            NotRead::NoMemory => ViewFault::NoMemory,
        }
    }
}

impl From<ModelFault> for ViewFault {
    ghost from_gives = { λ fault e. e ≡ of_model fault };

    fn from(fault: ModelFault) -> ViewFault {
        match fault {
            ModelFault::BadModel(_) => ViewFault::BadModel,
            ModelFault::NoMemory => ViewFault::NoMemory,
        }
    }
}

/// An error of a writer. `unreadable` converts the errors of files that are read.
impl From<IoError> for ViewFault {
    ghost from_gives = { λ _ e. e ≡ Output };

    fn from(_error: IoError) -> ViewFault {
        ViewFault::Output
    }
}

impl From<WorldFault> for ViewFault {
    ghost from_gives = { λ fault e. e ≡ WorldCase fault };

    fn from(fault: WorldFault) -> ViewFault {
        ViewFault::World(fault)
    }
}

impl From<RecoveryFault> for ViewFault {
    ghost from_gives = { λ fault e. e ≡ RecoveryCase fault };

    fn from(fault: RecoveryFault) -> ViewFault {
        ViewFault::Recovery(fault)
    }
}

impl From<InspectionFault> for ViewFault {
    ghost from_gives = { λ fault e. e ≡ of_inspection fault };

    fn from(fault: InspectionFault) -> ViewFault {
        match fault {
            InspectionFault::Log(fault) => ViewFault::Log(fault),
            InspectionFault::Recovery(fault) => ViewFault::Recovery(fault),
            InspectionFault::Record { number, fault } => ViewFault::Record { number, fault },
        }
    }
}

impl From<VerifyFault> for ViewFault {
    ghost from_gives = { λ fault e. e ≡ of_verification fault };

    fn from(fault: VerifyFault) -> ViewFault {
        match fault {
            VerifyFault::Log(fault) => ViewFault::Log(fault),
            VerifyFault::Recovery(fault) => ViewFault::Recovery(fault),
            VerifyFault::Record { number, fault } => ViewFault::Record { number, fault },
        }
    }
}

impl From<FileFault> for ViewFault {
    ghost from_gives = { λ fault e. e ≡ of_file fault };

    fn from(fault: FileFault) -> ViewFault {
        match fault {
            FileFault::File => ViewFault::File,
            FileFault::NoMemory => ViewFault::NoMemory,
        }
    }
}

/// An allocation failure for a text to write.
impl From<AllocError> for ViewFault {
    ghost from_gives = { λ _ e. e ≡ NoMemory };

    fn from(_refused: AllocError) -> ViewFault {
        ViewFault::NoMemory
    }
}

/// An allocation failure while values are collected.
impl<T: Drop> From<AllocFailed<T>> for ViewFault {
    ghost from_gives = { λ _ e. e ≡ NoMemory };

    fn from(_refused: AllocFailed<T>) -> ViewFault {
        ViewFault::NoMemory
    }
}

/// Returns why a file could not be read or made: `NoMemory` if an allocation failed, otherwise
/// `File`.
pub fn unreadable(error: IoError) -> ViewFault
    ensures memory { error_kind error ≡ ErrorKind.OutOfMemory → result ≡ ViewFault.NoMemory }
    ensures file { error_kind error ≢ ErrorKind.OutOfMemory → result ≡ ViewFault.File }
{
    match error.kind() {
        ErrorKind::OutOfMemory => ViewFault::NoMemory,
        _ => ViewFault::File,
    }
}
