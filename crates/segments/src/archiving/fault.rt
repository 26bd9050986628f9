// Why a disk is not archived.

ghost use Rattle.std.specs.Prelude.{◌≡◌};

use commitlog::LogFault;
use disk::{FileError, FileFault, SystemError};
use recovery::RecoveryFault;
use std::alloc::AllocError;
use std::io::Error as IoError;
use thiserror::Error;

/// Why a disk is not archived. The disk is as it was, under its name.
#[derive(Clone, Copy, Debug, PartialEq, Eq, Error)]
pub enum ArchiveFault {
    /// The name of the part or of the next disk belongs to another file, the disk's own name does
    /// not lead to it any more, another program has one of the files, or a call on them failed.
    #[error("File")]
    File,
    /// The next disk has no room for the origin of its simulation, or no event was committed on
    /// the full one, so that the next one would be full too.
    #[error("Full")]
    Full,
    /// The origin would have more bytes than a record takes.
    #[error("TooLong")]
    TooLong,
    /// Under the name of the next disk is a log that does not go on from this world.
    #[error("NotTheNext")]
    NotTheNext,
    /// The world of the full disk was not recovered.
    #[error("{0}")]
    Recovery(RecoveryFault),
    /// The log of the next disk was not made.
    #[error("{0}")]
    Log(LogFault),
    /// An allocation failed.
    #[error("NoMemory")]
    NoMemory,
}

/// The same with the system's error, if a call on a file failed.
#[derive(Clone, Copy)]
pub(crate) struct Refused {
    pub fault: ArchiveFault,
    pub system: Option<SystemError>,
}

impl From<ArchiveFault> for Refused {
    ghost from_gives = { λ fault e. e.fault ≡ fault };

    fn from(fault: ArchiveFault) -> Refused {
        Refused {
            fault,
            system: None,
        }
    }
}

impl From<IoError> for Refused {
    fn from(error: IoError) -> Refused {
        Refused {
            fault: ArchiveFault::File,
            system: SystemError::of(&error),
        }
    }
}

impl From<AllocError> for Refused {
    fn from(_refused: AllocError) -> Refused {
        Refused::from(ArchiveFault::NoMemory)
    }
}

impl From<FileError> for Refused {
    fn from(error: FileError) -> Refused {
        let fault = match error.fault {
            FileFault::File => ArchiveFault::File,
            FileFault::NoMemory => ArchiveFault::NoMemory,
        };
        Refused {
            fault,
            system: error.system,
        }
    }
}

impl From<LogFault> for Refused {
    fn from(fault: LogFault) -> Refused {
        Refused::from(match fault {
            LogFault::Full => ArchiveFault::Full,
            LogFault::TooLong => ArchiveFault::TooLong,
            LogFault::NoMemory => ArchiveFault::NoMemory,
            fault => ArchiveFault::Log(fault),
        })
    }
}
