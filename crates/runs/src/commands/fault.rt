// Why a command failed.

ghost use Rattle.std.specs.Prelude.{◌≡◌};

use crate::RunFault;
use commitlog::LogFault;
use coordinator::SessionFault;
use plain::PlainFault;
use recovery::RecoveryFault;
use std::alloc::{AllocError, AllocFailed};
use std::io::Error as IoError;
use thiserror::Error;
use upkeep::migration::MigrateFault;

/// Why a command failed. Printed as its name, followed by a space and the fault that it carries, if
/// any.
#[derive(Clone, Copy, Debug, PartialEq, Eq, Error)]
pub enum CommandFault {
    /// An allocation failed in a call without its own fault for it.
    #[error("NoMemory")]
    NoMemory,
    /// The log of the disk was not made, or not opened.
    #[error("Log {0}")]
    Log(LogFault),
    /// No world was recovered from the log.
    #[error("Recovery {0}")]
    Recovery(RecoveryFault),
    /// The session of a run refused its opening or a step; or a run without nodes was refused for
    /// the same cause.
    #[error("Session {0}")]
    Session(SessionFault),
    /// The run made all its rounds, or commits without nodes, before everything was committed.
    #[error("Rounds")]
    Rounds,
    /// The run was asked to stop, and stopped before its end with rounds, or commits, left.
    #[error("Stopped")]
    Stopped {
        /// The virtual time before which everything is committed, in ticks.
        time: u64,
        /// The number of committed events.
        events: usize,
    },
    /// A disk of format 1 was not migrated, or only in part.
    #[error("Migrate {0}")]
    Migrate(MigrateFault),
    /// The writer refused.
    #[error("Output")]
    Output,
}

impl From<AllocError> for CommandFault {
    ghost use Rattle.runs.specs.declared.commands.fault.CommandFault.TheVariants.{NoMemory};

    ghost from_gives = { λ _ e. e ≡ NoMemory };

    fn from(_refused: AllocError) -> CommandFault {
        CommandFault::NoMemory
    }
}

impl<T: Drop> From<AllocFailed<T>> for CommandFault {
    ghost use Rattle.runs.specs.declared.commands.fault.CommandFault.TheVariants.{NoMemory};

    ghost from_gives = { λ _ e. e ≡ NoMemory };

    fn from(_refused: AllocFailed<T>) -> CommandFault {
        CommandFault::NoMemory
    }
}

impl From<LogFault> for CommandFault {
    ghost use Rattle.runs.specs.declared.commands.fault.CommandFault.TheVariants.{Log};

    ghost from_gives = { λ fault e. e ≡ Log fault };

    fn from(fault: LogFault) -> CommandFault {
        CommandFault::Log(fault)
    }
}

impl From<RecoveryFault> for CommandFault {
    ghost use Rattle.runs.specs.declared.commands.fault.CommandFault.TheVariants.{Recovery};

    ghost from_gives = { λ fault e. e ≡ Recovery fault };

    fn from(fault: RecoveryFault) -> CommandFault {
        CommandFault::Recovery(fault)
    }
}

impl From<RunFault> for CommandFault {
    ghost use Rattle.runs.specs.Commands.{of_run};

    ghost from_gives = { λ fault e. e ≡ of_run fault };

    fn from(fault: RunFault) -> CommandFault {
        match fault {
            RunFault::Session(fault) => CommandFault::Session(fault),
            RunFault::Rounds => CommandFault::Rounds,
            RunFault::Stopped { time, events } => CommandFault::Stopped { time, events },
            RunFault::NoMemory => CommandFault::NoMemory,
        }
    }
}

/// A run without nodes has the faults of a session where the cause is the same.
impl From<PlainFault> for CommandFault {
    ghost use Rattle.runs.specs.Commands.{of_plain};

    ghost from_gives = { λ fault e. e ≡ of_plain fault };

    fn from(fault: PlainFault) -> CommandFault {
        match fault {
            PlainFault::Recovery(fault) => CommandFault::Session(SessionFault::Recovery(fault)),
            PlainFault::NumberLimit => CommandFault::Session(SessionFault::NumberLimit),
            PlainFault::TooLong => CommandFault::Session(SessionFault::TooLong),
            PlainFault::Full => CommandFault::Session(SessionFault::Full),
            PlainFault::Disk => CommandFault::Session(SessionFault::Disk),
            PlainFault::Commits => CommandFault::Rounds,
            PlainFault::Stopped { time, events } => CommandFault::Stopped { time, events },
            PlainFault::NoMemory => CommandFault::Session(SessionFault::NoMemory),
        }
    }
}

impl From<IoError> for CommandFault {
    ghost use Rattle.runs.specs.declared.commands.fault.CommandFault.TheVariants.{Output};

    ghost from_gives = { λ _ e. e ≡ Output };

    fn from(_error: IoError) -> CommandFault {
        CommandFault::Output
    }
}
