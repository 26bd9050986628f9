// The faults of simulations.

ghost use Rattle.std.specs.Prelude.{◌≡◌};
ghost use Rattle.runs.specs.Simulation.{of_file, of_run};
ghost use Rattle.runs.specs.declared.fault.SimulationFault.TheVariants.{Log as LogCase};
ghost use Rattle.runs.specs.declared.fault.SimulationFault.TheVariants.{NoMemory, Output};
ghost use Rattle.runs.specs.declared.fault.SimulationFault.TheVariants.{World as WorldCase};
ghost use Rattle.runs.specs.declared.fault.SimulationFault.TheVariants.{Recovery as RecoveryCase};

use crate::RunFault;
use commitlog::LogFault;
use coordinator::SessionFault;
use disk::FileFault;
use model::WorldFault;
use recovery::RecoveryFault;
use std::alloc::{AllocError, AllocFailed};
use std::io::Error as IoError;
use thiserror::Error;

/// Why a call failed: one type for all faults that a program with a simulation in it meets, so that
/// `?` converts each. Its text is the name of the fault, then a space and the fault that it
/// carries, if any.
#[derive(Clone, Copy, Debug, PartialEq, Eq, Error)]
pub enum SimulationFault {
    /// A file could not be opened as a disk (`FileDisk::open`).
    #[error("File")]
    File,
    /// The log of the disk could not be made or opened.
    #[error("Log {0}")]
    Log(LogFault),
    /// No world could be recovered from the log.
    #[error("Recovery {0}")]
    Recovery(RecoveryFault),
    /// The session of a run refused its opening or a step.
    #[error("Session {0}")]
    Session(SessionFault),
    /// All rounds of a run were made before everything was committed.
    #[error("Rounds")]
    Rounds,
    /// A run was asked to stop, and stopped before everything was committed.
    #[error("Stopped")]
    Stopped,
    /// The sequential runner refused.
    #[error("World {0}")]
    World(WorldFault),
    /// An allocation failed in a call that has no other name for it.
    #[error("NoMemory")]
    NoMemory,
    /// A writer refused what the program writes of its results.
    #[error("Output")]
    Output,
}

impl From<FileFault> for SimulationFault {
    ghost from_gives = { λ fault e. e ≡ of_file fault };

    fn from(fault: FileFault) -> SimulationFault {
        match fault {
            FileFault::File => SimulationFault::File,
            FileFault::NoMemory => SimulationFault::NoMemory,
        }
    }
}

impl From<LogFault> for SimulationFault {
    ghost from_gives = { λ fault e. e ≡ LogCase fault };

    fn from(fault: LogFault) -> SimulationFault {
        SimulationFault::Log(fault)
    }
}

impl From<RecoveryFault> for SimulationFault {
    ghost from_gives = { λ fault e. e ≡ RecoveryCase fault };

    fn from(fault: RecoveryFault) -> SimulationFault {
        SimulationFault::Recovery(fault)
    }
}

impl From<RunFault> for SimulationFault {
    ghost from_gives = { λ fault e. e ≡ of_run fault };

    fn from(fault: RunFault) -> SimulationFault {
        match fault {
            RunFault::Session(fault) => SimulationFault::Session(fault),
            RunFault::Rounds => SimulationFault::Rounds,
            RunFault::Stopped { .. } => SimulationFault::Stopped,
            RunFault::NoMemory => SimulationFault::NoMemory,
        }
    }
}

impl From<WorldFault> for SimulationFault {
    ghost from_gives = { λ fault e. e ≡ WorldCase fault };

    fn from(fault: WorldFault) -> SimulationFault {
        SimulationFault::World(fault)
    }
}

impl From<AllocError> for SimulationFault {
    ghost from_gives = { λ _ e. e ≡ NoMemory };

    fn from(_refused: AllocError) -> SimulationFault {
        SimulationFault::NoMemory
    }
}

impl<T: Drop> From<AllocFailed<T>> for SimulationFault {
    ghost from_gives = { λ _ e. e ≡ NoMemory };

    fn from(_refused: AllocFailed<T>) -> SimulationFault {
        SimulationFault::NoMemory
    }
}

impl From<IoError> for SimulationFault {
    ghost from_gives = { λ _ e. e ≡ Output };

    fn from(_error: IoError) -> SimulationFault {
        SimulationFault::Output
    }
}
