// Faults of the program.

use commitlog::LogFault;
use disk::FileFault;
use model::WorldFault;
use node::NodeFault;
use std::alloc::{AllocError, AllocFailed};
use std::io;
use texts::ModelFault;
use thiserror::Error;

/// Why the program stops.
#[derive(Debug, Drop, Error)]
pub enum Failure {
    #[error("usage: bench commits FILE SECTORS BYTES COUNT | runs MODEL [node [N]] | rules MODEL")]
    Usage,
    #[error("{0}")]
    File(FileFault),
    #[error("Log {0}")]
    Log(LogFault),
    #[error("{0}")]
    Model(ModelFault),
    #[error("World {0}")]
    World(WorldFault),
    #[error("Node {0}")]
    Node(NodeFault),
    #[error("NoMemory")]
    Memory,
    #[error("{0}")]
    Output(io::Error),
}

impl From<AllocError> for Failure {
    fn from(_fault: AllocError) -> Failure {
        Failure::Memory
    }
}

impl<T: Drop> From<AllocFailed<T>> for Failure {
    fn from(_fault: AllocFailed<T>) -> Failure {
        Failure::Memory
    }
}
