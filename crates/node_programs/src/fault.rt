// Why connecting to node programs, or serving a node, failed.

ghost use Rattle.std.specs.IoError.{error_kind};
ghost use Rattle.std.specs.Prelude.{◌≡◌, ◌≢◌};
ghost use Rattle.node_programs.specs.declared.fault.NodesFault.TheVariants.{Lost as LostCase, NoMemory};
ghost use Rattle.node_programs.specs.declared.fault.NodesFault.TheVariants.{Wire as WireCase};

use std::alloc::{AllocError, AllocFailed};
use std::io::{Error as IoError, ErrorKind};
use thiserror::Error;
use wire::{PortFault, WireFault};

/// Why connecting to node programs, or serving a node, failed.
#[derive(Clone, Copy, Debug, PartialEq, Eq, Error)]
pub enum NodesFault {
    /// A node's socket cannot be made, its program does not start or does not connect, or a node
    /// cannot connect to its socket.
    #[error("File")]
    File,
    /// An allocation failed.
    #[error("NoMemory")]
    NoMemory,
    /// What a node received is not a frame allowed at that point, or its connection failed.
    #[error("Wire {0}")]
    Wire(WireFault),
    /// The run takes part in another simulation than the node that is served.
    #[error("OtherModel")]
    OtherModel,
    /// A node program takes part in another simulation than the run.
    #[error("Node {node} OtherModel")]
    OtherNode {
        /// The number of the node.
        node: usize,
    },
    /// A node program was lost before it said in which simulation it takes part, or answered
    /// something else.
    #[error("Port {0}")]
    Lost(PortFault),
}

impl From<WireFault> for NodesFault {
    ghost from_gives = { λ fault e. e ≡ WireCase fault };

    fn from(fault: WireFault) -> NodesFault {
        NodesFault::Wire(fault)
    }
}

/// A node program did not take or answer a hello.
impl From<PortFault> for NodesFault {
    ghost from_gives = { λ fault e. e ≡ LostCase fault };

    fn from(fault: PortFault) -> NodesFault {
        NodesFault::Lost(fault)
    }
}

/// An allocation for a path failed.
impl From<AllocError> for NodesFault {
    ghost from_gives = { λ _ e. e ≡ NoMemory };

    fn from(_refused: AllocError) -> NodesFault {
        NodesFault::NoMemory
    }
}

/// An allocation for a list failed.
impl<T: Drop> From<AllocFailed<T>> for NodesFault {
    ghost from_gives = { λ _ e. e ≡ NoMemory };

    fn from(_refused: AllocFailed<T>) -> NodesFault {
        NodesFault::NoMemory
    }
}

/// The fault for a failed call on a socket or a program.
pub(crate) fn unreadable(error: IoError) -> NodesFault
    ensures memory { error_kind error ≡ ErrorKind.OutOfMemory → result ≡ NodesFault.NoMemory }
    ensures file { error_kind error ≢ ErrorKind.OutOfMemory → result ≡ NodesFault.File }
{
    match error.kind() {
        ErrorKind::OutOfMemory => NodesFault::NoMemory,
        _ => NodesFault::File,
    }
}
