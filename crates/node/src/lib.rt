//! A node: some of the logical processes of a simulation; it handles parcels.
#![tactic(auto)]

ghost use Rattle.std.specs.Prelude.{◌≡◌};
ghost use Rattle.node.specs.Fault.{fault_of};
ghost use Rattle.node.specs.Kept.{HistoriesBegin, ReleasingIsKept, WorkIsKept};
ghost use Rattle.node.specs.declared.NodeFault.TheVariants.{NoMemory};

mod blocks;
mod node;
mod roster;
mod summary;
mod times;
mod tournament;

use eventkey::{Listed, Message, Signed};
use model::State;
pub use node::Node;
use process::{ProcessFault, Reports};
use std::alloc::{AllocError, AllocFailed};
use thiserror::Error;

/// One process of a load.
#[derive(Drop)]
pub struct Part {
    /// The number of the process.
    pub lp: u32,
    /// The send number of the process, at most 2^63.
    pub number: u64,
    /// The state words of the process, at most 16.
    pub words: State,
    /// The messages that wait for the process, in any order.
    pub pending: Listed<Message>,
}

/// The maximum number of nodes of a run.
pub const MOST_NODES: u32 = 64;

/// The data from which a node is loaded.
#[derive(Drop)]
pub struct Load {
    /// The number of the node, below `nodes`.
    pub node: u32,
    /// The number of nodes, 1 to 64: process lp is on node lp mod `nodes`.
    pub nodes: u32,
    /// The end, in ticks, at most 2^40: no message at or after it is handled.
    pub end: u64,
    /// The floor, in ticks: no message before it arrives.
    pub floor: u64,
    /// The processes of the node, ascending.
    pub parts: Listed<Part>,
}

/// A parcel for a node: messages and antimessages for its processes, the number of messages that it
/// may handle, and the floor below which it releases its handlings.
#[derive(Drop)]
pub struct Parcel {
    /// The messages and antimessages, in the order of arrival.
    pub deliver: Listed<Signed>,
    /// The greatest number of messages that the node handles.
    pub budget: u32,
    /// The floor, in ticks, at least that of the node.
    pub floor: u64,
}

/// The reply of a node to a parcel.
#[derive(Drop)]
pub struct Reply {
    /// The messages and antimessages that the node sent, in the order in which they were made.
    pub out: Listed<Signed>,
    /// The least time, in ticks, of the messages and antimessages that wait at the node, or `None`
    /// if none waits.
    pub low: Option<u64>,
    /// The handlings below the floor, by process ascending, those of each process in order.
    pub fossils: Reports,
    /// The number of messages that the node handled.
    pub ran: u32,
}

/// The reason why a node refuses a load or a parcel.
#[derive(Clone, Copy, Debug, PartialEq, Eq, Error)]
pub enum NodeFault {
    /// A message is for a process of another node, or the parts of a load are not the processes of
    /// the node, ascending, or have messages for other processes.
    #[error("NotMine")]
    NotMine,
    /// The time of a message or an antimessage is below the floor of the node.
    #[error("BelowFloor")]
    BelowFloor,
    /// An allocation failed.
    #[error("NoMemory")]
    NoMemory,
    /// A send number would pass 2^63.
    #[error("NumberLimit")]
    NumberLimit,
    /// Poisoned by an earlier allocation failure or by the number limit.
    #[error("Spent")]
    Spent,
    /// The floor of a parcel is below that of the node.
    #[error("FloorFell")]
    FloorFell,
}

impl From<AllocError> for NodeFault {
    ghost from_gives = { λ _ e. e ≡ NoMemory };

    fn from(_refused: AllocError) -> NodeFault {
        NodeFault::NoMemory
    }
}

impl<T: Drop> From<AllocFailed<T>> for NodeFault {
    ghost from_gives = { λ _ e. e ≡ NoMemory };

    fn from(_refused: AllocFailed<T>) -> NodeFault {
        NodeFault::NoMemory
    }
}

impl From<ProcessFault> for NodeFault {
    ghost from_gives = { λ p e. e ≡ fault_of p };

    fn from(fault: ProcessFault) -> NodeFault {
        match fault {
            ProcessFault::NotMine => NodeFault::NotMine,
            ProcessFault::BelowFloor => NodeFault::BelowFloor,
            ProcessFault::NoMemory => NodeFault::NoMemory,
            ProcessFault::NumberLimit => NodeFault::NumberLimit,
            ProcessFault::Spent => NodeFault::Spent,
        }
    }
}

/// States the invariants that a node keeps of its processes: while it handles a parcel whose
/// messages are not before a time, and when it releases the handlings that it reports.
pub fn law_of_work()
    ensures kept { WorkIsKept }
    ensures released { ReleasingIsKept }
{}

/// States that the handlings of a loaded node are what the model does. They stay so after any
/// parcels, since `Node::handle` keeps it.
pub fn law_of_histories()
    ensures { HistoriesBegin }
{}
