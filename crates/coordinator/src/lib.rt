//! Sessions: the coordinator of a running simulation, which commits what no rollback can reach to a
//! log on a disk.
#![tactic(auto)]

mod batch;
mod extending;
mod judge;
mod opening;
mod order;
mod ports;
mod session;
mod sessions;

use eventkey::Listed;
pub use extending::{Extended, extend};
pub use gvt::Answer;
use recovery::RecoveryFault;
pub use session::{FrontView, Session};
pub use sessions::{
    Resumed, law_of_judged_sessions, law_of_local_sessions, law_of_records, law_of_sessions, resume,
};
use thiserror::Error;
use wire::PortFault;

/// One step of a session.
#[derive(Drop)]
pub enum Step {
    /// Posts the messages at these places in transit to a node, which may handle at most `budget`
    /// messages.
    Post {
        node: u32,
        picks: Listed<u32>,
        budget: u32,
    },
    /// Takes the reply of a node.
    Take {
        node: u32,
    },
    /// Commits what no rollback can reach any more.
    Commit,
    /// Commits the same, but only after it has found that the gathered reports are those of the
    /// front: what the model does from there on, with each pending message and each send handled.
    /// So it trusts no node.
    JudgedCommit,
    /// Appends a checkpoint: the committed front without its log. An opening then replays only the
    /// records after it.
    Checkpoint,
    /// A checkpoint, and after it a seal, a record of 32 bytes: the SHA-256 of the records since
    /// the last seal, which an opening compares. If the disk has no room for the seal, the step is
    /// made without it, and the next seal covers what it would have covered.
    SealedCheckpoint,
}

/// Why a session refuses a call, or fails.
#[derive(Clone, Copy, Debug, PartialEq, Eq, Error)]
pub enum SessionFault {
    /// A parcel is outstanding at the node.
    #[error("Busy")]
    Busy,
    /// No parcel is outstanding at the node.
    #[error("Idle")]
    Idle,
    /// No node has this number.
    #[error("NoSuchNode")]
    NoSuchNode,
    /// A pick is not a place in transit, has a message for another node, or repeats another pick.
    #[error("NoSuchPick")]
    NoSuchPick,
    /// The record does not fit on the disk.
    #[error("Full")]
    Full,
    /// The port of a node failed.
    #[error("Port {0}")]
    Port(PortFault),
    /// The disk failed.
    #[error("Disk")]
    Disk,
    /// An allocation failed.
    #[error("NoMemory")]
    NoMemory,
    /// A send number would have passed 2^63.
    #[error("NumberLimit")]
    NumberLimit,
    /// The record would have more than 2^24 bytes.
    #[error("TooLong")]
    TooLong,
    /// The log of the disk could not be opened or recovered.
    #[error("Recovery {0}")]
    Recovery(RecoveryFault),
    /// An earlier fault ended the session.
    #[error("Spent")]
    Spent,
    /// The end is not above the end in force, or is above 2^40 ticks.
    #[error("EndRefused")]
    EndRefused,
    /// The gathered reports are not those of the front, so some node did not do what the model does.
    /// Only a judged commit finds this out.
    #[error("Reports")]
    Reports,
}

/// Why a list of steps stopped early: `done` steps were made, and the next one failed with `fault`.
#[derive(Clone, Copy, Debug, PartialEq, Eq)]
pub struct DriveFault {
    pub done: u64,
    pub fault: SessionFault,
}
