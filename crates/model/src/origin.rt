// Where a simulation begins that goes on from another one.

use crate::state::State;
use eventkey::{Listed, Message};

/// A world without its time and its log: the state and the send number of each process, and the
/// pending messages, ascending.
#[derive(Drop)]
pub struct Origin {
    /// The state of each process.
    pub states: Listed<State>,
    /// The send number of each process.
    pub numbers: Listed<u64>,
    /// The pending messages, the least first.
    pub pending: Listed<Message>,
}
