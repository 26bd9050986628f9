//! A port to a node behind bytes in memory, with frames between the session and the node, and
//! sessions over such ports.
#![tactic(auto)]

mod port;
mod ports;
mod sending;
mod sessions;

pub use port::LoopPort;
pub use ports::loop_ports;
pub use sessions::resume_behind_bytes;
