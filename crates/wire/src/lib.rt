//! Ports: the ways to the nodes of a running simulation.
#![tactic(auto)]

mod local;
mod port;

pub use local::LocalPort;
pub use port::{Port, PortFault, WireFault};
