//! Tests of nodes behind bytes, through public functions: frames, the loop that serves a node, ports
//! to nodes, and sessions over them. They have a crate of their own, since a crate with tests is
//! proved twice.
#![tactic(auto)]

#[cfg(test)]
mod beside;
#[cfg(test)]
mod errors;
#[cfg(test)]
mod frames_of_ring;
#[cfg(test)]
mod hellos;
#[cfg(test)]
mod in_memory;
#[cfg(test)]
mod judged;
#[cfg(test)]
mod lies;
#[cfg(test)]
mod loads;
#[cfg(test)]
mod opened;
#[cfg(test)]
mod ports;
#[cfg(test)]
mod rounds;
#[cfg(test)]
mod rows;
#[cfg(test)]
mod sessions;
#[cfg(test)]
mod socket_ports;
#[cfg(test)]
mod steps;
#[cfg(test)]
mod streams;
#[cfg(test)]
mod turns;
