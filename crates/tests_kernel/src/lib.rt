//! Tests of the simulation kernel through its public functions: messages, input queues, the plain
//! runner, processes, nodes, and the ledger. They have a crate of their own, since a crate with
//! tests is proved twice.
#![tactic(auto)]

#[cfg(test)]
mod arrivals;
#[cfg(test)]
mod ledgers;
#[cfg(test)]
mod messages;
#[cfg(test)]
mod nodes;
#[cfg(test)]
mod processes;
#[cfg(test)]
mod rows;
#[cfg(test)]
mod worlds;
