//! Runs: rounds of steps of a session until everything up to the end is committed, and whole
//! simulations on a disk in one call, for programs without a command line.
#![tactic(auto)]

mod budgets;
pub mod commands;
mod fault;
mod local;
mod over;
mod picks;
mod rounds;
mod simulating;
mod tally;

pub use fault::SimulationFault;
pub use local::{local_ports, run_local};
pub use over::{Finished, run_over};
pub use rounds::{Batch, Plan, RunFault, Schedule, Watch, run_session};
pub use simulating::{Outcome, committed, prepare, run, sequential, simulate};
pub use tally::Turn;
