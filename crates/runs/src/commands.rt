// The commands on a disk: make an empty log for a simulation, run it to its end, extend it to a
// later end, print what is committed, and migrate a disk of format 1 to a new disk.

mod fault;
mod migrating;
mod on_disks;
mod plainly;
mod printing;

pub use fault::CommandFault;
pub use migrating::{migrate, old_log};
pub use on_disks::{Simulated, committed, extend, new, run, run_over};
pub use plainly::run_plain;
pub use printing::write_stopped;
