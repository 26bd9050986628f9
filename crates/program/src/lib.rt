//! The program `timewarp`, over any kind of model, files and writers: from the words of its command
//! line to an exit status.
#![tactic(auto)]

mod attempts;
mod described;
mod ending;
mod helping;
mod making;
mod outcomes;
mod parts;
mod plainly;
mod running;
mod starting;
mod status;
mod version;
mod watching;

pub use described::simulated;
pub use disk_commands::Fault;
pub use outcomes::of_command;
pub use starting::start;
pub use status::{About, answer, command, print_fault, refuse_words, words};
pub use terminal::{Progress, TerminalProgress, Traced, Way};
pub use views::{SegmentFault, ViewFault, check, seq};
