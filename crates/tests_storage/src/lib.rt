//! Tests of disks, of the log, of recovery, of segments, of archives and of migration through their public functions, over
//! real files and doubles. They have a crate of their own, so that a change of a test does not
//! prove a library again.
#![tactic(auto)]

#[cfg(test)]
mod archives;
#[cfg(test)]
mod chains;
#[cfg(test)]
mod closed;
#[cfg(test)]
mod doubles;
#[cfg(test)]
mod files;
#[cfg(test)]
mod images;
#[cfg(test)]
mod logs;
#[cfg(test)]
mod memory;
#[cfg(test)]
mod opening;
#[cfg(test)]
mod recoveries;
#[cfg(test)]
mod shared;
#[cfg(test)]
mod storing;
