//! Tests of sessions, of whole runs over nodes and of plain runs, through their public functions.
//! They have a crate of their own, since a crate with tests is proved twice.
//!
//! The tests of `refusals` meet one allocation failure. With enough memory each call succeeds at
//! once. `rt try --test --fail-alloc N` refuses allocation `N`, and `tools/refuse-allocations` each
//! in turn. The call that meets the refusal reports it as out of memory, and each of these tests
//! still passes.
#![tactic(auto)]

#[cfg(test)]
mod disks;
#[cfg(test)]
mod driving;
#[cfg(test)]
mod extended;
#[cfg(test)]
mod grown;
#[cfg(test)]
mod histories;
#[cfg(test)]
mod kept;
#[cfg(test)]
mod refusals;
#[cfg(test)]
mod sessions;
#[cfg(test)]
mod steps;
#[cfg(test)]
mod stopped;
