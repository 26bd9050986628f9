//! Tests of what the program does with a command line, through its public functions. They have a
//! crate of their own, since a crate with tests is proved twice.
#![tactic(auto)]

#[cfg(test)]
mod apart;
#[cfg(test)]
mod calls;
#[cfg(test)]
mod faults;
#[cfg(test)]
mod flushing;
#[cfg(test)]
mod hints;
#[cfg(test)]
mod memory;
#[cfg(test)]
mod names;
#[cfg(test)]
mod running;
#[cfg(test)]
mod shown;
#[cfg(test)]
mod verified;
#[cfg(test)]
mod words;
#[cfg(test)]
mod writers;
