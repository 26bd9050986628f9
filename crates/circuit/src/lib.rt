//! Digital circuits of logic gates with delays, as a model: each gate is a logical process.
#![tactic(auto)]

mod circuit;
mod circuit_file;
mod parts;
mod waves;

pub use circuit::Circuit;
pub use circuit_file::CIRCUIT_KEYS;
pub use parts::{Gate, Wire};
pub use waves::{law_of_waves, wave};
