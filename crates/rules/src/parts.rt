// The parts of a model that is described by rules.

use crate::tables::Table;
use crate::tree::Statement;

/// The parts of a model that is described by rules.
#[derive(Debug, Drop)]
pub struct RulesParts {
    /// The number of processes, 1 to `MAX_LPS`.
    pub lps: u32,
    /// The words that, after 102, distinguish this model from others: a digest of what its
    /// description means.
    pub digest: [u64; 4],
    /// The number of words of a state, at most 16.
    pub width: u8,
    /// The place of the key of drawn words in the state, if the state has it. Without a key each
    /// process draws the words of the key 0.
    pub key: Option<u8>,
    /// The key with which each process starts, below 2^63.
    pub seed: u64,
    /// The tables that rules read.
    pub tables: Vec<Table>,
    /// What a process does when it starts.
    pub start: Vec<Statement>,
    /// What a process does with a message.
    pub handle: Vec<Statement>,
}
