//! Models that are described by rules: a tree of statements says how a process starts, and another
//! one what it does with a message.
#![tactic(auto)]

mod arrays;
mod distributions;
mod evaluate;
mod limits;
mod operate;
mod parts;
mod quantiles;
mod rules;
mod tables;
mod tree;

pub use arrays::Array;
pub use limits::{
    Limit, MAX_DRAWS, MAX_LPS, MAX_SENDS, MAX_STEPS, RulesFault, block_cost, exceeded,
};
pub use parts::RulesParts;
pub use rules::Rules;
pub use tables::Table;
pub use tree::{Expression, Known, Law, Operator, Sending, Statement};
