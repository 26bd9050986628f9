//! What others time and kill, by the first word of the command line: `commits` appends records to
//! the log of a disk over a file, `runs` runs the model of a model file, and `rules` a model by
//! rules or the built-in one of the same name. Without words, each of them runs in small.
//!
//! It prints no times, so that its output is the same in each run; others measure it.
#![tactic(auto)]

mod commits;
mod failure;
mod plain;
mod whole_node;

use failure::Failure;
use std::env;

/// What runs without words.
const SMALL: [&[&str]; 4] = [
    &["commits", "disk.img", "64", "137", "3"],
    &["runs", "phold.toml"],
    &["runs", "phold.toml", "node"],
    &["rules", "shop.toml"],
];

fn number(word: &str) -> Result<u32, Failure> {
    word.parse::<u32>().map_err(|_| Failure::Usage)
}

/// Runs what these words ask for. The budget of a node's parcels is 16 unless a number is given.
fn start(rt: &HostRuntime, words: &[&str]) -> Result<(), Failure> {
    match words {
        ["commits", path, sectors, bytes, count] => {
            commits::append_all(rt, path, number(sectors)?, number(bytes)?, number(count)?)
        }
        ["runs", path] => plain::run(rt, path),
        ["runs", path, "node"] => whole_node::run(rt, path, 16),
        ["runs", path, "node", budget] => whole_node::run(rt, path, number(budget)?),
        ["rules", path] => plain::run_rules(rt, path),
        _ => Err(Failure::Usage),
    }
}

fn main(rt: HostRuntime) -> Result<(), Failure> {
    let mut given = Vec::new(rt.alloc());
    for word in env::args(&rt).map_err(|_| Failure::Usage)?.skip(1) {
        given.push(word)?;
    }
    let mut words = Vec::new(rt.alloc());
    for word in given.as_slice() {
        words.push(word.as_str())?;
    }
    if !words.is_empty() {
        return start(&rt, words.as_slice());
    }
    for words in SMALL {
        start(&rt, words)?;
    }
    Ok(())
}
