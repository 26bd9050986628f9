// What to write in place of words that are refused, where `clap`'s text does not say it.

use crate::values::range_of;
use crate::words::says_large;
use std::convert::AsStr;
use thiserror::Error;

/// What to write in place of a refused word.
#[derive(Clone, Copy, Debug, PartialEq, Eq, Error)]
pub enum UsageHint {
    /// The batch is neither a number nor `auto`.
    #[error("'--batch' takes a number from 1 to 4294967295, or 'auto'")]
    Batch,
    /// The number of rounds is neither a number nor `unlimited`.
    #[error("'--rounds' takes a number from 1 to 4294967295, or 'unlimited'")]
    Rounds,
    /// The number of events of which one is judged is neither a number nor `all`.
    #[error("'--judge' takes a number from 0 to 4294967295, or 'all'")]
    Judge,
    /// The processes are not a range.
    #[error("'--processes' takes the first and the last process, as '3..3' or '0..7'")]
    Processes,
    /// The number of sectors is that of a large disk.
    #[error("'--sectors' takes up to 16777216 with '--large'")]
    Large,
    /// The number of this option is negative.
    #[error("'--{0}' takes a whole number that is not negative")]
    Negative(&'static str),
}

/// The options that take numbers.
const NUMBERS: &[&str] = &[
    "sectors",
    "nodes",
    "rounds",
    "checkpoint",
    "commit-every",
    "cut",
    "judge",
    "silence",
    "retries",
    "keep",
    "progress",
    "from",
    "to",
    "warm-up",
    "process",
    "parcels",
    "seed",
];

/// What to write in place of the first word for which there is a hint. The first word is the
/// program's own name. The words are those of a command that was refused: a hint for others may be
/// wrong.
pub fn hint_of<S: AsStr>(words: &[S]) -> Option<UsageHint> {
    let large = says_large(words);
    let makes = is_new(words);
    let mut before = "";
    for word in words {
        let word = word.as_str();
        if word == "--" {
            return None;
        }
        let (option, value) = parts_of(before, word);
        let hint = hint_at(option, value, large, makes);
        if hint.is_some() {
            return hint;
        }
        before = word;
    }
    None
}

/// The option and the value that a word gives: both as `--option=value`, or a value after an
/// option.
fn parts_of<'a>(before: &'a str, word: &'a str) -> (&'a str, &'a str) {
    match word.split_once('=') {
        Some(parts) if word.starts_with("--") => parts,
        _ => (before, word),
    }
}

/// Whether the words begin with the command `new`, whose `--from` takes a file.
fn is_new<S: AsStr>(words: &[S]) -> bool {
    match words.get(1) {
        Some(word) => word.as_str() == "new",
        None => false,
    }
}

/// The hint for the value of an option, of `new` or another command, if there is one.
fn hint_at(option: &str, value: &str, large: bool, makes: bool) -> Option<UsageHint> {
    let name = option.strip_prefix("--")?;
    match name {
        "from" if makes => None,
        "batch" if !is_count(value, "auto", 1) => Some(UsageHint::Batch),
        "rounds" if !is_count(value, "unlimited", 1) => Some(UsageHint::Rounds),
        "judge" if !is_count(value, "all", 0) => Some(UsageHint::Judge),
        "processes" if range_of(value).is_none() => Some(UsageHint::Processes),
        "sectors" if !large && is_of_large(value) => Some(UsageHint::Large),
        _ if is_negative(value) => negative(name),
        _ => None,
    }
}

/// The hint for a negative number of this option, if it takes a number.
fn negative(name: &str) -> Option<UsageHint> {
    for known in NUMBERS {
        if *known == name {
            return Some(UsageHint::Negative(known));
        }
    }
    None
}

/// Whether a text is this word, or a number from `least` on.
fn is_count(text: &str, word: &str, least: u32) -> bool {
    text == word || text.parse::<u32>().is_ok_and(|number| number >= least)
}

/// Whether a text is a number of sectors that only a large disk has.
fn is_of_large(text: &str) -> bool {
    text.parse::<u32>()
        .is_ok_and(|number| 131_072 < number && number <= 16_777_216)
}

/// Whether a text is a negative number.
fn is_negative(text: &str) -> bool {
    text.parse::<i64>().is_ok_and(|number| number < 0)
}
