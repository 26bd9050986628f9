// What `--set` and `--seed` set among the words.

ghost use Rattle.std.specs.Prelude.{◌≡◌, ◌++◌, [], codes, drop, map, option_map, IfOk, OnOk};
ghost use Rattle.std.specs.Str.{bytes_eq};
ghost use Rattle.cli.specs.Command.{set_alone, set_by, setting_of, setting_said, settings_after};
ghost use Rattle.cli.specs.Command.{settings_of, with_setting};

use std::alloc::{AllocError, Global};
use std::convert::AsStr;

/// Returns what the words set, in their order: `--set NAME=VALUE` sets the value of this name, and
/// `--seed N` that of `seed`, before any word `--`. The first word is the program's own name. The
/// answer counts for words that `read_command` accepts.
///
/// Of a `--set` without `=` the name is all of its text, and the value is empty.
pub fn settings_of<S: AsStr>(alloc: Global, words: &[S]) -> Result<Vec<(&str, &str)>, AllocError>
    ensures { IfOk result (λ set. map (λ s. (s.0.now, s.1.now)) set.items
        ≡ settings_of (drop 1 (map S.text words.now))) }
{
    if words.is_empty() {
        return Ok(Vec::new(alloc));
    }
    settings_among(alloc, &words[1..])
}

/// Returns what these words set, before any word `--`.
fn settings_among<S: AsStr>(alloc: Global, words: &[S]) -> Result<Vec<(&str, &str)>, AllocError>
    ensures { IfOk result (λ set. map (λ s. (s.0.now, s.1.now)) set.items
        ≡ settings_after [] (map S.text words.now)) }
{
    let mut set = Vec::new(alloc);
    let mut before = "";
    for word in words {
        let word = word.as_str();
        if is_end(word) {
            return Ok(set);
        }
        add(&mut set, set_by(before, word))?;
        before = word;
    }
    Ok(set)
}

/// Whether the options end at this word.
fn is_end(word: &str) -> bool
    ensures { result ≡ bytes_eq word.now (codes "--") }
{
    word == "--"
}

/// Adds a setting, if there is one.
fn add<'a>(
    set: &mut Vec<(&'a str, &'a str)>,
    setting: Option<(&'a str, &'a str)>,
) -> Result<(), AllocError>
    ensures { OnOk result (map (λ s. (s.0.now, s.1.now)) set.new.items
        ≡ map (λ s. (s.0.now, s.1.now)) set.old.items
        ++ with_setting (option_map (λ s. (s.0.now, s.1.now)) setting.entry) []) }
{
    if let Some(setting) = setting {
        set.push(setting)?;
    }
    Ok(())
}

/// What this word sets after the one before it.
fn set_by<'a>(before: &'a str, word: &'a str) -> Option<(&'a str, &'a str)>
    ensures { option_map (λ s. (s.0.now, s.1.now)) result ≡ set_by before.now word.now }
{
    match before {
        "--set" => Some(setting_of(word)),
        "--seed" => Some(("seed", word)),
        _ => set_alone(word),
    }
}

/// What this word sets if it is an option with its value.
fn set_alone(word: &str) -> Option<(&str, &str)>
    ensures { option_map (λ s. (s.0.now, s.1.now)) result ≡ set_alone word.now }
{
    let (option, value) = word.split_once('=')?;
    setting_said(option, value)
}

/// What an option that has its value after `=` sets.
fn setting_said<'a>(option: &'a str, value: &'a str) -> Option<(&'a str, &'a str)>
    ensures { option_map (λ s. (s.0.now, s.1.now)) result ≡ setting_said option.now value.now }
{
    match option {
        "--set" => Some(setting_of(value)),
        "--seed" => Some(("seed", value)),
        _ => None,
    }
}

/// The name and the value of a text `NAME=VALUE`.
fn setting_of(text: &str) -> (&str, &str)
    ensures name { result.0.now ≡ (setting_of text.now).0 }
    ensures value { result.1.now ≡ (setting_of text.now).1 }
{
    text.split_once('=').unwrap_or((text, ""))
}
