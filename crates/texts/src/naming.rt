// A mistake of a name in a list or a table of names, at its place in the file.

use crate::findings::NameMistake;
use crate::printable::Printable;
use crate::report::{Place, column_of, write_line};
use std::fmt;

/// Writes the mistake of a name, its line, and a mark below its place.
pub(crate) fn write_named<W: fmt::Write>(
    f: &mut fmt::Formatter<W>,
    path: &str,
    file: &[u8],
    mistake: &NameMistake,
) -> fmt::Result {
    let path = Printable(path);
    match place_of(file, mistake) {
        Some(place) => {
            let (line, column) = (place.line, place.column);
            writeln!(f, "  {path}:{line}:{column}: {mistake}")?;
            write_line(f, place)
        }
        None => writeln!(f, "  {path}: {mistake}"),
    }
}

/// What the lines of a file belong to.
#[derive(Clone, Copy, PartialEq, Eq)]
enum Part {
    /// Other keys.
    Other,
    /// The value of the list's key, which began on an earlier line.
    Value,
    /// The table with the list's key as its header.
    Table,
}

/// Where a name begins in a file, or its value, if the file has the name without escapes. For a
/// mistake of no name, where the value of the list begins.
fn place_of<'a>(file: &'a [u8], mistake: &NameMistake) -> Option<Place<'a>> {
    let file = str::from_utf8(file).ok()?;
    let mut before = mistake.before;
    let mut part = Part::Other;
    let mut line = 0usize;
    for content in file.split('\n') {
        let content = content.trim_end();
        line = line.saturating_add(1);
        let (next, rest) = part_of(part, content, mistake.list);
        part = next;
        let found = match rest {
            Some(rest) => found_in(rest, mistake, &mut before),
            None => None,
        };
        if let Some(found) = found {
            return Some(Place {
                line,
                column: column_of(content, found),
                content,
            });
        }
    }
    None
}

/// What the line after this one belongs to, and the end of this line that may have the name.
fn part_of<'a>(part: Part, line: &'a str, list: &str) -> (Part, Option<&'a str>) {
    let begin = line.trim_start();
    match part {
        Part::Value => (
            if is_closed(line) {
                Part::Other
            } else {
                Part::Value
            },
            Some(line),
        ),
        Part::Table if !begin.starts_with('[') => (Part::Table, Some(line)),
        Part::Table | Part::Other => {
            if is_header(begin, list) {
                return (Part::Table, None);
            }
            match behind_list(begin, list) {
                Some(rest) => (
                    if is_open(rest) {
                        Part::Value
                    } else {
                        Part::Other
                    },
                    Some(rest),
                ),
                None => (Part::Other, None),
            }
        }
    }
}

/// Whether a line is the header of a table.
fn is_header(line: &str, list: &str) -> bool {
    match line.strip_prefix('[') {
        Some(rest) => match rest.split_once(']') {
            Some((name, _)) => name.trim_matches([' ', '\t', '"', '\'']) == list,
            None => false,
        },
        None => false,
    }
}

/// The value after the list's key, or the name after the key and a dot.
fn behind_list<'a>(line: &'a str, list: &str) -> Option<&'a str> {
    let rest = line.trim_start_matches(['"', '\'']).strip_prefix(list)?;
    let rest = rest.trim_start_matches(['"', '\'', ' ', '\t']);
    match rest.strip_prefix('=') {
        Some(value) => Some(value.trim_start()),
        None => rest.strip_prefix('.'),
    }
}

/// Whether a list begins that does not end on this line.
fn is_open(value: &str) -> bool {
    value.starts_with('[') && !is_closed(value)
}

/// Whether a list ends on a line: a bracket closes it, outside of quotes and before a comment.
fn is_closed(line: &str) -> bool {
    let mut quote = None;
    for letter in line.chars() {
        match quote {
            Some(mark) => {
                if letter == mark {
                    quote = None;
                }
            }
            None => match letter {
                ']' => return true,
                '#' => return false,
                '"' | '\'' => quote = Some(letter),
                _ => {}
            },
        }
    }
    false
}

/// The number of names on a line that are compared, so that a long line costs hardly more than a
/// pass.
const TRIES: usize = 64;

/// The end of a line from the name on, or from its value on. `before` is the number of equal names
/// that come before it.
fn found_in<'a>(line: &'a str, mistake: &NameMistake, before: &mut usize) -> Option<&'a str> {
    let name = mistake.name.as_str();
    if name.is_empty() {
        return Some(line);
    }
    let mut rest = line;
    for _ in 0..TRIES {
        let (passed, behind) = rest.split_once(name)?;
        if is_name_between(passed, behind) {
            if *before == 0 {
                return if mistake.is_value {
                    value_behind(behind)
                } else {
                    rest.get(passed.len()..)
                };
            }
            *before = before.saturating_sub(1);
        }
        rest = behind;
    }
    None
}

/// Whether a name stands by itself between two texts: in quotes, or as a key.
fn is_name_between(passed: &str, behind: &str) -> bool {
    let is_quoted = passed.ends_with(['"', '\'']) && behind.starts_with(['"', '\'']);
    let is_apart = match passed.chars().next_back() {
        Some(letter) => !letter.is_alphanumeric() && letter != '_' && letter != '-',
        None => true,
    };
    is_quoted || is_apart && value_behind(behind).is_some()
}

/// The value of a key after which this text stands.
fn value_behind(behind: &str) -> Option<&str> {
    let rest = behind.trim_start_matches(['"', '\'']).trim_start();
    Some(rest.strip_prefix('=')?.trim_start())
}
