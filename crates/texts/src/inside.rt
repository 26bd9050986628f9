// A mistake inside a text of a model file, at its place in the file.

use crate::findings::TextMistake;
use crate::printable::Printable;
use crate::report::{Place, column_of, line_at, write_line};
use std::fmt;

/// A place in a file, by its line and column, both counted from 1.
#[derive(Clone, Copy)]
struct Spot {
    line: usize,
    column: usize,
}

/// Writes the mistake inside the text at a key, the line, and a mark below the place.
pub(crate) fn write_inside<W: fmt::Write>(
    f: &mut fmt::Formatter<W>,
    path: &str,
    file: &[u8],
    key: &str,
    inside: &TextMistake,
) -> fmt::Result {
    let path = Printable(path);
    let why = inside.why.as_str();
    let text = inside.text.as_str();
    let (line, column) = (inside.line, inside.column);
    match spot_of(file, key, text) {
        Some(begin) => {
            let Spot { line, column } = spot_behind(begin, line, column);
            writeln!(f, "  {path}:{line}:{column}: {key}: {why}")?;
            write_content(f, file, line, column)
        }
        None => {
            writeln!(
                f,
                "  {path}: {key}, line {line}, column {column} of its text: {why}"
            )?;
            write_content(f, text.as_bytes(), line, column)
        }
    }
}

/// Writes a line of a text, and a mark below a column.
fn write_content<W: fmt::Write>(
    f: &mut fmt::Formatter<W>,
    text: &[u8],
    line: usize,
    column: usize,
) -> fmt::Result {
    match line_at(text, line) {
        Some(content) => write_line(
            f,
            Place {
                line,
                column,
                content: content.trim_end(),
            },
        ),
        None => Ok(()),
    }
}

/// The place in the file of a place in a text that begins at `begin`.
fn spot_behind(begin: Spot, line: usize, column: usize) -> Spot {
    let column = if line > 1 {
        column
    } else {
        begin.column.saturating_add(column).saturating_sub(1)
    };
    Spot {
        line: begin.line.saturating_add(line).saturating_sub(1),
        column,
    }
}

/// The number of strings at a key that are compared with a text, so that a file with many of them
/// costs hardly more than a pass.
const TRIES: usize = 16;

/// Where the text at a key begins in a file, if the file has it without escapes.
fn spot_of(file: &[u8], key: &str, text: &str) -> Option<Spot> {
    let file = str::from_utf8(file).ok()?;
    let mut start = 0usize;
    let mut line = 1usize;
    let mut tries = 0usize;
    for content in file.split('\n') {
        if let Some(value) = string_behind(content, key) {
            let before = content.len().saturating_sub(value.len());
            let column = column_of(content, value);
            let string = file.get(start.saturating_add(before)..)?;
            let begin = begin_of(string, Spot { line, column }, text);
            tries = tries.saturating_add(1);
            if begin.is_some() || tries == TRIES {
                return begin;
            }
        }
        start = start.saturating_add(content.len()).saturating_add(1);
        line = line.saturating_add(1);
    }
    None
}

/// The end of a line from the string on that is the value of a key, if there is one.
fn string_behind<'a>(line: &'a str, key: &str) -> Option<&'a str> {
    let (before, behind) = line.split_once(key)?;
    let value = behind
        .trim_start_matches(['"', '\''])
        .trim_start()
        .strip_prefix('=')?
        .trim_start();
    if value.starts_with(['"', '\'']) && !before.contains('#') {
        Some(value)
    } else {
        None
    }
}

/// Where a text begins that a string at `spot` has without escapes.
fn begin_of(string: &str, spot: Spot, text: &str) -> Option<Spot> {
    let Spot { line, column } = spot;
    for quotes in ["'''", "\"\"\""] {
        if let Some(content) = string.strip_prefix(quotes) {
            return match behind_line_end(content) {
                // a line end right after the quotes does not belong to the text
                Some(content) => begins_with(content, text, line.saturating_add(1), 1),
                None => begins_with(content, text, line, column.saturating_add(3)),
            };
        }
    }
    let content = string.strip_prefix(['"', '\''])?;
    begins_with(content, text, line, column.saturating_add(1))
}

/// The text after a line end, if it begins with one.
fn behind_line_end(text: &str) -> Option<&str> {
    match text.strip_prefix("\r\n") {
        Some(rest) => Some(rest),
        None => text.strip_prefix('\n'),
    }
}

/// The place, if the content begins with the text.
fn begins_with(content: &str, text: &str, line: usize, column: usize) -> Option<Spot> {
    if content.starts_with(text) {
        Some(Spot { line, column })
    } else {
        None
    }
}
