// The mistakes of a model file beside its lines.

use crate::findings::{Expected, Finding, Findings, Found, Inside};
use crate::inside::write_inside;
use crate::mistakes::Mistakes;
use crate::naming::write_named;
use crate::printable::Printable;
use std::fmt;

/// All mistakes of a model file, for its user.
///
/// Its text has, for each mistake, a line with the file, the place and what is wrong there, indented
/// by two blanks; then the line of the file, and a mark below the place. The place is a line and a
/// column, both counted from 1. A missing key has none. The mistakes after the first 100 have no
/// place either, since finding one costs a pass over the file.
///
/// A mistake inside the text at a key has its place in the file if the file has the text as it is.
/// If the file has it with escapes, the line and the column are those in the text. A mistake of a
/// name in a list or a table has the place of the name, or of its value.
#[derive(Clone, Copy)]
pub struct MistakeReport<'a> {
    /// The path of the file.
    pub path: &'a str,
    /// What the file holds.
    pub text: &'a [u8],
    /// The mistakes of this text.
    pub mistakes: &'a Mistakes,
}

/// A place in a text.
#[derive(Clone, Copy)]
pub(crate) struct Place<'a> {
    /// The line's number, counted from 1.
    pub(crate) line: usize,
    /// The column's number, counted from 1.
    pub(crate) column: usize,
    /// The line.
    pub(crate) content: &'a str,
}

/// The number of mistakes that are shown beside their lines.
const PLACED: usize = 100;

/// A key and its value in a line of a text.
#[derive(Clone, Copy)]
struct Pair<'a> {
    /// The place of the key.
    key: Place<'a>,
    /// The place of the value.
    value: Place<'a>,
    /// The first word of the value.
    written: &'a str,
}

impl fmt::Display for MistakeReport<'_> {
    fn fmt<W: fmt::Write>(&self, f: &mut fmt::Formatter<W>) -> fmt::Result {
        match self.mistakes {
            Mistakes::Toml { line, column, why } => self.write_error(
                f,
                *line,
                *column,
                why.as_str(),
            ),
            Mistakes::Keys(found) => {
                for (index, finding) in found.as_slice().iter().enumerate() {
                    if index < PLACED {
                        self.write_finding(f, found, finding)?;
                    } else {
                        let path = Printable(self.path);
                        writeln!(f, "  {path}: {finding}")?;
                    }
                }
                Ok(())
            }
        }
    }
}

impl MistakeReport<'_> {
    /// Writes why the text is not TOML.
    fn write_error<W: fmt::Write>(
        &self,
        f: &mut fmt::Formatter<W>,
        line: usize,
        column: usize,
        why: &str,
    ) -> fmt::Result {
        let path = Printable(self.path);
        writeln!(f, "  {path}:{line}:{column}: {why}")?;
        match line_at(self.text, line) {
            Some(content) => write_line(
                f,
                Place {
                    line,
                    column,
                    content,
                },
            ),
            None => Ok(()),
        }
    }

    /// Writes one mistake among all of the table.
    fn write_finding<W: fmt::Write>(
        &self,
        f: &mut fmt::Formatter<W>,
        all: &Findings,
        finding: &Finding,
    ) -> fmt::Result {
        let path = Printable(self.path);
        match &finding.inside {
            Some(Inside::Text(inside)) => {
                return write_inside(f, self.path, self.text, finding.key.as_str(), inside);
            }
            Some(Inside::Name(inside)) => return write_named(f, self.path, self.text, inside),
            None => {}
        }
        let Some(pair) = pair_of(self.text, finding.key.as_str()) else {
            return writeln!(f, "  {path}: {finding}");
        };
        let is_unknown = matches!(finding.expected, Expected::Nothing);
        let place = if is_unknown { pair.key } else { pair.value };
        let (line, column) = (place.line, place.column);
        write!(f, "  {path}:{line}:{column}: ")?;
        match (finding.found, finding.expected, whole_of(pair.written)) {
            (Found::Float, Expected::Number { .. }, Some(number)) => {
                let (key, written) = (finding.key.as_str(), pair.written);
                write!(f, "{key}: {written} is a float; write {number}")?;
            }
            _ => write!(f, "{finding}")?,
        }
        if is_unknown {
            write_nearest(f, all, finding.key.as_str())?;
        }
        writeln!(f)?;
        write_line(f, place)
    }
}

/// The maximum number of characters of a line that is shown.
const LONGEST: usize = 160;

/// Writes the line of a place, and a mark below the place. Leaves both out if the line is long.
pub(crate) fn write_line<W: fmt::Write>(
    f: &mut fmt::Formatter<W>,
    place: Place<'_>,
) -> fmt::Result {
    if place.content.len() > LONGEST {
        return Ok(());
    }
    f.write_str("    ")?;
    for letter in place.content.chars() {
        // each character takes one column, so that the mark stands below its place
        f.write_char(if letter.is_control() { ' ' } else { letter })?;
    }
    f.write_str("\n    ")?;
    for _ in 1..place.column {
        f.write_char(' ')?;
    }
    f.write_str("^\n")
}

/// Writes which missing key may be meant by an unknown one.
fn write_nearest<W: fmt::Write>(
    f: &mut fmt::Formatter<W>,
    all: &Findings,
    key: &str,
) -> fmt::Result {
    for finding in all.as_slice() {
        let missing = finding.key.as_str();
        if finding.found == Found::Nothing && is_near(key, missing) {
            return write!(f, "; did you mean `{missing}`?");
        }
    }
    Ok(())
}

/// Whether two keys differ in at most two letters in a row.
fn is_near(one: &str, other: &str) -> bool {
    let (one, other) = (one.as_bytes(), other.as_bytes());
    let begin = count_equal(one, other);
    let (one, other) = (behind(one, begin), behind(other, begin));
    let end = count_equal_from_end(one, other);
    let differ = one.len().max(other.len()).saturating_sub(end);
    begin.saturating_add(end) > 0 && differ <= 2
}

/// The bytes after the first `count`.
fn behind(bytes: &[u8], count: usize) -> &[u8] {
    bytes.split_at(count.min(bytes.len())).1
}

/// How many bytes at the beginning of both are equal.
fn count_equal(one: &[u8], other: &[u8]) -> usize {
    let mut count = 0usize;
    for (a, b) in one.iter().zip(other.iter()) {
        if a != b {
            return count;
        }
        count = count.saturating_add(1);
    }
    count
}

/// How many bytes at the end of both are equal.
fn count_equal_from_end(one: &[u8], other: &[u8]) -> usize {
    let mut count = 0usize;
    for (a, b) in one.iter().rev().zip(other.iter().rev()) {
        if a != b {
            return count;
        }
        count = count.saturating_add(1);
    }
    count
}

/// The line of this number, counted from 1, if there is one and it is UTF-8.
pub(crate) fn line_at(text: &[u8], number: usize) -> Option<&str> {
    let mut line = 1usize;
    for content in text.split(|byte| *byte == b'\n') {
        if line == number {
            return str::from_utf8(content).ok();
        }
        line = line.saturating_add(1);
    }
    None
}

/// The first line of a text that gives a key a value. For an item of a list, whose key has an
/// index after it, that of the list.
fn pair_of<'a>(text: &'a [u8], key: &str) -> Option<Pair<'a>> {
    let key = match key.split_once('[') {
        Some((list, _)) => list,
        None => key,
    };
    let mut line = 1usize;
    for content in text.split(|byte| *byte == b'\n') {
        let pair = pair_in(line, str::from_utf8(content).ok()?, key);
        if pair.is_some() {
            return pair;
        }
        line = line.saturating_add(1);
    }
    None
}

/// The key and its value, if this line gives it one.
fn pair_in<'a>(line: usize, content: &'a str, key: &str) -> Option<Pair<'a>> {
    let content = content.trim_end();
    let begin = content.trim_start();
    let value = behind_key(begin, key)?
        .trim_start()
        .strip_prefix('=')?
        .trim_start();
    let place_of = |rest: &str| Place {
        line,
        column: column_of(content, rest),
        content,
    };
    Some(Pair {
        key: place_of(begin),
        value: place_of(value),
        written: first_word(value),
    })
}

/// The text after a key, which is bare or quoted, at the beginning of a text.
fn behind_key<'a>(text: &'a str, key: &str) -> Option<&'a str> {
    if let Some(rest) = text.strip_prefix(key) {
        return Some(rest);
    }
    for quote in ['"', '\''] {
        if let Some(inner) = text.strip_prefix(quote) {
            return inner.strip_prefix(key)?.strip_prefix(quote);
        }
    }
    None
}

/// The column, counted from 1, at which the end `rest` of a line begins.
pub(crate) fn column_of(line: &str, rest: &str) -> usize {
    let before = line.chars().count().saturating_sub(rest.chars().count());
    before.saturating_add(1)
}

/// The text up to a blank or a comment.
fn first_word(text: &str) -> &str {
    match text.split([' ', '\t', '#']).next() {
        Some(word) => word,
        None => text,
    }
}

/// The whole number below 2^63 that a float is, if it is one: 1000 for `1e3` and for `1000.0`.
fn whole_of(text: &str) -> Option<u64> {
    let (number, power) = match text.split_once(['e', 'E']) {
        Some((number, power)) => (number, power.parse::<u32>().ok()?),
        None => (text, 0),
    };
    let (whole, fraction) = match number.split_once('.') {
        Some(parts) => parts,
        None => (number, ""),
    };
    let fraction = fraction.trim_end_matches('0');
    let places = u32::try_from(fraction.len()).ok()?;
    let scale = 10u64.checked_pow(power)?;
    let rest = scale.checked_div(10u64.checked_pow(places)?)?;
    if power < places {
        return None;
    }
    let part = if fraction.is_empty() {
        0
    } else {
        fraction.parse::<u64>().ok()?
    };
    let number = whole.parse::<u64>().ok()?.checked_mul(scale)?;
    let number = number.checked_add(part.checked_mul(rest)?)?;
    if number < 1 << 63 { Some(number) } else { None }
}
