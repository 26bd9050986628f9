// Where a model file differs from the text of the model that a disk keeps.

use crate::files::read_bytes;
use crate::kept::{model_path, read_kept};
use cli::ModelFile;
use std::alloc::{AllocError, Global};
use std::fmt;
use std::rt::Files;
use texts::{Printable, with_settings};

/// Returns a line on the first difference between the text that a disk keeps of its model and a model
/// file, if the disk keeps one and both can be read.
///
/// Where the text or the file has values that were set, both are compared as they are written anew,
/// key by key; the lines then have no numbers.
pub fn apart_of<R>(rt: &R, file: ModelFile<'_>, disk: &str) -> Option<String>
where
    R: Files + AllocGlobal,
{
    let alloc = rt.alloc();
    let kept = read_kept(rt, disk).ok()?;
    let kept = str::from_utf8(kept.as_slice()).ok()?;
    let path = model_path(rt, file).ok()?;
    let given = read_bytes(rt, path.as_str()).ok()?;
    let given = str::from_utf8(given.as_slice()).ok()?;
    let anew = with_settings(alloc, kept, &[]).ok()?;
    if file.settings.is_empty() && anew.as_str() != kept {
        return difference_in(alloc, kept, given, true).ok()?;
    }
    let given = with_settings(alloc, given, file.settings).ok()?;
    difference_in(alloc, anew.as_str(), given.as_str(), false).ok()?
}

/// Returns a line on the first difference between the model of a disk and that of a file, by their
/// texts; none if their lines say the same.
///
/// The lines that count are those that say something: a comment and blank space say nothing. The
/// difference is at the first place where these lines of both texts do not agree.
pub fn difference_in(
    alloc: Global,
    kept: &str,
    given: &str,
    is_numbered: bool,
) -> Result<Option<String>, AllocError> {
    let kept = lines_of(alloc, kept)?;
    let given = lines_of(alloc, given)?;
    let Some(place) = first_apart(kept.as_slice(), given.as_slice()) else {
        return Ok(None);
    };
    let kept = Shown {
        line: kept.get(place).copied(),
        is_numbered,
    };
    let given = Shown {
        line: given.get(place).copied(),
        is_numbered,
    };
    let line = format!(in alloc; "the disk's model has {kept}, this file {given}")?;
    Ok(Some(line))
}

/// A line of a text that says something.
#[derive(Clone, Copy)]
struct Line<'a> {
    /// Its number in the text, counted from 1.
    number: usize,
    /// What it says, without the blank space around it and without its comment.
    said: &'a str,
}

/// The lines of a text that say something.
fn lines_of<'a>(alloc: Global, text: &'a str) -> Result<Vec<Line<'a>>, AllocError> {
    let mut lines = Vec::new(alloc);
    let mut number = 0usize;
    for content in text.lines() {
        number = number.saturating_add(1);
        let said = said_in(content);
        if !said.is_empty() {
            lines.push(Line { number, said })?;
        }
    }
    Ok(lines)
}

/// What a line says: what stands before its comment, without the blank space around it. A `#`
/// between quotes begins no comment.
fn said_in(line: &str) -> &str {
    let mut quote = None;
    for (place, letter) in line.char_indices() {
        match (quote, letter) {
            (None, '#') => return line.get(..place).unwrap_or(line).trim(),
            (None, '"' | '\'') => quote = Some(letter),
            (Some(open), _) if open == letter => quote = None,
            _ => {}
        }
    }
    line.trim()
}

/// Returns the first place at which two lists of lines do not agree, if there is one: the lines there
/// say something else, or one list has no more.
fn first_apart(one: &[Line<'_>], other: &[Line<'_>]) -> Option<usize> {
    let mut place = 0usize;
    for (a, b) in one.iter().zip(other.iter()) {
        if !say_the_same(a.said, b.said) {
            return Some(place);
        }
        place = place.saturating_add(1);
    }
    if one.len() == other.len() {
        None
    } else {
        Some(place)
    }
}

/// Whether two lines have the same letters but for blank space.
fn say_the_same(one: &str, other: &str) -> bool {
    let mut rest = other;
    for letter in one.chars() {
        if !letter.is_whitespace() {
            match rest.trim_start().strip_prefix(letter) {
                Some(behind) => rest = behind,
                None => return false,
            }
        }
    }
    rest.trim_start().is_empty()
}

/// A line as it is shown, or that there is none.
#[derive(Clone, Copy)]
struct Shown<'a> {
    line: Option<Line<'a>>,
    is_numbered: bool,
}

/// The maximum number of characters of a line that are shown.
const LONGEST: usize = 60;

impl fmt::Display for Shown<'_> {
    fn fmt<W: fmt::Write>(&self, f: &mut fmt::Formatter<W>) -> fmt::Result {
        let Some(Line { number, said }) = self.line else {
            return f.write_str("nothing more");
        };
        let begin = Printable(beginning_of(said));
        let more = if begin.0.len() < said.len() { ".." } else { "" };
        write!(f, "'{begin}{more}'")?;
        if self.is_numbered {
            write!(f, " (line {number})")?;
        }
        Ok(())
    }
}

/// The first characters of a line, as many as are shown.
fn beginning_of(line: &str) -> &str {
    match line.char_indices().nth(LONGEST) {
        Some((end, _)) => line.get(..end).unwrap_or(line),
        None => line,
    }
}
