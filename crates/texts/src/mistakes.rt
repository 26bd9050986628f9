// All mistakes of a text that is not a model file.

ghost use Rattle.std.specs.Prelude.{◌≡◌, ◌≤◌, ◌==◌, ℕ, List, [], IfOk, IsUtf8, count_by, length};
ghost use Rattle.texts.specs.Mistakes.{line_at, AreMistakes, IsLineOf};
ghost use Rattle.texts.specs.ModelFile.{IsModelFile};
ghost use Rattle.toml.specs.Errors.{IsWithin};

use crate::findings::{Expected, Findings, Found};
use crate::model_file::Described;
use std::alloc::{AllocError, Global};
use std::fmt;
use toml::de::Error;

/// All mistakes of a text as a model file.
///
/// Its text has a line for each mistake, indented by two blanks. If the first mistake is a number
/// outside its range, that one has no line: the text of the `Mistake` from `read_model` has it.
#[derive(Debug, Drop)]
pub enum Mistakes {
    /// The text is not TOML.
    Toml {
        /// The line of the error, counted from 1.
        line: usize,
        /// The column of the error on its line, in characters, counted from 1.
        column: usize,
        /// The reason, in words.
        why: String,
    },
    /// The mistakes in its table. There are none if the text is a model file.
    Keys(Findings),
}

/// Finds all mistakes of a text as a model file. `AllocError` comes if an allocation failed.
pub fn find_mistakes<M: Described>(alloc: Global, text: &[u8]) -> Result<Mistakes, AllocError>
    ensures reported { IfOk result (AreMistakes M.wrong text.now) }
    ensures none { IfOk result (λ found. found ≡ Mistakes.Keys [] →
        (model : M) × (end : ℕ) × IsModelFile M.says text.now model end) }
    ensures some { IfOk result (λ found. (model : M) (end : ℕ) → IsUtf8 text.now →
        IsModelFile M.says text.now model end → found ≡ Mistakes.Keys []) }
{
    match toml::table_from_slice(alloc, text) {
        Ok(table) => Ok(Mistakes::Keys(M::mistakes(alloc, &table)?)),
        Err(error) if error.is_memory() => Err(AllocError),
        Err(error) => {
            let line = line_of(text, &error);
            let column = column_of(text, &error);
            let why = String::from_str(alloc, error.message())?;
            Ok(Mistakes::Toml { line, column, why })
        }
    }
}

/// Returns the line, counted from 1, on which an error begins.
fn line_of(text: &[u8], error: &Error) -> usize
    requires { IsWithin text.now error.now }
    ensures { IsLineOf text.now result }
{
    match error.span() {
        Some(span) => line_at(text, span.start),
        None => line_at(text, 0),
    }
}

/// Returns the column, counted from 1, at which an error begins.
fn column_of(text: &[u8], error: &Error) -> usize
    requires { IsWithin text.now error.now }
{
    match error.span() {
        Some(span) => column_at(text, span.start),
        None => 1,
    }
}

/// Returns the column, in characters and counted from 1, of a place in bytes.
fn column_at(text: &[u8], place: usize) -> usize
    requires { place ≤ length text.now }
{
    let mut column = 1usize;
    for byte in text.split_at(place).0 {
        if *byte == b'\n' {
            column = 1;
        } else if *byte < 0x80 || *byte >= 0xc0 {
            // the other bytes continue a character
            column = column.saturating_add(1);
        }
    }
    column
}

/// Returns the line, counted from 1, of a place in bytes.
fn line_at(text: &[u8], place: usize) -> usize
    requires { place ≤ length text.now }
    ensures { result ≡ line_at text.now place }
{
    line_feeds(text.split_at(place).0).saturating_add(1)
}

/// Returns the number of line feeds.
fn line_feeds(text: &[u8]) -> usize
    ensures { result ≡ count_by (λ byte. byte == 10) text.now }
{
    text.iter().filter(|byte| **byte == b'\n').count()
}

impl fmt::Display for Mistakes {
    fn fmt<W: fmt::Write>(&self, f: &mut fmt::Formatter<W>) -> fmt::Result {
        match self {
            Mistakes::Toml { line, why, .. } => {
                let why = why.as_str();
                writeln!(f, "  line {line}: {why}")
            }
            Mistakes::Keys(found) => {
                for (place, finding) in found.as_slice().iter().enumerate() {
                    let is_reported = matches!(
                        (finding.found, finding.expected),
                        (Found::Number(_), Expected::Number { .. })
                    );
                    if place > 0 || !is_reported {
                        writeln!(f, "  {finding}")?;
                    }
                }
                Ok(())
            }
        }
    }
}
