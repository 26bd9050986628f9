// The mistakes in the table of a model file, key by key.

ghost use Rattle.std.specs.Prelude.{◌≡◌, ◌++◌, [], ◌∷◌, map, IfOk, IfSome, OnOk, codes};
ghost use Rattle.std.specs.Prelude.{string_bytes};
ghost use Rattle.std.specs.Prelude.{◌≤◌, Some};
ghost use Rattle.texts.specs.ModelFile.{found_of, is_among, item_wrong, nothing, number_at};
ghost use Rattle.texts.specs.ModelFile.{number_wrong};
ghost use Rattle.texts.specs.ModelFile.{reported, unknown_wrong, unless, expectation_of, words_wrong};
ghost use Rattle.toml.specs.Data.{get_member};
ghost use Rattle.toml.specs.View.{table_view, view};

use crate::model_file::number_within;
use std::alloc::{AllocError, Global};
use std::fmt;
use std::marker::Model;
use toml::{Table, Value};

/// The kind of value at a key.
#[derive(Clone, Copy, Debug, PartialEq, Eq)]
pub enum Found {
    /// The key is missing.
    Nothing,
    /// A whole number.
    Number(i64),
    /// A string.
    Text,
    /// A number with a fraction.
    Float,
    /// A truth value.
    Boolean,
    /// A date or a time.
    Datetime,
    /// A list.
    Array,
    /// A table.
    Table,
}

/// The value that a key must have.
#[derive(Clone, Copy, Debug, PartialEq, Eq)]
pub enum Expected {
    /// A whole number.
    Number {
        /// The least number that is allowed.
        least: u64,
        /// The greatest number that is allowed.
        most: u64,
    },
    /// Something else, described in words.
    Words(&'static str),
    /// No value: the model has no such key.
    Nothing,
}

/// One mistake in a table. Its text describes it in plain words.
#[derive(Debug, PartialEq, Eq, Drop)]
pub struct Finding {
    /// The key.
    pub key: String,
    /// The value that the key has.
    pub found: Found,
    /// The value that the key must have.
    pub expected: Expected,
    /// The mistake inside the value at the key, if it is known.
    pub inside: Option<Inside>,
}

/// A mistake inside the value at a key.
#[derive(Debug, PartialEq, Eq, Drop)]
pub enum Inside {
    /// A mistake at a place of a text.
    Text(TextMistake),
    /// A mistake of a name in a list or a table of names.
    Name(NameMistake),
}

/// A mistake of a name in a list or a table of names, or of the value of the name.
#[derive(Debug, PartialEq, Eq, Drop)]
pub struct NameMistake {
    /// The key of the list or the table.
    pub list: &'static str,
    /// The name as the file has it. It is empty if the mistake is not one of a name.
    pub name: String,
    /// The number of equal names before it in its list.
    pub before: usize,
    /// Whether the name's value is at fault, and not the name.
    pub is_value: bool,
    /// What is wrong, in words.
    pub why: String,
}

/// A mistake at a place of the text at a key.
#[derive(Debug, PartialEq, Eq, Drop)]
pub struct TextMistake {
    /// The text.
    pub text: String,
    /// The line of the mistake in the text, counted from 1.
    pub line: usize,
    /// The column of the mistake on its line, in characters, counted from 1.
    pub column: usize,
    /// What is wrong there, in words.
    pub why: String,
}

/// All mistakes in a table, in the order of the model's keys. The keys that the model does not have
/// come last, in the order of their bytes.
#[derive(Debug, Drop)]
pub struct Findings {
    items: Vec<Finding>,
}

impl Model for Findings {
    ghost use Rattle.std.specs.Prelude.{List, map};
    ghost use Rattle.texts.specs.ModelFile.{Wrong, reported};

    ghost Value = { List Wrong };

    ghost view = { λ f. map reported f.items.items };
}

impl Findings {
    /// Makes an empty list of findings, without an allocation.
    pub fn new(alloc: Global) -> Findings
        ensures { result ≡ [] }
    {
        Findings {
            items: Vec::new(alloc),
        }
    }

    /// Returns the findings.
    pub fn as_slice(&self) -> &[Finding]
        ensures { map reported result.now ≡ self.now }
    {
        self.items.as_slice()
    }

    #[tactic(auto, unfolding(crate::specs::ModelFile::number_wrong))]
    /// Returns the whole number from `least` to `most` at a key, or adds a finding if there is
    /// none.
    pub fn number_at(
        &mut self,
        alloc: Global,
        table: &Table,
        key: &str,
        least: u64,
        most: u64,
    ) -> Result<Option<u64>, AllocError>
        ensures number { IfOk result (λ n. n ≡ number_at key.now least most (table_view table.now)) }
        ensures reported { OnOk result (self.new
            ≡ self.old ++ number_wrong key.now least most (table_view table.now)) }
        ensures within { IfOk result (λ n. IfSome n (λ k. (least ≤ k) × (k ≤ most))) }
    {
        match number_within(table, key, least, most) {
            Some(number) => Ok(Some(number)),
            None => {
                self.push(
                    alloc,
                    key,
                    found_at(table, key),
                    Expected::Number { least, most },
                    None,
                )?;
                Ok(None)
            }
        }
    }

    /// Adds a finding for a key unless `right`. The words in `expected` describe what must be there.
    pub fn words_at(
        &mut self,
        alloc: Global,
        table: &Table,
        key: &str,
        expected: &'static str,
        right: bool,
    ) -> Result<(), AllocError>
        ensures { OnOk result (self.new
            ≡ self.old ++ words_wrong right key.now expected.now (table_view table.now)) }
    {
        self.inside_at(alloc, table, key, expected, right, None)
    }

    #[tactic(auto, unfolding(crate::specs::ModelFile::words_wrong))]
    /// Adds a finding for a key unless `right`, as `words_at` does, with the mistake inside the value
    /// at the key.
    pub fn inside_at(
        &mut self,
        alloc: Global,
        table: &Table,
        key: &str,
        expected: &'static str,
        right: bool,
        inside: Option<Inside>,
    ) -> Result<(), AllocError>
        ensures { OnOk result (self.new
            ≡ self.old ++ words_wrong right key.now expected.now (table_view table.now)) }
    {
        if !right {
            let expected = Expected::Words(expected);
            self.push(alloc, key, found_at(table, key), expected, inside)?;
        }
        Ok(())
    }

    #[tactic(auto, unfolding(crate::specs::ModelFile::item_wrong))]
    /// Adds a finding for the item at an index of a list unless `right`. Its key contains the
    /// index: `gates[3]`.
    pub fn item_at(
        &mut self,
        alloc: Global,
        key: &str,
        place: usize,
        found: Found,
        expected: &'static str,
        right: bool,
    ) -> Result<(), AllocError>
        ensures { OnOk result (self.new
            ≡ self.old ++ item_wrong right key.now place found expected.now) }
    {
        if !right {
            let place = format!(in alloc; "{key}[{place}]")?;
            let expected = Expected::Words(expected);
            self.push(alloc, place.as_str(), found, expected, None)?;
        }
        Ok(())
    }

    /// Adds a finding for each key of the table that is none of these.
    pub fn others(&mut self, alloc: Global, table: &Table, keys: &[&str]) -> Result<(), AllocError>
        ensures { OnOk result (self.new
            ≡ self.old ++ unknown_wrong (map (λ k. k.now) keys.now) (table_view table.now)) }
    {
        'keys: for (key, value) in table.iter() {
            self.other(alloc, key.as_str(), value, keys)?;
        }
        Ok(())
    }

    /// Adds a finding for a key if it is none of these.
    fn other(
        &mut self,
        alloc: Global,
        key: &str,
        value: &Value,
        keys: &[&str],
    ) -> Result<(), AllocError>
        ensures { OnOk result (self.new ≡ self.old
            ++ unless (is_among key.now (map (λ k. k.now) keys.now)) (record {
              key = key.now;
              found = found_of (Some (view value.now));
              expected = nothing;
            })) }
    {
        if !is_among(key, keys) {
            self.push(alloc, key, found_in(value), Expected::Nothing, None)?;
        }
        Ok(())
    }

    /// Adds a finding.
    fn push(
        &mut self,
        alloc: Global,
        key: &str,
        found: Found,
        expected: Expected,
        inside: Option<Inside>,
    ) -> Result<(), AllocError>
        ensures { OnOk result (self.new ≡ self.old
            ++ record { key = key.now; found = found; expected = expectation_of expected } ∷ []) }
    {
        let key = String::from_str(alloc, key)?;
        self.items.push(Finding {
            key,
            found,
            expected,
            inside,
        })?;
        Ok(())
    }
}

/// Returns the kind of value that a table has at a key.
fn found_at(table: &Table, key: &str) -> Found
    ensures { result ≡ found_of (get_member key.now (table_view table.now)) }
{
    match table.get(key) {
        Some(value) => found_in(value),
        None => Found::Nothing,
    }
}

/// Returns the kind of a value.
pub fn found_in(value: &Value) -> Found
    ensures { result ≡ found_of (Some (view value.now)) }
{
    match value {
        Value::String(_) => Found::Text,
        Value::Integer(number) => Found::Number(*number),
        Value::Float(_) => Found::Float,
        Value::Boolean(_) => Found::Boolean,
        Value::Datetime(_) => Found::Datetime,
        Value::Array(_) => Found::Array,
        Value::Table(_) => Found::Table,
    }
}

/// Returns whether a key is one of these.
pub(crate) fn is_among(key: &str, keys: &[&str]) -> bool
    ensures { result ≡ is_among key.now (map (λ k. k.now) keys.now) }
{
    for known in keys {
        if *known == key {
            return true;
        }
    }
    false
}

impl fmt::Display for Finding {
    fn fmt<W: fmt::Write>(&self, f: &mut fmt::Formatter<W>) -> fmt::Result {
        let key = self.key.as_str();
        let found = self.found;
        let expected = self.expected;
        match &self.inside {
            Some(Inside::Text(inside)) => {
                let (line, column) = (inside.line, inside.column);
                let why = inside.why.as_str();
                return write!(f, "{key}, line {line}, column {column}: {why}");
            }
            Some(Inside::Name(inside)) => {
                return write!(f, "{inside}");
            }
            None => {}
        }
        match (found, expected) {
            (_, Expected::Nothing) => write!(f, "{key:?}: the model has no such key"),
            (Found::Number(_), Expected::Number { least, most }) => {
                write!(f, "{key}: {found} is not within {least} to {most}")
            }
            _ => write!(f, "{key}: {found}; expected {expected}"),
        }
    }
}

impl fmt::Display for NameMistake {
    fn fmt<W: fmt::Write>(&self, f: &mut fmt::Formatter<W>) -> fmt::Result {
        f.write_str(self.list)?;
        if self.is_value {
            let name = self.name.as_str();
            write!(f, ".{name}")?;
        }
        let why = self.why.as_str();
        write!(f, ": {why}")
    }
}

impl fmt::Display for Found {
    fn fmt<W: fmt::Write>(&self, f: &mut fmt::Formatter<W>) -> fmt::Result {
        match self {
            Found::Nothing => f.write_str("missing"),
            Found::Number(number) => write!(f, "{number}"),
            Found::Text => f.write_str("a string"),
            Found::Float => f.write_str("a number with a fraction"),
            Found::Boolean => f.write_str("true or false"),
            Found::Datetime => f.write_str("a date or a time"),
            Found::Array => f.write_str("a list"),
            Found::Table => f.write_str("a table"),
        }
    }
}

impl fmt::Display for Expected {
    fn fmt<W: fmt::Write>(&self, f: &mut fmt::Formatter<W>) -> fmt::Result {
        match self {
            Expected::Number { least, most } => write!(f, "a whole number from {least} to {most}"),
            Expected::Words(words) => f.write_str(words),
            Expected::Nothing => f.write_str("nothing"),
        }
    }
}
