// The text of values, of rows, and of what is before and behind them: as comma-separated values
// (RFC 4180), as JSON (RFC 8259), or as words with blanks between.

ghost use Rattle.std.specs.Char.{digit_char};
ghost use Rattle.std.specs.List.{list_any};
ghost use Rattle.std.specs.Prelude.{◌≡◌, ◌++◌, ◌<◌, ◌/◌, ◌%◌, ◌∷◌, [], IfOk, OnOk, codes, decimal};
ghost use Rattle.std.specs.Prelude.{flat_map, map, replicate, string_bytes};
ghost use Rattle.views.specs.Tables.{between, csv_field, divider, field, field_line, field_of};
ghost use Rattle.views.specs.Tables.{fields_text, head_text, in_field, in_string, is_special};
ghost use Rattle.views.specs.Tables.{json_string, letter_text, line_text, member_text, missing_text};
ghost use Rattle.views.specs.Tables.{names_text, object_text, places, rows_text, tail_text};
ghost use Rattle.views.specs.Tables.{value_of, value_text, whole, whole_if, words_text};

use cli::Format;
use itoa::Buffer;
use std::alloc::{AllocError, Global};
use std::fmt::Write;

/// A cell of a table.
#[derive(Clone, Copy, Debug, PartialEq, Eq)]
pub(crate) enum Cell<'a> {
    /// No value: nothing between two commas, null, or `-`.
    Missing,
    /// A text.
    Text(&'a str),
    /// A whole number.
    Number(u64),
    /// A number with a fraction.
    Decimal(Decimal),
}

/// A number with digits after the point.
#[derive(Clone, Copy, Debug, PartialEq, Eq)]
pub(crate) enum Decimal {
    /// The whole number, and the tenths.
    Tenths(u64, u64),
    /// The whole number, and the thousandths.
    Thousandths(u64, u64),
    /// The whole number, and the millionths.
    Millionths(u64, u64),
}

/// A cell of a row, with the name of its column.
#[derive(Clone, Copy)]
pub(crate) struct NamedCell<'a> {
    /// The name of the column.
    pub column: &'a str,
    /// The cell.
    pub cell: Cell<'a>,
}

/// A number under the name of its column.
pub(crate) fn number<'a>(column: &'a str, number: u64) -> NamedCell<'a>
    ensures { field_of result ≡ field column.now (whole number) }
{
    let cell = Cell::Number(number);
    NamedCell { column, cell }
}

/// A number that may be missing, under the name of its column.
pub(crate) fn number_if<'a>(column: &'a str, number: Option<u64>) -> NamedCell<'a>
    ensures { field_of result ≡ field column.now (whole_if number) }
{
    let cell = match number {
        Some(number) => Cell::Number(number),
        None => Cell::Missing,
    };
    NamedCell { column, cell }
}

/// What is between two cells of a line.
fn between(format: Format) -> &'static str
    ensures { result.now ≡ between format }
{
    match format {
        Format::Text => " ",
        Format::Csv | Format::Json => ",",
    }
}

/// What is between two rows.
fn divider(format: Format) -> &'static str
    ensures { result.now ≡ divider format }
{
    match format {
        Format::Json => ",\n",
        Format::Csv | Format::Text => "",
    }
}

/// What comes after the rows.
pub(crate) fn tail_of(format: Format) -> &'static str
    ensures { result.now ≡ tail_text format }
{
    match format {
        Format::Json => "\n]\n",
        Format::Csv | Format::Text => "",
    }
}

/// What comes before the rows: a line with the names of the columns, or the begin of a list.
pub(crate) fn head_of(alloc: Global, names: &[&str], format: Format) -> Result<String, AllocError>
    ensures { IfOk result (λ head. string_bytes head
        ≡ head_text format (map (λ n. n.now) names.now)) }
{
    let mut head = String::new(alloc);
    match format {
        Format::Json => head.push_str("[\n")?,
        Format::Csv | Format::Text => put_names(names, format, &mut head)?,
    }
    Ok(head)
}

/// Appends a line with the names of the columns.
#[tactic(auto, unfolding(crate::specs::Tables::names_text))]
pub(crate) fn put_names(names: &[&str], format: Format, line: &mut String) -> Result<(), AllocError>
    ensures { OnOk result (string_bytes line.new ≡ string_bytes line.old
        ++ names_text format (map (λ n. n.now) names.now)) }
{
    if let Some((first, rest)) = names.split_first() {
        put_words(*first, format, line)?;
        for name in rest {
            line.push_str(between(format))?;
            put_words(*name, format, line)?;
        }
    }
    line.push_str("\n")
}

/// Appends a row: a line, or an object, after the text that is between two rows if it is not the
/// first one.
#[tactic(auto, unfolding(crate::specs::Tables::rows_text))]
pub(crate) fn put_row(
    row: &[NamedCell<'_>],
    format: Format,
    is_first: bool,
    line: &mut String,
) -> Result<(), AllocError>
    ensures { OnOk result (string_bytes line.new ≡ string_bytes line.old
        ++ rows_text format is_first (map field_of row.now ∷ [])) }
{
    if !is_first {
        line.push_str(divider(format))?;
    }
    match format {
        Format::Json => put_object(row, line),
        Format::Csv | Format::Text => put_values(row, format, line),
    }
}

/// Appends the cells of a row as a line.
#[tactic(auto, unfolding(crate::specs::Tables::line_text))]
fn put_values(row: &[NamedCell<'_>], format: Format, line: &mut String) -> Result<(), AllocError>
    ensures { OnOk result (string_bytes line.new ≡ string_bytes line.old
        ++ line_text format (map field_of row.now)) }
{
    if let Some((first, rest)) = row.split_first() {
        put_cell(first.cell, format, line)?;
        for named in rest {
            line.push_str(between(format))?;
            put_cell(named.cell, format, line)?;
        }
    }
    line.push_str("\n")
}

/// Appends a row as an object whose members are the cells.
#[tactic(auto, unfolding(crate::specs::Tables::object_text))]
fn put_object(row: &[NamedCell<'_>], line: &mut String) -> Result<(), AllocError>
    ensures { OnOk result (string_bytes line.new ≡ string_bytes line.old
        ++ object_text (map field_of row.now)) }
{
    line.push_str("{")?;
    if let Some((first, rest)) = row.split_first() {
        put_member(first, line)?;
        for named in rest {
            line.push_str(", ")?;
            put_member(named, line)?;
        }
    }
    line.push_str("}")
}

/// Appends a cell as a member of an object.
fn put_member(named: &NamedCell<'_>, line: &mut String) -> Result<(), AllocError>
    ensures { OnOk result (string_bytes line.new ≡ string_bytes line.old
        ++ member_text (field_of named.now)) }
{
    put_quoted(named.column, line)?;
    line.push_str(": ")?;
    put_cell(named.cell, Format::Json, line)
}

/// Appends a line for each cell that is there, after the name of its column.
#[tactic(auto, unfolding(crate::specs::Tables::fields_text))]
pub(crate) fn put_fields(row: &[NamedCell<'_>], lines: &mut String) -> Result<(), AllocError>
    ensures { OnOk result (string_bytes lines.new ≡ string_bytes lines.old
        ++ fields_text (map field_of row.now)) }
{
    for named in row {
        put_field_line(named, lines)?;
    }
    Ok(())
}

/// Appends a line for a cell if it is there.
fn put_field_line(named: &NamedCell<'_>, lines: &mut String) -> Result<(), AllocError>
    ensures { OnOk result (string_bytes lines.new ≡ string_bytes lines.old
        ++ field_line named.now.column.now (value_of named.now.cell)) }
{
    match named.cell {
        Cell::Missing => Ok(()),
        cell => {
            lines.push_str(named.column)?;
            lines.push_str(" ")?;
            put_cell(cell, Format::Text, lines)?;
            lines.push_str("\n")
        }
    }
}

/// Appends a cell.
#[tactic(auto, unfolding(crate::specs::Tables::value_text))]
fn put_cell(cell: Cell<'_>, format: Format, line: &mut String) -> Result<(), AllocError>
    ensures { OnOk result (string_bytes line.new ≡ string_bytes line.old
        ++ value_text format (value_of cell.entry)) }
{
    match cell {
        Cell::Missing => put_missing(format, line),
        Cell::Text(text) => put_words(text, format, line),
        Cell::Number(number) => put_number(number, line),
        Cell::Decimal(Decimal::Tenths(whole, rest)) => put_fraction(whole, rest, 1, line),
        Cell::Decimal(Decimal::Thousandths(whole, rest)) => put_fraction(whole, rest, 3, line),
        Cell::Decimal(Decimal::Millionths(whole, rest)) => put_fraction(whole, rest, 6, line),
    }
}

/// Appends what stands for no value.
fn put_missing(format: Format, line: &mut String) -> Result<(), AllocError>
    ensures { OnOk result (string_bytes line.new ≡ string_bytes line.old ++ missing_text format) }
{
    match format {
        Format::Text => line.push_str("-"),
        Format::Csv => Ok(()),
        Format::Json => line.push_str("null"),
    }
}

/// Appends a text.
fn put_words(text: &str, format: Format, line: &mut String) -> Result<(), AllocError>
    ensures { OnOk result (string_bytes line.new ≡ string_bytes line.old
        ++ words_text format text.now) }
{
    match format {
        Format::Text => line.push_str(text),
        Format::Csv => put_field(text, line),
        Format::Json => put_quoted(text, line),
    }
}

/// Appends a number in decimal digits.
fn put_number(number: u64, line: &mut String) -> Result<(), AllocError>
    ensures { OnOk result (string_bytes line.new ≡ string_bytes line.old ++ decimal number) }
{
    let mut digits = Buffer::new();
    line.push_str(digits.format(number))
}

/// Appends a number, a point, and this number of digits.
fn put_fraction(whole: u64, rest: u64, count: usize, line: &mut String) -> Result<(), AllocError>
    ensures { OnOk result (string_bytes line.new ≡ string_bytes line.old
        ++ (decimal whole ++ (codes "." ++ places count rest))) }
{
    put_number(whole, line)?;
    line.push_str(".")?;
    let mut digits = Buffer::new();
    let rest = digits.format(rest);
    put_zeros(count.saturating_sub(rest.len()), line)?;
    line.push_str(rest)
}

/// Appends this number of zeros.
fn put_zeros(count: usize, line: &mut String) -> Result<(), AllocError>
    ensures { OnOk result (string_bytes line.new ≡ string_bytes line.old ++ replicate count 48) }
{
    for _ in 0..count {
        line.push_str("0")?;
    }
    Ok(())
}

/// Appends a text as a field of comma-separated values: in quotes if it has a comma, a quote or the
/// end of a line in it.
fn put_field(text: &str, line: &mut String) -> Result<(), AllocError>
    ensures { OnOk result (string_bytes line.new ≡ string_bytes line.old ++ csv_field text.now) }
{
    if !is_special(text.as_bytes()) {
        return line.push_str(text);
    }
    line.push_str("\"")?;
    put_doubled(text, line)?;
    line.push_str("\"")
}

/// Whether a field of comma-separated values has quotes around it.
fn is_special(text: &[u8]) -> bool
    ensures { result ≡ list_any is_special text.now }
{
    for byte in text {
        if matches!(*byte, b'"' | b',' | b'\n' | b'\r') {
            return true;
        }
    }
    false
}

/// Appends a text with each quote doubled.
fn put_doubled(text: &str, line: &mut String) -> Result<(), AllocError>
    ensures { OnOk result (string_bytes line.new ≡ string_bytes line.old
        ++ flat_map in_field text.now) }
{
    for letter in text.chars() {
        put_in_field(letter, line)?;
    }
    Ok(())
}

/// Appends a letter, a quote twice.
fn put_in_field(letter: char, line: &mut String) -> Result<(), AllocError>
    ensures { OnOk result (string_bytes line.new ≡ string_bytes line.old
        ++ letter_text in_field letter) }
{
    match letter {
        '"' => line.push_str("\"\""),
        _ => line.push(letter),
    }
}

/// Appends a text as a string of JSON.
fn put_quoted(text: &str, line: &mut String) -> Result<(), AllocError>
    ensures { OnOk result (string_bytes line.new ≡ string_bytes line.old ++ json_string text.now) }
{
    line.push_str("\"")?;
    put_escaped(text, line)?;
    line.push_str("\"")
}

/// Appends a text with what JSON has escaped.
fn put_escaped(text: &str, line: &mut String) -> Result<(), AllocError>
    ensures { OnOk result (string_bytes line.new ≡ string_bytes line.old
        ++ flat_map in_string text.now) }
{
    for letter in text.chars() {
        put_in_string(letter, line)?;
    }
    Ok(())
}

/// Appends a letter of a string of JSON.
fn put_in_string(letter: char, line: &mut String) -> Result<(), AllocError>
    ensures { OnOk result (string_bytes line.new ≡ string_bytes line.old
        ++ letter_text in_string letter) }
{
    match letter {
        '"' => line.push_str("\\\""),
        '\\' => line.push_str("\\\\"),
        _ if letter < ' ' => put_escape(letter, line),
        _ => line.push(letter),
    }
}

/// Appends a control character as a string of JSON has it.
fn put_escape(letter: char, line: &mut String) -> Result<(), AllocError>
    requires { letter < 32 }
    ensures { OnOk result (string_bytes line.new ≡ string_bytes line.old
        ++ (codes "\\u00" ++ (digit_char (letter / 16) ∷ digit_char (letter % 16) ∷ []))) }
{
    let code = u32::from(letter);
    write!(line, "\\u00{code:02x}")
}
