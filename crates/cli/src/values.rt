// The values of a command, as `clap` read them.

ghost use Rattle.std.specs.Prelude.{◌≡◌, ◌≤◌, ◌∷◌, [], option_and_then, option_map};
ghost use Rattle.std.specs.Prelude.{codes, false, true, IfSome, MatchOption};
ghost use Rattle.clap.specs.Values.{refused_kind};
ghost use Rattle.clap.specs.ValueTests.{accepts};
ghost use Rattle.clap.specs.Words.{first_of, found_of, rows_of, HasKind};
ghost use Rattle.clap.specs.declared.error.kind.ErrorKind.TheVariants.{InvalidValue};
ghost use Rattle.clap.specs.declared.error.kind.ErrorKind.TheVariants.{ValueValidation};
ghost use Rattle.cli.specs.Command.{batch_in, form_fault, format_in, has_no_count, has_no_size};
ghost use Rattle.cli.specs.Command.{has_no_count_of_run, has_no_form, has_no_name, is_no_count};
ghost use Rattle.cli.specs.Command.{is_no_format, is_no_picture, is_no_range, is_no_size};
ghost use Rattle.cli.specs.Command.{is_no_table, table_named};
ghost use Rattle.cli.specs.Command.{is_number, is_text, is_used, judge_in, rounds_in};
ghost use Rattle.cli.specs.Command.{number_fault, number_in, number_or, optional_number_in};
ghost use Rattle.cli.specs.Command.{range_of, text_in};
ghost use Rattle.cli.specs.Command.{text_fault, unread_fault, written_number};
ghost use Rattle.cli.specs.Command.{IsBatchRanged, IsFlagIn, IsWithin};

use crate::command::{BatchOption, Format, StatsTable};
use crate::company::refused_company;
use crate::grammar::{most_sectors, refusing};
use clap::builder::ValueParser;
use clap::{ArgMatches, Error};
use std::alloc::Global;

/// The text of a required argument.
pub fn text<'a>(values: &ArgMatches<'a>, id: &str) -> &'a str
    ensures { result.now ≡ text_in id.now (rows_of (found_of values.now)) }
{
    values.get_str(id).unwrap_or("")
}

/// The text of an option or an argument, if it has one.
pub fn optional_text<'a>(values: &ArgMatches<'a>, id: &str) -> Option<&'a str>
    ensures { option_map (λ text. text.now) result ≡ first_of id.now
        (rows_of (found_of values.now)) }
{
    values.get_str(id)
}

/// Whether an option has this text.
pub fn is_text(text: Option<&str>, word: &str) -> bool
    ensures { result ≡ is_text (option_map (λ text. text.now) text.entry) word.now }
{
    match text {
        Some(text) => text == word,
        None => false,
    }
}

/// Whether an option without a value is used, by its text.
pub fn is_used(values: &ArgMatches<'_>, id: &str) -> bool
    ensures { result ≡ is_used id.now (rows_of (found_of values.now)) }
{
    is_text(optional_text(values, id), "true")
}

/// Whether an option without a value is used.
pub fn is_flagged(values: &ArgMatches<'_>, id: &str) -> bool
    ensures { IsFlagIn id.now (rows_of (found_of values.now)) result }
{
    values.get_flag(id)
}

/// The number of an option that takes one from `least` to `most`. Other text yields `least`, but
/// `clap` or `refusal` refuses it.
pub fn number(values: &ArgMatches<'_>, id: &str, least: u64, most: u64) -> u64
    requires { least ≤ most }
    ensures value { result ≡ number_in id.now least most (rows_of (found_of values.now)) }
    ensures least { least ≤ result }
    ensures most { result ≤ most }
{
    match values.get_one::<u64>(id) {
        Some(number) if least <= number && number <= most => number,
        _ => least,
    }
}

/// The number of an option, if it is used.
pub fn optional_number(values: &ArgMatches<'_>, id: &str, least: u64, most: u64) -> Option<u64>
    requires { least ≤ most }
    ensures value { result ≡ optional_number_in id.now least most (rows_of (found_of values.now)) }
    ensures range { IsWithin least most result }
{
    match values.get_str(id) {
        Some(_) => Some(number(values, id, least, most)),
        None => None,
    }
}

/// The number of an option whose numbers have 32 bits.
pub fn small_number(values: &ArgMatches<'_>, id: &str, least: u32, most: u32) -> u32
    requires { least ≤ most }
    ensures value { result ≡ number_in id.now least most (rows_of (found_of values.now)) }
    ensures least { least ≤ result }
    ensures most { result ≤ most }
{
    number(values, id, u64::from(least), u64::from(most)) as u32
}

/// The number of an option whose numbers have 32 bits, if it is used.
pub fn optional_small_number(
    values: &ArgMatches<'_>,
    id: &str,
    least: u32,
    most: u32,
) -> Option<u32>
    requires { least ≤ most }
    ensures value { result ≡ optional_number_in id.now least most (rows_of (found_of values.now)) }
    ensures range { IsWithin least most result }
{
    match values.get_str(id) {
        Some(_) => Some(small_number(values, id, least, most)),
        None => None,
    }
}

/// The number of an option whose numbers have 32 bits, or this default.
pub fn small_number_or(
    values: &ArgMatches<'_>,
    id: &str,
    least: u32,
    most: u32,
    default: u32,
) -> u32
    requires least { least ≤ default }
    requires most { default ≤ most }
    ensures value { result ≡ number_or id.now least most default
        (rows_of (found_of values.now)) }
    ensures least { least ≤ result }
    ensures most { result ≤ most }
{
    match optional_small_number(values, id, least, most) {
        Some(number) => number,
        None => default,
    }
}

/// The batch of a run.
pub fn batch(values: &ArgMatches<'_>) -> BatchOption
    ensures value { result ≡ batch_in (rows_of (found_of values.now)) }
    ensures ranged { IsBatchRanged result }
{
    if is_text(optional_text(values, "batch"), "auto") {
        BatchOption::Auto
    } else {
        BatchOption::Fixed(small_number_or(values, "batch", 1, u32::MAX, 16))
    }
}

/// The maximum number of rounds of a run; `unlimited` is the most of all.
pub fn rounds(values: &ArgMatches<'_>) -> u32
    ensures value { result ≡ rounds_in (rows_of (found_of values.now)) }
    ensures least { 1 ≤ result }
{
    if is_text(optional_text(values, "rounds"), "unlimited") {
        u32::MAX
    } else {
        small_number(values, "rounds", 1, u32::MAX)
    }
}

/// One in how many reported events is judged, if that is said; `all` is one in one.
pub fn judge(values: &ArgMatches<'_>) -> Option<u32>
    ensures { result ≡ judge_in (rows_of (found_of values.now)) }
{
    if is_text(optional_text(values, "judge"), "all") {
        Some(1)
    } else {
        optional_small_number(values, "judge", 0, u32::MAX)
    }
}

/// The format of what is printed. Other text yields `Text`, but `refusal` refuses it.
pub fn format(values: &ArgMatches<'_>) -> Format
    ensures { result ≡ format_in (rows_of (found_of values.now)) }
{
    let text = optional_text(values, "format");
    if is_text(text, "csv") {
        Format::Csv
    } else if is_text(text, "json") {
        Format::Json
    } else {
        Format::Text
    }
}

/// The only table that is printed, if one is named.
pub fn table(values: &ArgMatches<'_>) -> Option<StatsTable>
    ensures { result ≡ option_and_then table_named
        (first_of (codes "table") (rows_of (found_of values.now))) }
{
    match optional_text(values, "table") {
        Some(text) => table_named(text),
        None => None,
    }
}

/// The table of this name.
fn table_named(name: &str) -> Option<StatsTable>
    ensures { result ≡ table_named name.now }
{
    match name {
        "summary" => Some(StatsTable::Summary),
        "spreads" => Some(StatsTable::Spreads),
        "busiest" => Some(StatsTable::Busiest),
        "totals" => Some(StatsTable::Totals),
        "processes" => Some(StatsTable::Processes),
        "kinds" => Some(StatsTable::Kinds),
        "overall" => Some(StatsTable::Overall),
        "words" => Some(StatsTable::Words),
        _ => None,
    }
}

/// The range of processes of a picture.
pub fn range(values: &ArgMatches<'_>) -> Option<(u32, u32)>
    ensures value { result ≡ option_and_then range_of
        (first_of (codes "processes") (rows_of (found_of values.now))) }
    ensures ordered { IfSome result (λ range. range.0 ≤ range.1) }
{
    match optional_text(values, "processes") {
        Some(text) => range_of(text),
        None => None,
    }
}

/// The first and the last process of a range `A..B`.
pub fn range_of(text: &str) -> Option<(u32, u32)>
    ensures value { result ≡ range_of text.now }
    ensures ordered { IfSome result (λ range. range.0 ≤ range.1) }
{
    let (first, rest) = text.split_once('.')?;
    let last = rest.strip_prefix('.')?;
    let first = written_number(first)?;
    let last = written_number(last)?;
    if first <= last {
        Some((first, last))
    } else {
        None
    }
}

/// The number that a text is, if it is one below 2^32.
fn written_number(text: &str) -> Option<u32>
    ensures { result ≡ written_number text.now }
{
    match text.parse::<u32>() {
        Ok(number) => Some(number),
        Err(_) => None,
    }
}

/// Whether a text is a number from `least` to `most`.
fn is_number(text: &str, least: u64, most: u64) -> bool
    ensures { result ≡ is_number least most text.now }
{
    match text.parse::<u64>() {
        Ok(number) => least <= number && number <= most,
        Err(_) => false,
    }
}

/// The error for what `clap` does not refuse itself: values that it takes as any text, and options
/// that do not go together, in a program of this name.
pub fn refusal(alloc: Global, name: &str, values: &ArgMatches<'_>) -> Option<Error>
    ensures { MatchOption result (unread_fault (rows_of (found_of values.now)) ≡ [])
        (λ e. HasKind (unread_fault (rows_of (found_of values.now))) e) }
{
    match refused_text(alloc, values) {
        Some(error) => Some(error),
        None => refused_company(alloc, name, values),
    }
}

/// The error for invalid values among those that `clap` takes as any text.
fn refused_text(alloc: Global, values: &ArgMatches<'_>) -> Option<Error>
    ensures { MatchOption result (text_fault (rows_of (found_of values.now)) ≡ [])
        (λ e. HasKind (text_fault (rows_of (found_of values.now))) e) }
{
    match refused_number(alloc, values) {
        Some(error) => Some(error),
        None => refused_form(alloc, values),
    }
}

/// The error for an invalid number of sectors, or a value that is neither a number nor the word
/// that its option takes.
fn refused_number(alloc: Global, values: &ArgMatches<'_>) -> Option<Error>
    ensures { MatchOption result (number_fault (rows_of (found_of values.now)) ≡ [])
        (λ e. HasKind (number_fault (rows_of (found_of values.now))) e) }
{
    match refused_counts(alloc, values) {
        Some(error) => Some(error),
        None => refused_sizes(alloc, values),
    }
}

/// The error for an invalid batch, or an invalid number of rounds, or of events that are judged.
fn refused_counts(alloc: Global, values: &ArgMatches<'_>) -> Option<Error>
    ensures { MatchOption result (has_no_count (rows_of (found_of values.now)) ≡ false)
        (λ e. (has_no_count (rows_of (found_of values.now)) ≡ true)
        × HasKind (ValueValidation ∷ []) e) }
{
    match refused_count(alloc, "batch", "auto", 1, optional_text(values, "batch")) {
        Some(error) => Some(error),
        None => refused_of_run(alloc, values),
    }
}

/// The error for an invalid number of rounds, or of events that are judged.
fn refused_of_run(alloc: Global, values: &ArgMatches<'_>) -> Option<Error>
    ensures { MatchOption result (has_no_count_of_run (rows_of (found_of values.now)) ≡ false)
        (λ e. (has_no_count_of_run (rows_of (found_of values.now)) ≡ true)
        × HasKind (ValueValidation ∷ []) e) }
{
    match refused_count(
        alloc,
        "rounds",
        "unlimited",
        1,
        optional_text(values, "rounds"),
    ) {
        Some(error) => Some(error),
        None => refused_count(alloc, "judge", "all", 0, optional_text(values, "judge")),
    }
}

/// The error for an invalid number of sectors, of a disk that is made, or made longer, or that a
/// run makes.
fn refused_sizes(alloc: Global, values: &ArgMatches<'_>) -> Option<Error>
    ensures { MatchOption result (has_no_size (rows_of (found_of values.now)) ≡ false)
        (λ e. (has_no_size (rows_of (found_of values.now)) ≡ true)
        × HasKind (ValueValidation ∷ []) e) }
{
    let large = is_used(values, "large");
    match refused_size(alloc, large, optional_text(values, "sectors")) {
        Some(error) => Some(error),
        None => refused_size(alloc, large, optional_text(values, "created")),
    }
}

/// The error for an invalid range, format or table.
fn refused_form(alloc: Global, values: &ArgMatches<'_>) -> Option<Error>
    ensures { MatchOption result (form_fault (rows_of (found_of values.now)) ≡ [])
        (λ e. HasKind (form_fault (rows_of (found_of values.now))) e) }
{
    match refused_range(alloc, optional_text(values, "processes")) {
        Some(error) => Some(error),
        None => refused_shape(alloc, values),
    }
}

/// The error for an unknown format or table.
fn refused_shape(alloc: Global, values: &ArgMatches<'_>) -> Option<Error>
    ensures { MatchOption result (has_no_form (rows_of (found_of values.now)) ≡ false)
        (λ e. (has_no_form (rows_of (found_of values.now)) ≡ true)
        × HasKind (InvalidValue ∷ []) e) }
{
    match refused_format(alloc, optional_text(values, "format")) {
        Some(error) => Some(error),
        None => refused_name(alloc, values),
    }
}

/// The error for an unknown format of a picture, or an unknown table.
fn refused_name(alloc: Global, values: &ArgMatches<'_>) -> Option<Error>
    ensures { MatchOption result (has_no_name (rows_of (found_of values.now)) ≡ false)
        (λ e. (has_no_name (rows_of (found_of values.now)) ≡ true)
        × HasKind (InvalidValue ∷ []) e) }
{
    match refused_picture(alloc, optional_text(values, "picture")) {
        Some(error) => Some(error),
        None => refused_table(alloc, optional_text(values, "table")),
    }
}

/// The error for a value of this option that is neither this word nor a number from `least` on.
fn refused_count(
    alloc: Global,
    option: &str,
    word: &str,
    least: u64,
    text: Option<&str>,
) -> Option<Error>
    ensures { MatchOption result
        (is_no_count word.now least (option_map (λ text. text.now) text.entry) ≡ false)
        (λ e. (is_no_count word.now least (option_map (λ text. text.now) text.entry) ≡ true)
        × HasKind (ValueValidation ∷ []) e) }
{
    match text {
        Some(text) if text != word && !is_number(text, least, 4_294_967_295) => {
            let numbers = ValueParser::unsigned(least, 4_294_967_295);
            Some(no_value(alloc, option, "N", numbers, text))
        }
        _ => None,
    }
}

/// The error for an invalid number of sectors of a disk, large or not.
fn refused_size(alloc: Global, large: bool, text: Option<&str>) -> Option<Error>
    ensures { MatchOption result
        (is_no_size large (option_map (λ text. text.now) text.entry) ≡ false)
        (λ e. (is_no_size large (option_map (λ text. text.now) text.entry) ≡ true)
        × HasKind (ValueValidation ∷ []) e) }
{
    let most = u64::from(most_sectors(large));
    match text {
        Some(text) if !is_number(text, 8, most) => {
            let numbers = ValueParser::unsigned(8, most);
            Some(no_value(alloc, "sectors", "N", numbers, text))
        }
        _ => None,
    }
}

/// The error for an invalid range of processes.
fn refused_range(alloc: Global, text: Option<&str>) -> Option<Error>
    ensures { MatchOption result (is_no_range (option_map (λ text. text.now) text.entry) ≡ false)
        (λ e. (is_no_range (option_map (λ text. text.now) text.entry) ≡ true)
        × HasKind (InvalidValue ∷ []) e) }
{
    match text {
        Some(text) if range_of(text).is_none() => {
            let names = ValueParser::Names(NO_NAMES);
            Some(no_value(alloc, "processes", "A..B", names, text))
        }
        _ => None,
    }
}

/// The error for an unknown format.
fn refused_format(alloc: Global, text: Option<&str>) -> Option<Error>
    ensures { MatchOption result (is_no_format (option_map (λ text. text.now) text.entry) ≡ false)
        (λ e. (is_no_format (option_map (λ text. text.now) text.entry) ≡ true)
        × HasKind (InvalidValue ∷ []) e) }
{
    match text {
        Some(text) if text != "text" && text != "csv" && text != "json" => {
            let names = ValueParser::Names(FORMATS);
            Some(no_value(alloc, "format", "F", names, text))
        }
        _ => None,
    }
}

/// The error for an unknown format of a picture.
fn refused_picture(alloc: Global, text: Option<&str>) -> Option<Error>
    ensures { MatchOption result (is_no_picture (option_map (λ text. text.now) text.entry) ≡ false)
        (λ e. (is_no_picture (option_map (λ text. text.now) text.entry) ≡ true)
        × HasKind (InvalidValue ∷ []) e) }
{
    match text {
        Some(text) if text != "svg" && text != "vcd" => {
            let names = ValueParser::Names(PICTURES);
            Some(no_value(alloc, "format", "F", names, text))
        }
        _ => None,
    }
}

/// The error for an unknown table.
fn refused_table(alloc: Global, text: Option<&str>) -> Option<Error>
    ensures { MatchOption result (is_no_table (option_map (λ text. text.now) text.entry) ≡ false)
        (λ e. (is_no_table (option_map (λ text. text.now) text.entry) ≡ true)
        × HasKind (InvalidValue ∷ []) e) }
{
    match text {
        Some(text) if table_named(text).is_none() => {
            let names = ValueParser::Names(TABLES);
            Some(no_value(alloc, "table", "NAME", names, text))
        }
        _ => None,
    }
}

const NO_NAMES: &[&str] = &[];

const FORMATS: &[&str] = &["text", "csv", "json"];

const PICTURES: &[&str] = &["svg", "vcd"];

const TABLES: &[&str] = &[
    "summary",
    "spreads",
    "busiest",
    "totals",
    "processes",
    "kinds",
    "overall",
    "words",
];

/// `clap`'s error for a text of an option whose values pass this parser, which refuses the text.
fn no_value<'a>(
    alloc: Global,
    option: &'a str,
    value: &'a str,
    parser: ValueParser<'a>,
    text: &'a str,
) -> Error
    requires { accepts false parser text.now ≡ false }
    ensures { HasKind (refused_kind parser.entry ∷ []) result }
{
    let command = match refusing(alloc, option, value, parser, text) {
        Ok(command) => command,
        Err(error) => return Error::from(error),
    };
    match command.try_get_matches_from(NO_NAMES) {
        Ok(_) => unreachable!(),
        Err(error) => error,
    }
}
