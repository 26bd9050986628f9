// Options that do not go together. `clap` could refuse them itself, but says nothing of the words
// that it then takes.

ghost use Rattle.std.specs.Prelude.{◌≡◌, ◌∷◌, ◌||◌, [], is_some, MatchOption};
ghost use Rattle.clap.specs.Words.{found_of, rows_of, HasKind};
ghost use Rattle.cli.specs.Command.{company_fault, drawn_fault, excluded_fault};
ghost use Rattle.cli.specs.Command.{excludes_histogram, is_drawn_twice};
ghost use Rattle.cli.specs.Command.{is_excluded, is_excluded_anywhere, is_excluded_over_nodes};
ghost use Rattle.cli.specs.Command.{is_lonely, is_no_span, is_over_nodes, is_there, is_used};
ghost use Rattle.cli.specs.Command.{is_without_another, is_without_archive};
ghost use Rattle.cli.specs.Command.{is_without_checkpoint, is_without_create, is_without_record};
ghost use Rattle.cli.specs.Command.{is_without_sockets, is_without_table, lonely_fault};
ghost use Rattle.cli.specs.Command.{looking_fault, span_fault};
ghost use Rattle.cli.specs.Command.{together_fault};

use crate::values::{is_text, is_used, optional_number, optional_text};
use clap::error::ErrorKind;
use clap::{ArgMatches, Command as ClapCommand, Error};
use std::alloc::Global;

/// The maximum virtual time, in ticks.
pub const LAST_TIME: u64 = 1_099_511_627_776;

/// The error for options that do not go together, in a program of this name.
pub fn refused_company(alloc: Global, name: &str, values: &ArgMatches<'_>) -> Option<Error>
    ensures { MatchOption result (company_fault (rows_of (found_of values.now)) ≡ [])
        (λ e. HasKind (company_fault (rows_of (found_of values.now))) e) }
{
    match refused_lonely(alloc, name, values) {
        Some(error) => Some(error),
        None => refused_together(alloc, name, values),
    }
}

/// The error for options that exclude one another, in a program of this name.
fn refused_together(alloc: Global, name: &str, values: &ArgMatches<'_>) -> Option<Error>
    ensures { MatchOption result (together_fault (rows_of (found_of values.now)) ≡ [])
        (λ e. HasKind (together_fault (rows_of (found_of values.now))) e) }
{
    match refused_excluded(alloc, name, values) {
        Some(error) => Some(error),
        None => refused_looking(alloc, name, values),
    }
}

/// The error for options that do not go together in a command that looks at a run.
fn refused_looking(alloc: Global, name: &str, values: &ArgMatches<'_>) -> Option<Error>
    ensures { MatchOption result (looking_fault (rows_of (found_of values.now)) ≡ [])
        (λ e. HasKind (looking_fault (rows_of (found_of values.now))) e) }
{
    match refused_drawn(alloc, name, values) {
        Some(error) => Some(error),
        None => refused_span(alloc, name, values),
    }
}

/// The error for an option that says nothing without another one.
fn refused_lonely(alloc: Global, name: &str, values: &ArgMatches<'_>) -> Option<Error>
    ensures { MatchOption result (lonely_fault (rows_of (found_of values.now)) ≡ [])
        (λ e. HasKind (lonely_fault (rows_of (found_of values.now))) e) }
{
    match lonely(values) {
        Some(message) => Some(error_of(alloc, name, ErrorKind::MissingRequiredArgument, message)),
        None => None,
    }
}

/// What is wrong with an option that says nothing without another one.
fn lonely(values: &ArgMatches<'_>) -> Option<&'static str>
    ensures { is_some result ≡ is_lonely (rows_of (found_of values.now)) }
{
    match without_sockets(values) {
        Some(message) => Some(message),
        None => without_another(values),
    }
}

/// What is wrong with an option that says nothing without another one, apart from those of node
/// programs.
fn without_another(values: &ArgMatches<'_>) -> Option<&'static str>
    ensures { is_some result ≡ is_without_another (rows_of (found_of values.now)) }
{
    match without_create(values) {
        Some(message) => Some(message),
        None => without_record(values),
    }
}

/// What is wrong with an option for seals, archived parts or a table, if there are none.
fn without_record(values: &ArgMatches<'_>) -> Option<&'static str>
    ensures { is_some result ≡ is_without_record (rows_of (found_of values.now)) }
{
    match without_checkpoint(values) {
        Some(message) => Some(message),
        None => without_archive_or_table(values),
    }
}

/// What is wrong with an option for archived parts or a table, if there are none.
fn without_archive_or_table(values: &ArgMatches<'_>) -> Option<&'static str>
    ensures { is_some result ≡ (is_without_archive (rows_of (found_of values.now))
        || is_without_table (rows_of (found_of values.now))) }
{
    match without_archive(values) {
        Some(message) => Some(message),
        None => without_table(values),
    }
}

/// What is wrong with an option of node programs where no folder of their sockets is given.
fn without_sockets(values: &ArgMatches<'_>) -> Option<&'static str>
    ensures { is_some result ≡ is_without_sockets (rows_of (found_of values.now)) }
{
    if optional_text(values, "sockets").is_some() {
        None
    } else if is_used(values, "attach") {
        Some(
            "the argument '--attach' needs '--sockets <DIR>', the folder in which programs connect",
        )
    } else if is_used(values, "bind") {
        Some("the argument '--bind' needs '--sockets <DIR>': it is about node programs")
    } else if is_there(values, "judge") {
        Some("the argument '--judge <N>' needs '--sockets <DIR>': it is about node programs")
    } else if is_there(values, "silence") {
        Some(
            "the argument '--silence <SECONDS>' needs '--sockets <DIR>': it is about node programs",
        )
    } else if is_there(values, "retries") {
        Some("the argument '--retries <N>' needs '--sockets <DIR>': it is about node programs")
    } else {
        None
    }
}

/// What is wrong with an option for a disk that a run makes, if it makes none.
fn without_create(values: &ArgMatches<'_>) -> Option<&'static str>
    ensures { is_some result ≡ is_without_create (rows_of (found_of values.now)) }
{
    if is_used(values, "create") {
        None
    } else if is_there(values, "created") {
        Some("the argument '--sectors <N>' needs '--create', which makes the disk")
    } else if is_used(values, "reserved") {
        Some("the argument '--reserve' needs '--create', which makes the disk")
    } else if is_used(values, "kept") {
        Some("the argument '--keep-model' needs '--create', which makes the disk")
    } else {
        None
    }
}

/// What is wrong with an option for seals, if a run makes no checkpoints.
fn without_checkpoint(values: &ArgMatches<'_>) -> Option<&'static str>
    ensures { is_some result ≡ is_without_checkpoint (rows_of (found_of values.now)) }
{
    if is_there(values, "checkpoint") {
        None
    } else if is_used(values, "seal") {
        Some("the argument '--seal' needs '--checkpoint <E>': a seal follows a checkpoint")
    } else {
        None
    }
}

/// What is wrong with an option for archived parts, if a run makes none.
fn without_archive(values: &ArgMatches<'_>) -> Option<&'static str>
    ensures { is_some result ≡ is_without_archive (rows_of (found_of values.now)) }
{
    if is_used(values, "archive-when-full") {
        None
    } else if is_there(values, "keep") {
        Some("the argument '--keep <K>' needs '--archive-when-full', which makes archived parts")
    } else {
        None
    }
}

/// What is wrong with a tick from which on a table counts, if none is named.
fn without_table(values: &ArgMatches<'_>) -> Option<&'static str>
    ensures { is_some result ≡ is_without_table (rows_of (found_of values.now)) }
{
    if is_there(values, "table") {
        None
    } else if is_there(values, "warm-up") {
        Some("the argument '--warm-up <T>' needs '--table <NAME>', which names a table")
    } else {
        None
    }
}

/// The error for options that exclude one another.
fn refused_excluded(alloc: Global, name: &str, values: &ArgMatches<'_>) -> Option<Error>
    ensures { MatchOption result (excluded_fault (rows_of (found_of values.now)) ≡ [])
        (λ e. HasKind (excluded_fault (rows_of (found_of values.now))) e) }
{
    match excluded(values) {
        Some(message) => Some(error_of(alloc, name, ErrorKind::ArgumentConflict, message)),
        None => None,
    }
}

/// What is wrong with options that exclude one another.
fn excluded(values: &ArgMatches<'_>) -> Option<&'static str>
    ensures { is_some result ≡ is_excluded (rows_of (found_of values.now)) }
{
    match excluded_over_nodes(values) {
        Some(message) => Some(message),
        None => excluded_anywhere(values),
    }
}

/// What is wrong with options that exclude one another in any run, or in any command.
fn excluded_anywhere(values: &ArgMatches<'_>) -> Option<&'static str>
    ensures { is_some result ≡ is_excluded_anywhere (rows_of (found_of values.now)) }
{
    if is_used(values, "archive-when-full") && is_used(values, "grow-when-full") {
        Some("the argument '--archive-when-full' cannot be used with '--grow-when-full'")
    } else if is_used(values, "advice") && is_used(values, "quiet") {
        Some("the argument '--advice' cannot be used with '--quiet'")
    } else if is_used(values, "model") && !is_text(optional_text(values, "format"), "text") {
        Some("the argument '--model' prints a file as it is, and cannot be used with '--format'")
    } else {
        None
    }
}

/// What is wrong with options that exclude one another in a run over nodes.
fn excluded_over_nodes(values: &ArgMatches<'_>) -> Option<&'static str>
    ensures { is_some result ≡ is_excluded_over_nodes (rows_of (found_of values.now)) }
{
    if is_used(values, "together") && is_used(values, "overlap") {
        Some("the argument '--together' cannot be used with '--overlap'")
    } else if is_used(values, "attach") && is_used(values, "bind") {
        Some("the argument '--attach' cannot be used with '--bind', which starts the programs")
    } else if is_used(values, "plain") && is_over_nodes(values) {
        Some(
            "the argument '--plain' runs without nodes, and cannot be used with '--nodes', '--batch', \
             '--sockets', '--cut', '--together' or '--overlap'",
        )
    } else {
        None
    }
}

/// Whether an option of a run over nodes is used.
fn is_over_nodes(values: &ArgMatches<'_>) -> bool
    ensures { result ≡ is_over_nodes (rows_of (found_of values.now)) }
{
    is_there(values, "nodes")
        || is_there(values, "batch")
        || is_there(values, "sockets")
        || is_there(values, "cut")
        || is_used(values, "together")
        || is_used(values, "overlap")
}

/// The error if two pictures are to be drawn.
fn refused_drawn(alloc: Global, name: &str, values: &ArgMatches<'_>) -> Option<Error>
    ensures { MatchOption result (drawn_fault (rows_of (found_of values.now)) ≡ [])
        (λ e. HasKind (drawn_fault (rows_of (found_of values.now))) e) }
{
    match drawn_twice(values) {
        Some(message) => Some(error_of(alloc, name, ErrorKind::ArgumentConflict, message)),
        None => None,
    }
}

/// What is wrong if both the load and the course in a trace are to be drawn, or either of them as a
/// value change dump, or a histogram of some events or beside another picture.
fn drawn_twice(values: &ArgMatches<'_>) -> Option<&'static str>
    ensures { is_some result ≡ is_drawn_twice (rows_of (found_of values.now)) }
{
    if is_used(values, "load") && is_there(values, "trace") {
        Some("the argument '--load' cannot be used with '--trace <FILE>'")
    } else if is_text(optional_text(values, "picture"), "vcd")
        && (is_used(values, "load") || is_there(values, "trace"))
    {
        Some("the argument '--format vcd' cannot be used with '--load' or '--trace <FILE>'")
    } else if is_there(values, "histogram") && excludes_histogram(values) {
        Some(
            "the argument '--histogram <NAME>' counts all messages, and cannot be used with \
             '--load', '--trace', '--format vcd', '--from', '--to' or '--processes'",
        )
    } else {
        None
    }
}

/// Whether an option is used that makes another picture, or chooses events.
fn excludes_histogram(values: &ArgMatches<'_>) -> bool
    ensures { result ≡ excludes_histogram (rows_of (found_of values.now)) }
{
    is_used(values, "load")
        || is_there(values, "trace")
        || is_text(optional_text(values, "picture"), "vcd")
        || is_there(values, "from")
        || is_there(values, "to")
        || is_there(values, "processes")
}

/// The error if the time of `--to` is before that of `--from`.
fn refused_span(alloc: Global, name: &str, values: &ArgMatches<'_>) -> Option<Error>
    ensures { MatchOption result (span_fault (rows_of (found_of values.now)) ≡ [])
        (λ e. HasKind (span_fault (rows_of (found_of values.now))) e) }
{
    let from = optional_number(values, "from", 0, LAST_TIME);
    let to = optional_number(values, "to", 0, LAST_TIME);
    if is_no_span(from, to) {
        Some(error_of(
            alloc,
            name,
            ErrorKind::ValueValidation,
            "the time of '--to <T>' is before that of '--from <T>', so no event can be meant",
        ))
    } else {
        None
    }
}

/// Whether the second time is before the first.
fn is_no_span(from: Option<u64>, to: Option<u64>) -> bool
    ensures { result ≡ is_no_span from to }
{
    match (from, to) {
        (Some(from), Some(to)) => to < from,
        _ => false,
    }
}

/// Whether an option with a value is used. It has no default.
fn is_there(values: &ArgMatches<'_>, id: &str) -> bool
    ensures { result ≡ is_there id.now (rows_of (found_of values.now)) }
{
    optional_text(values, id).is_some()
}

/// An error of this kind in `clap`'s form, which names the program.
pub fn error_of(alloc: Global, name: &str, kind: ErrorKind, message: &str) -> Error
    ensures { HasKind (kind ∷ []) result }
{
    let usage = match format!(in alloc; "{name} <COMMAND>") {
        Ok(usage) => usage,
        Err(error) => return Error::from(error),
    };
    let mut command = ClapCommand::new(alloc, "").override_usage(usage.as_str());
    match command.error(kind, message) {
        Ok(error) => error,
        Err(error) => Error::from(error),
    }
}
