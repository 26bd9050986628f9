// The rows of a trace: reading and writing its text.

ghost use Rattle.std.specs.Prelude.{◌≡◌, IfOk, flat_map, true};
ghost use Rattle.eventkey.specs.Writing.{Writes};
ghost use Rattle.pictures.specs.Turns.{trace_text, turn_text};
ghost use Rattle.pictures.specs.declared.turns.TheConstants.{TRACE_HEAD};

use crate::filled::write_filled;
use std::alloc::{AllocError, AllocFailed, Global};
use std::io::{Error as IoError, Result as IoResult, Write};
use std::str::Split;
use texts::write_text;
use thiserror::Error;

/// A row of a trace: one turn of a node.
#[derive(Clone, Copy, Debug, PartialEq, Eq)]
pub struct Row {
    /// The number of the round.
    pub round: u64,
    /// The number of the node.
    pub node: u64,
    /// How many events the node was allowed to handle.
    pub budget: u64,
    /// The node's GVT in ticks: the floor that its parcel brought.
    pub gvt: u64,
    /// How many messages were delivered to it.
    pub delivered: u64,
    /// How many of these were antimessages.
    pub antimessages: u64,
    /// How many messages it handled.
    pub handled: u64,
    /// How many messages it sent.
    pub sent: u64,
    /// How many events it reported, which no rollback can reach.
    pub reported: u64,
    /// The time in ticks of the last commit before the turn.
    pub committed: u64,
    /// How many events the log had after that commit.
    pub events: u64,
}

/// The reason why a trace cannot be read.
#[derive(Clone, Copy, Debug, PartialEq, Eq, Error)]
pub enum NotRead {
    /// An allocation failed.
    #[error("NoMemory")]
    NoMemory,
    /// The text is not a trace.
    #[error("BadTrace")]
    BadTrace,
}

// A number replaces each `$`.
const TURN: &str = "$,$,$,$,$,$,$,$,$,$,$\n";

/// The names of a row's fields.
const TRACE_HEAD: &str =
    "round,node,budget,gvt,delivered,antimessages,handled,sent,reported,committed,events\n";

impl From<AllocError> for NotRead {
    ghost use Rattle.pictures.specs.declared.turns.NotRead.TheVariants.{NoMemory};

    ghost from_gives = { λ _ e. e ≡ NoMemory };

    fn from(_fault: AllocError) -> NotRead {
        NotRead::NoMemory
    }
}

impl<T: Drop> From<AllocFailed<T>> for NotRead {
    ghost use Rattle.pictures.specs.declared.turns.NotRead.TheVariants.{NoMemory};

    ghost from_gives = { λ _ e. e ≡ NoMemory };

    fn from(_fault: AllocFailed<T>) -> NotRead {
        NotRead::NoMemory
    }
}

impl From<IoError> for NotRead {
    ghost use Rattle.pictures.specs.declared.turns.NotRead.TheVariants.{NoMemory};

    ghost from_gives = { λ _ e. e ≡ NoMemory };

    /// A write to a text in memory fails only if an allocation failed.
    fn from(_error: IoError) -> NotRead {
        NotRead::NoMemory
    }
}

/// Reads the rows of a trace's text.
///
/// `BadTrace` comes if the text is not the line of names followed by rows: 11 numbers below 2^64
/// each, in decimal digits, separated by commas and ended by a line feed. `NoMemory` is returned if
/// an allocation failed. It costs time in proportion to the text, and memory for the rows and for a
/// copy of the text.
pub fn read_rows(alloc: Global, text: &[u8]) -> Result<Vec<Row>, NotRead>
    ensures { IfOk result (λ rows. trace_text rows.items ≡ text.now) }
{
    let rows = rows_of(alloc, text)?;
    if is_text_of(alloc, &rows, text)? {
        Ok(rows)
    } else {
        Err(NotRead::BadTrace)
    }
}

/// Parses the rows of a text leniently; `is_text_of` refuses the texts that it should not accept.
fn rows_of(alloc: Global, text: &[u8]) -> Result<Vec<Row>, NotRead> {
    let Ok(text) = str::from_utf8(text) else {
        return Err(NotRead::BadTrace);
    };
    let Some(rest) = text.strip_prefix(TRACE_HEAD) else {
        return Err(NotRead::BadTrace);
    };
    let mut rows = Vec::new(alloc);
    for line in rest.lines() {
        let Some(row) = row_of(line) else {
            return Err(NotRead::BadTrace);
        };
        rows.push(row)?;
    }
    Ok(rows)
}

/// Returns whether a text is that of these rows, by writing them and comparing.
fn is_text_of(alloc: Global, rows: &[Row], text: &[u8]) -> Result<bool, NotRead>
    ensures { IfOk result (λ same. same ≡ true → trace_text rows.now ≡ text.now) }
{
    let mut written = Vec::with_capacity(alloc, text.len())?;
    write_rows(rows, &mut written)?;
    Ok(written.as_slice() == text)
}

/// Writes the line of a trace that names the fields of its rows.
///
/// If the writer fails, its error is returned, and it has taken a beginning of the line.
pub fn write_names<W: Write>(out: &mut W) -> IoResult<()>
    ensures { Writes (W.contents out.old) (W.contents out.new) result TRACE_HEAD.now }
{
    write_text(TRACE_HEAD, out)
}

/// Writes the line of names and the rows.
fn write_rows<W: Write>(rows: &[Row], out: &mut W) -> IoResult<()>
    ensures { Writes (W.contents out.old) (W.contents out.new) result (trace_text rows.now) }
{
    write_names(out)?;
    write_turns(rows, out)
}

fn write_turns<W: Write>(rows: &[Row], out: &mut W) -> IoResult<()>
    ensures { Writes (W.contents out.old) (W.contents out.new) result
        (flat_map turn_text rows.now) }
{
    for row in rows {
        write_turn(row, out)?;
    }
    Ok(())
}

/// Writes the row of a turn.
///
/// If the writer fails, its error is returned, and it has taken a beginning of the row.
pub fn write_turn<W: Write>(row: &Row, out: &mut W) -> IoResult<()>
    ensures { Writes (W.contents out.old) (W.contents out.new) result (turn_text row.now) }
{
    let numbers = [
        row.round,
        row.node,
        row.budget,
        row.gvt,
        row.delivered,
        row.antimessages,
        row.handled,
        row.sent,
        row.reported,
        row.committed,
        row.events,
    ];
    write_filled(TURN, &numbers, out)
}

/// Parses the row of a line, as leniently as `rows_of`.
fn row_of(line: &str) -> Option<Row> {
    let mut fields = line.split(',');
    Some(Row {
        round: next_of(&mut fields)?,
        node: next_of(&mut fields)?,
        budget: next_of(&mut fields)?,
        gvt: next_of(&mut fields)?,
        delivered: next_of(&mut fields)?,
        antimessages: next_of(&mut fields)?,
        handled: next_of(&mut fields)?,
        sent: next_of(&mut fields)?,
        reported: next_of(&mut fields)?,
        committed: next_of(&mut fields)?,
        events: next_of(&mut fields)?,
    })
}

/// Parses the number of the next field.
fn next_of(fields: &mut Split<'_, char>) -> Option<u64> {
    fields.next()?.parse().ok()
}
