// The text of an inspection.

ghost use Rattle.std.specs.Prelude.{◌≡◌, ◌<◌, ◌-◌, ◌^◌, ◌==◌, ◌||◌, nat_le, min, map};
ghost use Rattle.std.specs.Prelude.{if◌then◌else◌, Option, Some, None};
ghost use Rattle.eventkey.specs.Writing.{Writes};
ghost use Rattle.upkeep.specs.Text.{bytes_each, events_text, full_at};
ghost use Rattle.upkeep.specs.Text.{inspection_text, kinds_text, line, pace_text, percent};
ghost use Rattle.upkeep.specs.Text.{records_text, rest_text, seals_text, sectors_text, time_text};

use crate::inspection::inspecting::Inspection;
use disk::SECTOR_BYTES;
use std::io::{Result, Write};
use texts::{write_number, write_text};

/// Writes an inspection, one fact per line: how far the run has come, how many events are
/// committed, which records there are, how many sectors are in use, and, if there is a commit, when
/// the disk is full at the pace of the last ones.
///
/// If the writer fails, it has taken a prefix of the text, and its error is returned.
pub fn write_inspection<W: Write>(shown: &Inspection, out: &mut W) -> Result<()>
    ensures { Writes (W.contents out.old) (W.contents out.new) result (inspection_text shown.now) }
{
    write_time(shown, out)?;
    write_events(shown, out)?;
    write_records(shown, out)?;
    write_sectors(shown, out)?;
    write_rest(shown, out)
}

/// Writes how far the run has come.
fn write_time<W: Write>(shown: &Inspection, out: &mut W) -> Result<()>
    ensures { Writes (W.contents out.old) (W.contents out.new) result (time_text shown.now) }
{
    let percent = percent(shown.time, shown.end);
    let facts = [
        ("virtual time ", shown.time),
        (" of ", shown.end),
        (" ticks, ", percent),
    ];
    write_line(&facts, " percent\n", out)
}

/// Writes how many events are committed, and how many bytes of the disk each of them takes.
fn write_events<W: Write>(shown: &Inspection, out: &mut W) -> Result<()>
    ensures { Writes (W.contents out.old) (W.contents out.new) result (events_text shown.now) }
{
    if shown.events == 0 {
        return write_line(
            &[("events ", shown.events)],
            ", - bytes of disk an event\n",
            out,
        );
    }
    let each = bytes_each(shown.used, shown.events);
    write_line(
        &[("events ", shown.events), (", ", each)],
        " bytes of disk an event\n",
        out,
    )
}

/// Writes how many records there are, and of which kinds.
fn write_records<W: Write>(shown: &Inspection, out: &mut W) -> Result<()>
    ensures { Writes (W.contents out.old) (W.contents out.new) result (records_text shown.now) }
{
    write_kinds(shown, out)?;
    write_seals(shown, out)
}

/// Writes how many records there are, and how many of them are checkpoints and ends.
fn write_kinds<W: Write>(shown: &Inspection, out: &mut W) -> Result<()>
    ensures { Writes (W.contents out.old) (W.contents out.new) result (kinds_text shown.now) }
{
    match shown.last_checkpoint {
        None => write_line(
            &[
                ("records ", shown.records),
                (", of them ", shown.checkpoints),
                (" checkpoints and ", shown.ends),
            ],
            " ends\n",
            out,
        ),
        Some(time) => write_line(
            &[
                ("records ", shown.records),
                (", of them ", shown.checkpoints),
                (" checkpoints (the last at ", time),
                (" ticks) and ", shown.ends),
            ],
            " ends\n",
            out,
        ),
    }
}

/// Writes how many seals there are, if there are any.
fn write_seals<W: Write>(shown: &Inspection, out: &mut W) -> Result<()>
    ensures { Writes (W.contents out.old) (W.contents out.new) result (seals_text shown.now) }
{
    if shown.seals == 0 {
        return Ok(());
    }
    write_line(
        &[("seals ", shown.seals)],
        ", compared with the records before them\n",
        out,
    )
}

/// Writes how many sectors are in use.
fn write_sectors<W: Write>(shown: &Inspection, out: &mut W) -> Result<()>
    ensures { Writes (W.contents out.old) (W.contents out.new) result (sectors_text shown.now) }
{
    write_line(
        &[
            ("sectors ", shown.used),
            (" used of ", shown.sectors),
            (", ", shown.sectors.saturating_sub(shown.used)),
        ],
        " free\n",
        out,
    )
}

/// Writes when the disk is full, unless the run is at its end.
fn write_rest<W: Write>(shown: &Inspection, out: &mut W) -> Result<()>
    ensures { Writes (W.contents out.old) (W.contents out.new) result (rest_text shown.now) }
{
    if shown.end <= shown.time {
        return Ok(());
    }
    write_pace(shown, out)
}

/// Writes when the disk is full at the pace of the last commits, if there are any.
fn write_pace<W: Write>(shown: &Inspection, out: &mut W) -> Result<()>
    ensures { Writes (W.contents out.old) (W.contents out.new) result (pace_text shown.now) }
{
    if shown.pace.commits == 0 {
        return Ok(());
    }
    match full_before_end(shown) {
        None => write_line(
            &[(
                "room to the end at the pace of the last ",
                shown.pace.commits,
            )],
            " commits\n",
            out,
        ),
        Some(time) => write_line(
            &[
                ("full at about ", time),
                (" ticks at the pace of the last ", shown.pace.commits),
            ],
            " commits\n",
            out,
        ),
    }
}

/// Writes each number after its text, and then the end of the line.
fn write_line<W: Write>(facts: &[(&str, u64)], last: &str, out: &mut W) -> Result<()>
    ensures { Writes (W.contents out.old) (W.contents out.new) result
        (line (map (λ fact. (fact.0.now, fact.1)) facts.now) last.now) }
{
    for (before, number) in facts {
        write_number(before, *number, out)?;
    }
    write_text(last, out)
}

/// The number, or the maximum of 64 bits if it is greater.
fn at_most(number: u128) -> u64
    ensures { result ≡ min number (2 ^ 64 - 1) }
{
    if number > u128::from(u64::MAX) {
        return u64::MAX;
    }
    number as u64
}

/// The percentage of the end that is reached, rounded down; 0 if the end is 0.
fn percent(time: u64, end: u64) -> u64
    ensures { result ≡ percent time end }
{
    if end == 0 {
        return 0;
    }
    at_most(u128::from(time) * 100 / u128::from(end))
}

/// The bytes of `sectors` sectors per event, rounded up.
fn bytes_each(sectors: u64, events: u64) -> u64
    requires { 0 < events }
    ensures { result ≡ bytes_each sectors events }
{
    let bytes = u128::from(sectors) * SECTOR_BYTES as u128;
    at_most((bytes + u128::from(events - 1)) / u128::from(events))
}

/// The time at which the disk is full, if that is before the end.
fn full_before_end(shown: &Inspection) -> Option<u64>
    ensures { result ≡ (if shown.now.pace.sectors == 0 || nat_le shown.now.end (full_at shown.now)
        then None else Some (full_at shown.now)) }
{
    if shown.pace.sectors == 0 {
        return None;
    }
    let free = u128::from(shown.sectors.saturating_sub(shown.used));
    let past = u128::from(shown.time.saturating_sub(shown.pace.from));
    let full = u128::from(shown.time) + free * past / u128::from(shown.pace.sectors);
    if u128::from(shown.end) <= full {
        return None;
    }
    Some(full as u64)
}
