// The figures of a run as texts.

ghost use Rattle.std.specs.Prelude.{◌∷◌, ◌++◌, [], flat_map, replicate};
ghost use Rattle.eventkey.specs.Writing.{Writes};
ghost use Rattle.pictures.specs.Filled.{filled as filled_with};
ghost use Rattle.pictures.specs.Tables.{busy_numbers, columns_text, csv_text, right};
ghost use Rattle.pictures.specs.Tables.{first_digit, second_digit, spread_numbers, stats_text};
ghost use Rattle.pictures.specs.Tables.{third_digit};
ghost use Rattle.pictures.specs.declared.counted.Busy.{Busy};

use crate::filled::write_filled;
use crate::{Busy, Figures, Spread};
use itoa::Buffer;
use std::io::{Result, Write};
use texts::write_text;

// A number replaces each `$`.
const SUMMARY: &str = "\
$ events and $ pending messages of $ processes, up to virtual time $: $.$$$ events a tick
";

const SPREADS: &str = "
                 least      median        most
";

const BUSIEST: &str = "
     process     handled        sent
";

const CSV: &str = "\
time,processes,events,pending,events_per_tick
$,$,$,$,$.$$$
figure,least,median,most
handled,$,$,$
sent,$,$,$
delay,$,$,$
process,handled,sent
";

const CSV_ROW: &str = "$,$,$\n";

/// Writes the figures of a run as a table: a summary line; the least, the lower median and the
/// greatest of the events handled by a process, the messages sent by a process, and the ticks from
/// sending to receiving of a message; and the ten busiest processes.
///
/// If the writer fails, its error is returned, and it has taken a beginning of the text.
pub fn write_stats<W: Write>(figures: &Figures, out: &mut W) -> Result<()>
    ensures { Writes (W.contents out.old) (W.contents out.new) result
        (stats_text figures.now) }
{
    write_summary(figures, out)?;
    write_text(SPREADS, out)?;
    write_spread("handled   ", &figures.handled, out)?;
    write_spread("sent      ", &figures.sent, out)?;
    write_spread("delay     ", &figures.delay, out)?;
    write_text(BUSIEST, out)?;
    write_busiest(figures.busiest.as_slice(), out)
}

/// Writes the figures of a run as comma-separated values: three tables, each after a line of names.
///
/// If the writer fails, its error is returned, and it has taken a beginning of the text.
pub fn write_stats_csv<W: Write>(figures: &Figures, out: &mut W) -> Result<()>
    ensures { Writes (W.contents out.old) (W.contents out.new) result (csv_text figures.now) }
{
    write_csv_figures(figures, out)?;
    write_csv_rows(figures.busiest.as_slice(), out)
}

fn write_summary<W: Write>(figures: &Figures, out: &mut W) -> Result<()>
    ensures { Writes (W.contents out.old) (W.contents out.new) result
        (filled_with SUMMARY.now
        (figures.now.events ∷ figures.now.pending ∷ figures.now.processes ∷ figures.now.time
        ∷ figures.now.rate.whole ∷ first_digit figures.now.rate.thousandths
        ∷ second_digit figures.now.rate.thousandths
        ∷ third_digit figures.now.rate.thousandths ∷ [])) }
{
    let digits = figures.rate.thousandths;
    let numbers = [
        figures.events,
        figures.pending,
        figures.processes,
        figures.time,
        figures.rate.whole,
        digits / 100,
        digits / 10 % 10,
        digits % 10,
    ];
    write_filled(SUMMARY, &numbers, out)
}

fn write_spread<W: Write>(label: &str, spread: &Spread, out: &mut W) -> Result<()>
    ensures { Writes (W.contents out.old) (W.contents out.new) result
        (columns_text label.now (spread_numbers spread.now)) }
{
    write_columns(label, &[spread.least, spread.median, spread.most], out)
}

fn write_busiest<W: Write>(busiest: &[Busy], out: &mut W) -> Result<()>
    ensures { Writes (W.contents out.old) (W.contents out.new) result
        (flat_map (λ (b : Busy). columns_text [] (busy_numbers b)) busiest.now) }
{
    for busy in busiest {
        write_columns("", &[u64::from(busy.process), busy.events, busy.sends], out)?;
    }
    Ok(())
}

/// Writes a line: a label, and a column for each number.
fn write_columns<W: Write>(label: &str, numbers: &[u64], out: &mut W) -> Result<()>
    ensures { Writes (W.contents out.old) (W.contents out.new) result
        (columns_text label.now numbers.now) }
{
    write_text(label, out)?;
    write_row(numbers, out)?;
    write_text("\n", out)
}

fn write_row<W: Write>(numbers: &[u64], out: &mut W) -> Result<()>
    ensures { Writes (W.contents out.old) (W.contents out.new) result
        (flat_map right numbers.now) }
{
    for number in numbers {
        write_right(*number, out)?;
    }
    Ok(())
}

/// Writes a number, right-aligned in a column of 12 characters.
fn write_right<W: Write>(number: u64, out: &mut W) -> Result<()>
    ensures { Writes (W.contents out.old) (W.contents out.new) result (right number) }
{
    let mut digits = Buffer::new();
    let text = digits.format(number);
    write_blanks(12usize.saturating_sub(text.len()), out)?;
    write_text(text, out)
}

fn write_blanks<W: Write>(count: usize, out: &mut W) -> Result<()>
    ensures { Writes (W.contents out.old) (W.contents out.new) result (replicate count 32) }
{
    for _ in 0..count {
        write_text(" ", out)?;
    }
    Ok(())
}

fn write_csv_figures<W: Write>(figures: &Figures, out: &mut W) -> Result<()>
    ensures { Writes (W.contents out.old) (W.contents out.new) result
        (filled_with CSV.now
        (figures.now.time ∷ figures.now.processes ∷ figures.now.events ∷ figures.now.pending
        ∷ figures.now.rate.whole ∷ first_digit figures.now.rate.thousandths
        ∷ second_digit figures.now.rate.thousandths ∷ third_digit figures.now.rate.thousandths
        ∷ figures.now.handled.least ∷ figures.now.handled.median ∷ figures.now.handled.most
        ∷ figures.now.sent.least ∷ figures.now.sent.median ∷ figures.now.sent.most
        ∷ figures.now.delay.least ∷ figures.now.delay.median ∷ figures.now.delay.most ∷ [])) }
{
    let digits = figures.rate.thousandths;
    let numbers = [
        figures.time,
        figures.processes,
        figures.events,
        figures.pending,
        figures.rate.whole,
        digits / 100,
        digits / 10 % 10,
        digits % 10,
        figures.handled.least,
        figures.handled.median,
        figures.handled.most,
        figures.sent.least,
        figures.sent.median,
        figures.sent.most,
        figures.delay.least,
        figures.delay.median,
        figures.delay.most,
    ];
    write_filled(CSV, &numbers, out)
}

fn write_csv_rows<W: Write>(busiest: &[Busy], out: &mut W) -> Result<()>
    ensures { Writes (W.contents out.old) (W.contents out.new) result
        (flat_map (λ (b : Busy). filled_with CSV_ROW.now (busy_numbers b)) busiest.now) }
{
    for busy in busiest {
        write_filled(
            CSV_ROW,
            &[u64::from(busy.process), busy.events, busy.sends],
            out,
        )?;
    }
    Ok(())
}
