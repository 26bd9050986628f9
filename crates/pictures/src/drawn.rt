// The space-time diagram of a run.

ghost use Rattle.std.specs.Prelude.{◌≡◌, ◌≤◌, ◌<◌, ◌+◌, ◌-◌, ◌*◌, ◌^◌, ◌++◌, drop, flat_map};
ghost use Rattle.std.specs.Prelude.{length};
ghost use Rattle.eventkey.specs.Writing.{Writes};
ghost use Rattle.model.specs.World.{below};
ghost use Rattle.pictures.specs.Drawing.{IsDiagram, axes_text, bottom_of, drawing_text, first_tick};
ghost use Rattle.pictures.specs.Drawing.{frame_of, grid_text, head_text, legend_text};
ghost use Rattle.pictures.specs.Drawing.{mark_numbers, marks_text, note_text, picture_text};
ghost use Rattle.pictures.specs.Drawing.{row_text, rows_text, rule_text, span_of, step_from};
ghost use Rattle.pictures.specs.Drawing.{step_of, tick_count, tick_text, ticks_text, x_of, y_of};
ghost use Rattle.pictures.specs.Filled.{filled as filled_with};
ghost use Rattle.pictures.specs.Run.{Run};
ghost use Rattle.pictures.specs.declared.drawn.View.{View};

use crate::diagrams::{Diagram, Sending};
use crate::filled::write_filled;
use std::io::{Result, Write};
use texts::write_text;

/// The part of a run to show in a picture.
#[derive(Clone, Copy, Debug, PartialEq, Eq)]
pub struct View {
    /// The first time in ticks.
    pub from: u64,
    /// The time in ticks before which the part ends. If there is none, a diagram ends with the last
    /// event that it draws, and a heat map with the tick up to which the run went.
    pub to: Option<u64>,
    /// The first process.
    pub first: u32,
    /// The last process.
    pub last: u32,
}

/// The part of a view that a picture can show: at most 64 processes, and only those that exist.
#[derive(Clone, Copy)]
pub(crate) struct Frame {
    pub(crate) from: u64,
    pub(crate) to: u64,
    pub(crate) first: u32,
    pub(crate) rows: u32,
}

/// Round numbers of ticks, ascending.
const STEPS: [u64; 36] = [
    1,
    2,
    5,
    10,
    20,
    50,
    100,
    200,
    500,
    1000,
    2000,
    5000,
    10000,
    20000,
    50000,
    100000,
    200000,
    500000,
    1000000,
    2000000,
    5000000,
    10000000,
    20000000,
    50000000,
    100000000,
    200000000,
    500000000,
    1000000000,
    2000000000,
    5000000000,
    10000000000,
    20000000000,
    50000000000,
    100000000000,
    200000000000,
    500000000000,
];

// A number replaces each `$`.
const HEAD: &str = "\
<svg xmlns=\"http://www.w3.org/2000/svg\" viewBox=\"0 0 1000 $\" width=\"1000\" height=\"$\" role=\"img\">
<title>Space-time diagram, virtual time $ to $</title>
";

pub(crate) const STYLE: &str = "\
<style>
svg{background:#fff;font:12px sans-serif}text{fill:#000}
.row{stroke:#999}.tick{stroke:#ddd}.message{stroke:#0072b2;stroke-opacity:.6}
.pending{stroke:#d55e00;stroke-dasharray:4 3}.event{fill:#009e73}.load{fill:#0072b2}.time{stroke:#cc79a7;stroke-width:2}
@media(prefers-color-scheme:dark){svg{background:#111}text{fill:#eee}.row{stroke:#777}
.tick{stroke:#333}.message{stroke:#56b4e9}.pending{stroke:#e69f00}.load{fill:#56b4e9}}
</style>
";

const TICK: &str = "\
<line class=\"tick\" x1=\"$\" y1=\"40\" x2=\"$\" y2=\"$\"/>\
<text x=\"$\" y=\"$\" text-anchor=\"middle\">$</text>
";

const ROW: &str = "\
<line class=\"row\" x1=\"60\" y1=\"$\" x2=\"960\" y2=\"$\"/>\
<text x=\"52\" y=\"$\" text-anchor=\"end\">$</text>
";

const AXES: &str = "\
<text x=\"960\" y=\"$\" text-anchor=\"end\">virtual time (ticks)</text>
<text x=\"-$\" y=\"10\" transform=\"rotate(-90)\" text-anchor=\"middle\">logical process</text>
";

const LINE: &str = "\
<line class=\"message\" x1=\"$\" y1=\"$\" x2=\"$\" y2=\"$\">\
<title>sent $, received $, from $, number $, to $: $ $ $ $</title></line>
";

const PENDING: &str = "\
<line class=\"pending\" x1=\"$\" y1=\"$\" x2=\"$\" y2=\"$\">\
<title>pending: sent $, received $, from $, number $, to $: $ $ $ $</title></line>
";

const DOT: &str = "\
<circle class=\"event\" cx=\"$\" cy=\"$\" r=\"3\">\
<title>sent $, received $, from $, number $, to $: $ $ $ $</title></circle>
";

const RULE: &str = "\
<line class=\"time\" x1=\"$\" y1=\"40\" x2=\"$\" y2=\"$\"><title>virtual time $</title></line>
";

const NOTE: &str = "\
<text x=\"60\" y=\"24\">shown: events 1 to $ of $, processes $ to $ of $</text>
";

const LEGEND: &str = "\
<g transform=\"translate(60 $)\">\
<circle class=\"event\" cx=\"3\" cy=\"-4\" r=\"3\"/><text x=\"12\">event</text>\
<line class=\"message\" x1=\"60\" y1=\"-4\" x2=\"84\" y2=\"-4\"/><text x=\"90\">message</text>\
<line class=\"pending\" x1=\"160\" y1=\"-4\" x2=\"184\" y2=\"-4\"/>\
<text x=\"190\">pending message</text>\
<line class=\"time\" x1=\"310\" y1=\"-12\" x2=\"310\" y2=\"2\"/>\
<text x=\"318\">virtual time of the run: $</text></g>
";

pub(crate) const TAIL: &str = "</svg>\n";

/// Writes the space-time diagram of a run as a stand-alone SVG.
///
/// Virtual time is along x. There is a line for each process, a dot for each event in the view, a
/// line for the message of each event, and a dashed line for each pending message. Of a larger view
/// it shows the first 64 processes and the first 2,000 events and pending messages, and says so. If
/// the view has no end, the picture ends with the last event that it draws. Times above 2^41 count
/// as 2^41. The axes have titles, and a legend names the marks and the run's time.
///
/// If the writer fails, its error is returned, and it has taken a beginning of the text. The time
/// does not depend on the number of events, and nothing is allocated.
pub fn write_drawing<W: Write>(diagram: &Diagram, out: &mut W) -> Result<()>
    ensures { (r : Run) (v : View) → IsDiagram r v diagram.now →
        Writes (W.contents out.old) (W.contents out.new) result (drawing_text r v) }
{
    let frame = framed(diagram.time, u64::from(diagram.processes), &diagram.view);
    let drawn = Frame {
        to: diagram.to.min(frame.to).max(frame.from),
        ..frame
    };
    write_picture(diagram, &drawn, out)
}

/// Returns the frame of a view in a run up to `time` ticks of a model with this number of processes.
pub(crate) fn framed(time: u64, processes: u64, view: &View) -> Frame
    ensures frame { (r : Run) → time ≡ r.time → processes ≡ length r.first →
        result ≡ frame_of r view.now }
    ensures order { result.from ≤ result.to }
    ensures to { result.to ≤ 2 ^ 41 }
    ensures rows { result.rows ≤ 64 }
    ensures first { result.first < 2 ^ 32 }
{
    let from = view.from.min(1 << 41);
    let behind = (u64::from(view.last) + 1).min(processes);
    let to = view.to.unwrap_or(time.saturating_add(1));
    Frame {
        from,
        to: to.min(1 << 41).max(from),
        first: view.first,
        rows: behind.saturating_sub(u64::from(view.first)).min(64) as u32,
    }
}

fn write_picture<W: Write>(diagram: &Diagram, frame: &Frame, out: &mut W) -> Result<()>
    requires order { frame.now.from ≤ frame.now.to }
    requires to { frame.now.to ≤ 2 ^ 41 }
    requires rows { frame.now.rows ≤ 64 }
    requires first { frame.now.first < 2 ^ 32 }
    ensures { Writes (W.contents out.old) (W.contents out.new) result
        (picture_text diagram.now.time diagram.now.processes diagram.now.count frame.now
        diagram.now.events.items diagram.now.pending.items) }
{
    write_head(frame, out)?;
    write_text(STYLE, out)?;
    write_grid(frame, out)?;
    write_marks(frame, PENDING, 0, diagram.pending.as_slice(), out)?;
    write_marks(frame, LINE, 0, diagram.events.as_slice(), out)?;
    write_marks(frame, DOT, 2, diagram.events.as_slice(), out)?;
    write_rule(diagram.time, frame, out)?;
    write_note(diagram.processes, frame, diagram.count, out)?;
    write_legend(diagram.time, frame, out)?;
    write_text(TAIL, out)
}

pub(crate) fn span(frame: &Frame) -> u64
    ensures { result ≡ span_of frame.now }
{
    frame.to.saturating_sub(frame.from).max(1)
}

fn x_at(frame: &Frame, time: u64) -> u64
    requires { frame.now.to ≤ 2 ^ 41 }
    ensures x { result ≡ x_of frame.now time }
    ensures within { result ≤ 960 }
{
    let span = span(frame);
    60 + time.saturating_sub(frame.from).min(span) * 900 / span
}

fn y_at(frame: &Frame, process: u32) -> u64
    requires { frame.now.rows ≤ 64 }
    ensures { result ≡ y_of frame.now process }
{
    if process < frame.first {
        return 40;
    }
    60 + 20 * u64::from((process - frame.first).min(frame.rows))
}

pub(crate) fn bottom(frame: &Frame) -> u64
    requires { frame.now.rows ≤ 64 }
    ensures y { result ≡ bottom_of frame.now }
    ensures within { result ≤ 1340 }
{
    60 + 20 * u64::from(frame.rows)
}

fn write_head<W: Write>(frame: &Frame, out: &mut W) -> Result<()>
    requires { frame.now.rows ≤ 64 }
    ensures { Writes (W.contents out.old) (W.contents out.new) result (head_text frame.now) }
{
    let height = bottom(frame) + 40;
    write_filled(HEAD, &[height, height, frame.from, frame.to], out)
}

/// Writes the background of the marks: the ticks, the processes, and the titles of both axes.
pub(crate) fn write_grid<W: Write>(frame: &Frame, out: &mut W) -> Result<()>
    requires order { frame.now.from ≤ frame.now.to }
    requires to { frame.now.to ≤ 2 ^ 41 }
    requires rows { frame.now.rows ≤ 64 }
    requires first { frame.now.first < 2 ^ 32 }
    ensures { Writes (W.contents out.old) (W.contents out.new) result (grid_text frame.now) }
{
    write_ticks(frame, out)?;
    write_rows(frame, out)?;
    write_axes(frame, out)
}

fn write_ticks<W: Write>(frame: &Frame, out: &mut W) -> Result<()>
    requires order { frame.now.from ≤ frame.now.to }
    requires to { frame.now.to ≤ 2 ^ 41 }
    requires rows { frame.now.rows ≤ 64 }
    ensures { Writes (W.contents out.old) (W.contents out.new) result (ticks_text frame.now) }
{
    let step = step(frame);
    let first = (frame.from + step - 1) / step * step;
    let count = (frame.to + step - first) / step;
    for place in 0..count {
        write_tick(frame, first + place * step, out)?;
    }
    Ok(())
}

/// Returns the ticks between two labels.
fn step(frame: &Frame) -> u64
    requires { frame.now.to ≤ 2 ^ 41 }
    ensures step { result ≡ step_of frame.now }
    ensures some { 1 ≤ result }
    ensures fits { result ≤ 2 ^ 40 }
{
    first_round(span(frame), &STEPS)
}

/// Returns the least of these ascending steps of which ten cover the span, or 10^12 if none does.
#[tactic(auto, unfolding(crate::specs::Drawing::step_from))]
fn first_round(span: u64, steps: &[u64]) -> u64
    requires { span ≤ 2 ^ 41 }
    ensures { result ≡ step_from span steps.now }
{
    for step in steps {
        if span.div_ceil(10) <= *step {
            return *step;
        }
    }
    1000000000000
}

fn write_tick<W: Write>(frame: &Frame, time: u64, out: &mut W) -> Result<()>
    requires to { frame.now.to ≤ 2 ^ 41 }
    requires rows { frame.now.rows ≤ 64 }
    ensures { Writes (W.contents out.old) (W.contents out.new) result (tick_text frame.now time) }
{
    let x = x_at(frame, time);
    let y = bottom(frame);
    write_filled(TICK, &[x, x, y, x, y + 16, time], out)
}

fn write_rows<W: Write>(frame: &Frame, out: &mut W) -> Result<()>
    requires rows { frame.now.rows ≤ 64 }
    requires first { frame.now.first < 2 ^ 32 }
    ensures { Writes (W.contents out.old) (W.contents out.new) result (rows_text frame.now) }
{
    for place in 0..frame.rows {
        write_process(frame, place, out)?;
    }
    Ok(())
}

fn write_process<W: Write>(frame: &Frame, place: u32, out: &mut W) -> Result<()>
    requires place { place ≤ 64 }
    requires first { frame.now.first < 2 ^ 32 }
    ensures { Writes (W.contents out.old) (W.contents out.new) result (row_text frame.now place) }
{
    let y = 60 + 20 * u64::from(place);
    let process = u64::from(frame.first) + u64::from(place);
    write_filled(ROW, &[y, y, y + 4, process], out)
}

fn write_axes<W: Write>(frame: &Frame, out: &mut W) -> Result<()>
    requires rows { frame.now.rows ≤ 64 }
    ensures { Writes (W.contents out.old) (W.contents out.new) result (axes_text frame.now) }
{
    let middle = 50 + 10 * u64::from(frame.rows);
    write_filled(AXES, &[bottom(frame) + 34, middle], out)
}

/// Writes a mark for each of these messages. The mark's text gets all numbers of a message but the
/// first `skip`.
fn write_marks<W: Write>(
    frame: &Frame,
    text: &str,
    skip: usize,
    sendings: &[Sending],
    out: &mut W,
) -> Result<()>
    requires to { frame.now.to ≤ 2 ^ 41 }
    requires rows { frame.now.rows ≤ 64 }
    requires skip { skip ≤ 13 }
    ensures { Writes (W.contents out.old) (W.contents out.new) result
        (marks_text frame.now text.now skip sendings.now) }
{
    for sending in sendings {
        write_mark(frame, text, skip, sending, out)?;
    }
    Ok(())
}

fn write_mark<W: Write>(
    frame: &Frame,
    text: &str,
    skip: usize,
    sending: &Sending,
    out: &mut W,
) -> Result<()>
    requires to { frame.now.to ≤ 2 ^ 41 }
    requires rows { frame.now.rows ≤ 64 }
    requires skip { skip ≤ 13 }
    ensures { Writes (W.contents out.old) (W.contents out.new) result
        (filled_with text.now (drop skip (mark_numbers frame.now sending.now))) }
{
    let sent = sending.sent;
    let message = &sending.message;
    let numbers = [
        x_at(frame, sent),
        y_at(frame, message.from()),
        x_at(frame, message.time()),
        y_at(frame, message.to()),
        sent,
        message.time(),
        u64::from(message.from()),
        message.number(),
        u64::from(message.to()),
        message.a(),
        message.b(),
        message.c(),
        message.d(),
    ];
    write_filled(text, numbers.split_at(skip).1, out)
}

fn write_rule<W: Write>(time: u64, frame: &Frame, out: &mut W) -> Result<()>
    requires to { frame.now.to ≤ 2 ^ 41 }
    requires rows { frame.now.rows ≤ 64 }
    ensures { Writes (W.contents out.old) (W.contents out.new) result (rule_text time frame.now) }
{
    if time < frame.from || time > frame.to {
        return write_text("", out);
    }
    let x = x_at(frame, time);
    write_filled(RULE, &[x, x, bottom(frame), time], out)
}

/// Writes how much is drawn, where the view has `count` events.
fn write_note<W: Write>(processes: u32, frame: &Frame, count: u64, out: &mut W) -> Result<()>
    requires rows { frame.now.rows ≤ 64 }
    requires first { frame.now.first < 2 ^ 32 }
    ensures { Writes (W.contents out.old) (W.contents out.new) result
        (note_text processes frame.now count) }
{
    let first = u64::from(frame.first);
    let numbers = [
        count.min(2000),
        count,
        first,
        (first + u64::from(frame.rows)).saturating_sub(1),
        u64::from(processes),
    ];
    write_filled(NOTE, &numbers, out)
}

fn write_legend<W: Write>(time: u64, frame: &Frame, out: &mut W) -> Result<()>
    requires rows { frame.now.rows ≤ 64 }
    ensures { Writes (W.contents out.old) (W.contents out.new) result
        (legend_text time frame.now) }
{
    write_filled(LEGEND, &[bottom(frame) + 34, time], out)
}
