// The load of a run, as a heat map.

ghost use Rattle.std.specs.Prelude.{◌≡◌, ◌≤◌, ◌<◌, ◌+◌, ◌-◌, ◌*◌, ◌/◌, ◌%◌, ◌^◌, ◌++◌, ◌∷◌, []};
ghost use Rattle.std.specs.Prelude.{Err, IfOk, IfSome, List, None, OnOk, false, flat_map, min, ℕ};
ghost use Rattle.eventkey.specs.Message.{Message};
ghost use Rattle.eventkey.specs.Writing.{Writes};
ghost use Rattle.model.specs.World.{below};
ghost use Rattle.model.specs.declared.WorldFault.TheVariants.{NumberLimit};
ghost use Rattle.pictures.specs.Load.{AreCells, IsInCell, IsLoad, cell_at, cell_text, cells_text};
ghost use Rattle.pictures.specs.Load.{head_text, is_in_row, level_of, load_text, map_text};
ghost use Rattle.pictures.specs.Load.{most_in_row, most_in_rows, slice_at, slice_start, slices_of};
ghost use Rattle.pictures.specs.Run.{IsOverLimit, IsPartBefore, IsRunOf, Run};
ghost use Rattle.pictures.specs.declared.drawn.View.{View};

use crate::counted::due;
use crate::delays::one_more;
use crate::drawn::{Frame, STYLE, TAIL, View, bottom, framed, span, write_grid};
use crate::filled::write_filled;
use crate::stepping::{EVENTS_KEPT, without_log};
use eventkey::Message;
use model::{Model, World, WorldFault};
use std::alloc::{AllocError, Global};
use std::io::{Result as IoResult, Write};
use texts::write_text;

/// The cap of counts: greater ones count as this, so that no product overflows.
const MOST: u64 = 1 << 56;

// A number replaces each `$`.
const LOAD_HEAD: &str = "\
<svg xmlns=\"http://www.w3.org/2000/svg\" viewBox=\"0 0 1000 $\" width=\"1000\" height=\"$\" role=\"img\">
<title>Events a process, virtual time $ to $</title>
<text x=\"60\" y=\"24\">deepest: $ events of a process in one of $ slices; $ of $ processes, from process $</text>
";

const CELL: &str = "\
<rect class=\"load\" x=\"$\" y=\"$\" width=\"$\" height=\"18\" fill-opacity=\"$.$\">\
<title>process $, $ to $: $ events</title></rect>
";

/// The load of a run in a view: how many events each process handled in each slice of time.
#[derive(Drop)]
pub struct LoadMap {
    /// The virtual time in ticks up to which the run went.
    pub(crate) time: u64,
    /// The number of processes of the model.
    pub(crate) processes: u32,
    pub(crate) view: View,
    /// The number of events of each cell, 64 for each row.
    pub(crate) cells: Vec<u64>,
}

impl LoadMap {
    /// Returns the number of processes of the model.
    pub fn processes(&self) -> u32 {
        self.processes
    }
}

/// Runs a model from its opening up to `to` ticks, and returns the load of its part before the tick
/// `before`, which is as far as it simulates. The simulation ends at `end` ticks, 1 to 2^40.
///
/// There is a cell for each of up to 64 slices of each of the first 64 processes of the view. Times
/// above 2^41 count as 2^41.
///
/// `NumberLimit` comes if the send number of a process would pass 2^63 before that, and `NoMemory`
/// if an allocation failed, or at 2^64 events. The costs are the simulation, a constant time for
/// each event, and memory for the world and 2^16 events.
pub fn load_of<M: Model>(
    alloc: Global,
    model: &M,
    end: u64,
    to: u64,
    before: u64,
    view: &View,
) -> Result<LoadMap, WorldFault>
    requires some { 1 ≤ end }
    requires end { end ≤ 2 ^ 40 }
    ensures load { IfOk result (λ l. (r : Run) × IsPartBefore (M.meaning model.now) end to before r
        × IsLoad r view.now l) }
    ensures limit { result ≡ Err WorldFault.NumberLimit →
        IsOverLimit (M.meaning model.now) end (min to before) }
{
    let time = to.min(end);
    let processes = model.lps();
    let frame = framed(time, u64::from(processes), view);
    let cells = count_cells(alloc, model, end, to.min(before), &frame)?;
    Ok(LoadMap {
        time,
        processes,
        view: *view,
        cells,
    })
}

/// Returns how many events of the run of a model up to `to` ticks each cell of a frame has.
fn count_cells<M: Model>(
    alloc: Global,
    model: &M,
    end: u64,
    to: u64,
    frame: &Frame,
) -> Result<Vec<u64>, WorldFault>
    requires some { 1 ≤ end }
    requires end { end ≤ 2 ^ 40 }
    requires early { frame.now.to ≤ 2 ^ 41 }
    ensures cells { IfOk result (λ v. (r : Run) × IsRunOf (M.meaning model.now) end to r
        × AreCells frame.now r.events v.items) }
    ensures limit { result ≡ Err WorldFault.NumberLimit →
        IsOverLimit (M.meaning model.now) end to }
{
    let bound = to.min(end);
    let mut world = World::open(alloc, model, end)?;
    let mut cells = Vec::new(alloc);
    cells.resize(64 * frame.rows as usize, 0)?;
    for _ in 0..u64::MAX {
        let Some(event) = due(&world, bound) else {
            return Ok(cells);
        };
        world.step(model)?;
        add_event(frame, &event, &mut cells)?;
        if world.log().len() >= EVENTS_KEPT {
            world = without_log(alloc, world, end)?;
        }
    }
    Err(WorldFault::NoMemory)
}

/// Counts an event in its cell, if the frame has it.
fn add_event(frame: &Frame, event: &Message, cells: &mut Vec<u64>) -> Result<(), AllocError>
    requires { frame.now.to ≤ 2 ^ 41 }
    ensures { OnOk result ((events : List Message) → AreCells frame.now events cells.old.items →
        AreCells frame.now (events ++ event.now ∷ []) cells.new.items) }
{
    let Some(place) = place_in(frame, event) else {
        return Ok(());
    };
    if place >= cells.len() {
        return Ok(());
    }
    cells[place] = one_more(cells[place])?;
    Ok(())
}

/// Returns the place of the cell of an event, if the frame has it.
fn place_in(frame: &Frame, event: &Message) -> Option<usize>
    requires { frame.now.to ≤ 2 ^ 41 }
    ensures inside { IfSome result (λ place. IsInCell frame.now event.now place) }
    ensures outside { result ≡ None → (row : ℕ) → row < frame.now.rows →
        is_in_row frame.now row event.now ≡ false }
{
    let time = event.time();
    if time < frame.from || time >= frame.to {
        return None;
    }
    let row = event.to().checked_sub(frame.first)?;
    if row >= frame.rows {
        return None;
    }
    Some(64 * row as usize + slice_of(frame, time))
}

/// Writes the load of a run as a heat map in a stand-alone SVG: how many events each process
/// handled in each slice of virtual time.
///
/// There is a rectangle for each cell, in ten depths of colour; the deepest is that of the most
/// events. A view without an end goes up to the tick that the run reached. The axes have titles. The
/// title has the first and the last tick, and a line says how many of the processes are shown.
///
/// If the writer fails, its error is returned, and it has taken a beginning of the text. The time
/// does not depend on the number of events, and nothing is allocated.
pub fn write_load<W: Write>(load: &LoadMap, out: &mut W) -> IoResult<()>
    ensures { (r : Run) (v : View) → IsLoad r v load.now →
        Writes (W.contents out.old) (W.contents out.new) result (load_text r v) }
{
    let processes = u64::from(load.processes);
    let frame = framed(load.time, processes, &load.view);
    let cells = load.cells.as_slice();
    let most = most_in_rows(cells, &frame);
    write_map(processes, cells, &frame, most, out)
}

fn write_map<W: Write>(
    processes: u64,
    cells: &[u64],
    frame: &Frame,
    most: u64,
    out: &mut W,
) -> IoResult<()>
    requires order { frame.now.from ≤ frame.now.to }
    requires to { frame.now.to ≤ 2 ^ 41 }
    requires rows { frame.now.rows ≤ 64 }
    requires first { frame.now.first < 2 ^ 32 }
    ensures { Writes (W.contents out.old) (W.contents out.new) result
        (map_text processes (cell_at cells.now) frame.now most) }
{
    write_head(processes, frame, most, out)?;
    write_text(STYLE, out)?;
    write_grid(frame, out)?;
    write_all_cells(cells, frame, most, out)?;
    write_text(TAIL, out)
}

/// Writes the title, and how much is shown.
fn write_head<W: Write>(processes: u64, frame: &Frame, most: u64, out: &mut W) -> IoResult<()>
    requires rows { frame.now.rows ≤ 64 }
    ensures { Writes (W.contents out.old) (W.contents out.new) result
        (head_text processes frame.now most) }
{
    let height = bottom(frame) + 40;
    let numbers = [
        height,
        height,
        frame.from,
        frame.to.saturating_sub(1),
        most,
        slices(frame),
        u64::from(frame.rows),
        processes,
        u64::from(frame.first),
    ];
    write_filled(LOAD_HEAD, &numbers, out)
}

fn write_all_cells<W: Write>(cells: &[u64], frame: &Frame, most: u64, out: &mut W) -> IoResult<()>
    requires order { frame.now.from ≤ frame.now.to }
    requires to { frame.now.to ≤ 2 ^ 41 }
    requires rows { frame.now.rows ≤ 64 }
    requires first { frame.now.first < 2 ^ 32 }
    ensures { Writes (W.contents out.old) (W.contents out.new) result
        (flat_map (cells_text (cell_at cells.now) frame.now most) (below frame.now.rows)) }
{
    for row in 0..frame.rows {
        write_cells(cells, frame, most, row, out)?;
    }
    Ok(())
}

/// Writes the cells of one row.
fn write_cells<W: Write>(
    cells: &[u64],
    frame: &Frame,
    most: u64,
    row: u32,
    out: &mut W,
) -> IoResult<()>
    requires order { frame.now.from ≤ frame.now.to }
    requires to { frame.now.to ≤ 2 ^ 41 }
    requires row { row < 64 }
    requires first { frame.now.first < 2 ^ 32 }
    ensures { Writes (W.contents out.old) (W.contents out.new) result
        (cells_text (cell_at cells.now) frame.now most row) }
{
    for slice in 0..slices(frame) {
        write_cell(frame, most, row, slice, cell(cells, row, slice), out)?;
    }
    Ok(())
}

/// Returns the number of events of a cell.
fn cell(cells: &[u64], row: u32, slice: u64) -> u64
    requires { slice < 64 }
    ensures { result ≡ cell_at cells.now row slice }
{
    let place = 64 * row as usize + slice as usize;
    cells.get(place).copied().unwrap_or(0)
}

fn write_cell<W: Write>(
    frame: &Frame,
    most: u64,
    row: u32,
    slice: u64,
    count: u64,
    out: &mut W,
) -> IoResult<()>
    requires order { frame.now.from ≤ frame.now.to }
    requires to { frame.now.to ≤ 2 ^ 41 }
    requires row { row < 64 }
    requires first { frame.now.first < 2 ^ 32 }
    requires slice { slice < 64 }
    ensures { Writes (W.contents out.old) (W.contents out.new) result
        (cell_text frame.now most row slice count) }
{
    let slices = slices(frame);
    let left = slice * 900 / slices;
    let level = level(count, most);
    let numbers = [
        60 + left,
        51 + 20 * u64::from(row),
        ((slice + 1) * 900 / slices).saturating_sub(left),
        level / 10,
        level % 10,
        u64::from(frame.first) + u64::from(row),
        start(frame, slice),
        start(frame, slice + 1),
        count,
    ];
    write_filled(CELL, &numbers, out)
}

/// Returns the depth of colour of a count in tenths, where `most` is the greatest count.
fn level(count: u64, most: u64) -> u64
    ensures { result ≡ level_of most count }
{
    let most = most.min(MOST);
    (10 * count.min(MOST) + most).saturating_sub(1) / most.max(1)
}

/// Returns the most events of a cell.
fn most_in_rows(cells: &[u64], frame: &Frame) -> u64
    ensures { result ≡ most_in_rows (cell_at cells.now) (slices_of frame.now) frame.now.rows }
{
    let mut most = 0u64;
    for row in 0..frame.rows {
        most = most.max(most_in_row(cells, frame, row));
    }
    most
}

fn most_in_row(cells: &[u64], frame: &Frame, row: u32) -> u64
    ensures { result ≡ most_in_row (cell_at cells.now row) (slices_of frame.now) }
{
    let mut most = 0u64;
    for slice in 0..slices(frame) {
        most = most.max(cell(cells, row, slice));
    }
    most
}

fn slices(frame: &Frame) -> u64
    ensures slices { result ≡ slices_of frame.now }
    ensures some { 1 ≤ result }
    ensures few { result ≤ 64 }
{
    span(frame).min(64)
}

/// Returns the first time of a slice.
fn start(frame: &Frame, slice: u64) -> u64
    requires order { frame.now.from ≤ frame.now.to }
    requires to { frame.now.to ≤ 2 ^ 41 }
    requires slice { slice ≤ 64 }
    ensures { result ≡ slice_start frame.now slice }
{
    let slices = slices(frame);
    frame.from + (slice * span(frame) + slices - 1) / slices
}

/// Returns the slice that a time of the frame is in.
fn slice_of(frame: &Frame, time: u64) -> usize
    requires from { frame.now.from ≤ time }
    requires to { time < frame.now.to }
    requires early { frame.now.to ≤ 2 ^ 41 }
    ensures slice { result ≡ slice_at frame.now time }
    ensures few { result < 64 }
{
    ((time - frame.from) * slices(frame) / span(frame)) as usize
}
