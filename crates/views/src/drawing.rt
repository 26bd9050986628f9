// The pictures of a run, and of the course in a trace.

ghost use Rattle.std.specs.Prelude.{◌≡◌, ◌≤◌, ◌^◌, ◌⊎◌, List, ℕ, IfOk, IsOkUnless, OnErr, OnOk};
ghost use Rattle.std.specs.Prelude.{false, true};
ghost use Rattle.eventkey.specs.Writing.{Writes};
ghost use Rattle.pictures.specs.Course.{course_text};
ghost use Rattle.views.specs.Reading.{IsDrawnBy, IsPicture, IsPictureOf};
ghost use Rattle.pictures.specs.Drawing.{IsDiagram, drawing_text};
ghost use Rattle.pictures.specs.Load.{IsLoad, load_text};
ghost use Rattle.pictures.specs.Run.{Run};
ghost use Rattle.pictures.specs.declared.drawn.View.{View};
ghost use Rattle.views.specs.Views.{needed_to, view_of, Begins, IsCourse, IsDrawn};
ghost use Rattle.views.specs.Views.{IsTracedBefore, Prints};
ghost use Rattle.views.specs.declared.fault.ViewFault.TheVariants.{Output};

use crate::fault::{ViewFault, unreadable};
use crate::files::{flushed, read_model_file};
use crate::histograms::histogram_on;
use crate::levels::dump_on;
use crate::looking::{first_of, found_among, time_of};
use cli::{DrawArgs, ModelFile, most_sectors};
use pictures::{
    Diagram, LoadMap, Row, View, diagram_of, load_of, read_rows, write_course, write_drawing,
    write_load,
};
use std::fs::{self, File};
use std::io::Write;
use std::rt::Files;
use texts::Described;

/// Writes the picture of a run, or its value change dump.
pub(crate) fn draw_on<M, R, O>(rt: &R, args: DrawArgs<'_>, out: &mut O) -> Result<(), ViewFault>
where
    M: Described,
    R: Files<File = File> + AllocGlobal,
    O: Write,
    ensures ok { OnOk result (Prints (IsDrawnBy M.meaning M.says args.entry.vcd args.entry)
        (O.contents out.old) (O.contents out.new)) }
    ensures err { OnErr result ((out.new ≡ out.old)
        ⊎ Begins (IsDrawnBy M.meaning M.says args.entry.vcd args.entry)
        (O.contents out.old) (O.contents out.new)) }
{
    if args.vcd {
        return dump_on::<M, R, O>(rt, args, out);
    }
    drawn_on::<M, R, O>(rt, args, out)
}

/// Writes the histogram of a word of messages, or another picture.
fn drawn_on<M, R, O>(rt: &R, args: DrawArgs<'_>, out: &mut O) -> Result<(), ViewFault>
where
    M: Described,
    R: Files<File = File> + AllocGlobal,
    O: Write,
    ensures ok { OnOk result
        (Prints (IsPictureOf M.meaning M.says args.entry args.entry.histogram)
        (O.contents out.old) (O.contents out.new)) }
    ensures err { OnErr result ((out.new ≡ out.old)
        ⊎ Begins (IsPictureOf M.meaning M.says args.entry args.entry.histogram)
        (O.contents out.old) (O.contents out.new)) }
{
    match args.histogram {
        Some(word) => histogram_on::<M, R, O>(rt, args.of, word, out),
        None => picture_on::<M, R, O>(rt, args, out),
    }
}

/// Writes the picture of a run, or of the course in a trace.
fn picture_on<M, R, O>(rt: &R, args: DrawArgs<'_>, out: &mut O) -> Result<(), ViewFault>
where
    M: Described,
    R: Files<File = File> + AllocGlobal,
    O: Write,
    ensures ok { OnOk result
        (Prints (IsPicture M.meaning M.says args.entry args.entry.trace)
        (O.contents out.old) (O.contents out.new)) }
    ensures err { OnErr result ((out.new ≡ out.old)
        ⊎ Begins (IsPicture M.meaning M.says args.entry args.entry.trace)
        (O.contents out.old) (O.contents out.new)) }
{
    match args.trace {
        Some(trace) => course_of::<R, O>(rt, trace, out),
        None => {
            let DrawArgs {
                of,
                from,
                to,
                processes,
                load,
                ..
            } = args;
            let seen = Seen {
                from,
                to,
                processes,
                load,
            };
            let most = most_sectors(of.large);
            draw_of::<M, R, O>(rt, of.model, of.disk, most, seen, out)
        }
    }
}

/// The part of a run to draw: from a time on, before a time, in ticks, and which processes.
/// Without the second time it is the end that a picture has by itself (`View::to`).
#[derive(Clone, Copy)]
struct Seen {
    from: Option<u64>,
    to: Option<u64>,
    processes: Option<(u32, u32)>,
    /// Whether to draw the load instead of each event.
    load: bool,
}

/// Writes the picture of a run, which is simulated only up to the picture's end. A disk has at most
/// `most` sectors. Returns `NoSuchProcess` if the model has none of the processes to draw.
fn draw_of<M, R, O>(
    rt: &R,
    model_file: ModelFile<'_>,
    disk: Option<&str>,
    most: u32,
    seen: Seen,
    out: &mut O,
) -> Result<(), ViewFault>
where
    M: Described,
    R: Files<File = File> + AllocGlobal,
    O: Write,
    ensures ok { OnOk result
        (Prints (IsDrawn M.meaning M.says disk.entry seen.load seen.from seen.to seen.processes)
        (O.contents out.old) (O.contents out.new)) }
    ensures err { OnErr result ((out.new ≡ out.old)
        ⊎ Begins (IsDrawn M.meaning M.says disk.entry seen.load seen.from seen.to seen.processes)
        (O.contents out.old) (O.contents out.new)) }
{
    if seen.load {
        return draw_load::<M, R, O>(rt, model_file, disk, most, seen, out);
    }
    draw_events::<M, R, O>(rt, model_file, disk, most, seen, out)
}

/// Writes the load of a run.
fn draw_load<M, R, O>(
    rt: &R,
    model_file: ModelFile<'_>,
    disk: Option<&str>,
    most: u32,
    seen: Seen,
    out: &mut O,
) -> Result<(), ViewFault>
where
    M: Described,
    R: Files<File = File> + AllocGlobal,
    O: Write,
    ensures ok { OnOk result
        (Prints (IsDrawn M.meaning M.says disk.entry true seen.from seen.to seen.processes)
        (O.contents out.old) (O.contents out.new)) }
    ensures err { OnErr result ((out.new ≡ out.old)
        ⊎ Begins (IsDrawn M.meaning M.says disk.entry true seen.from seen.to seen.processes)
        (O.contents out.old) (O.contents out.new)) }
{
    let before = needed_to(seen);
    let view = view_of(seen);
    let load = load_before::<M, R>(rt, model_file, disk, most, before, &view)?;
    found_among(first_of(seen.processes), load.processes())?;
    write_heat_map(&load, out)
}

/// Runs the model of a file up to the time committed on a disk, of at most `most` sectors, or
/// without a disk to its end, but only the part of that run before the tick `before`, and no
/// further. Returns the load of that part.
fn load_before<M, R>(
    rt: &R,
    model_file: ModelFile<'_>,
    disk: Option<&str>,
    most: u32,
    before: u64,
    view: &View,
) -> Result<LoadMap, ViewFault>
where
    M: Described,
    R: Files<File = File> + AllocGlobal,
    ensures { IfOk result (λ load. (run : Run)
        × IsTracedBefore M.meaning M.says disk.entry before run × IsLoad run view.now load) }
{
    let (model, end): (M, u64) = read_model_file(rt, model_file)?;
    let to = time_of(rt, &model, end, disk, most)?;
    Ok(load_of(rt.alloc(), &model, end, to, before, view)?)
}

/// Writes a heat map, and flushes the writer.
fn write_heat_map<O: Write>(load: &LoadMap, out: &mut O) -> Result<(), ViewFault>
    ensures written { (run : Run) (view : View) → IsLoad run view load.now →
        Writes (O.contents out.old) (O.contents out.new) result (load_text run view) }
    ensures fault { IsOkUnless result Output }
{
    flushed(write_load(load, out), out)
}

/// Writes the space-time diagram of a run.
fn draw_events<M, R, O>(
    rt: &R,
    model_file: ModelFile<'_>,
    disk: Option<&str>,
    most: u32,
    seen: Seen,
    out: &mut O,
) -> Result<(), ViewFault>
where
    M: Described,
    R: Files<File = File> + AllocGlobal,
    O: Write,
    ensures ok { OnOk result
        (Prints (IsDrawn M.meaning M.says disk.entry false seen.from seen.to seen.processes)
        (O.contents out.old) (O.contents out.new)) }
    ensures err { OnErr result ((out.new ≡ out.old)
        ⊎ Begins (IsDrawn M.meaning M.says disk.entry false seen.from seen.to seen.processes)
        (O.contents out.old) (O.contents out.new)) }
{
    let before = needed_to(seen);
    let view = view_of(seen);
    let diagram = diagram_before::<M, R>(rt, model_file, disk, most, before, &view)?;
    found_among(first_of(seen.processes), diagram.processes())?;
    write_diagram(&diagram, out)
}

/// Runs the model of a file up to the time committed on a disk, of at most `most` sectors, or
/// without a disk to its end, but only the part of that run before the tick `before`, and no
/// further. Returns the space-time diagram of that part.
fn diagram_before<M, R>(
    rt: &R,
    model_file: ModelFile<'_>,
    disk: Option<&str>,
    most: u32,
    before: u64,
    view: &View,
) -> Result<Diagram, ViewFault>
where
    M: Described,
    R: Files<File = File> + AllocGlobal,
    ensures { IfOk result (λ diagram. (run : Run)
        × IsTracedBefore M.meaning M.says disk.entry before run
        × IsDiagram run view.now diagram) }
{
    let (model, end): (M, u64) = read_model_file(rt, model_file)?;
    let to = time_of(rt, &model, end, disk, most)?;
    Ok(diagram_of(rt.alloc(), &model, end, to, before, view)?)
}

/// Returns the tick before which the picture needs to know the run.
fn needed_to(seen: Seen) -> u64
    ensures { result ≡ needed_to seen.from seen.to }
{
    match seen.to {
        Some(to) => to.max(seen.from.unwrap_or(0)),
        None => u64::MAX,
    }
}

/// Returns the requested view. Without bounds it has the whole run.
fn view_of(seen: Seen) -> View
    ensures { result ≡ view_of seen.from seen.to seen.processes }
{
    let (first, last) = seen.processes.unwrap_or((0, u32::MAX));
    View {
        from: seen.from.unwrap_or(0),
        to: seen.to,
        first,
        last,
    }
}

/// Writes a space-time diagram, and flushes the writer.
fn write_diagram<O: Write>(diagram: &Diagram, out: &mut O) -> Result<(), ViewFault>
    ensures written { (run : Run) (view : View) → IsDiagram run view diagram.now →
        Writes (O.contents out.old) (O.contents out.new) result (drawing_text run view) }
    ensures fault { IsOkUnless result Output }
{
    flushed(write_drawing(diagram, out), out)
}

/// Writes the picture of the course of a run from the file of its trace.
fn course_of<R, O>(rt: &R, trace: &str, out: &mut O) -> Result<(), ViewFault>
where
    R: Files<File = File> + AllocGlobal,
    O: Write,
    ensures ok { OnOk result (Prints IsCourse (O.contents out.old) (O.contents out.new)) }
    ensures err { OnErr result ((out.new ≡ out.old)
        ⊎ Begins IsCourse (O.contents out.old) (O.contents out.new)) }
{
    let bytes = fs::read(rt, trace).map_err(unreadable)?;
    let rows = read_rows(rt.alloc(), bytes.as_slice())?;
    write_rows(rows.as_slice(), out)
}

/// Writes the course that rows of a trace show, and flushes the writer.
fn write_rows<O: Write>(rows: &[Row], out: &mut O) -> Result<(), ViewFault>
    ensures written { Writes (O.contents out.old) (O.contents out.new) result
        (course_text rows.now) }
    ensures fault { IsOkUnless result Output }
{
    flushed(write_course(rows, out), out)
}
