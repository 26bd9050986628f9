// The parts of a run's disk: where the simulation on each begins, and the change to the next one.

ghost use Rattle.std.specs.Prelude.{◌≡◌, ◌≤◌, ◌^◌, ◌⊎◌, IfErr, IfOk, OnErr, OnOk};
ghost use Rattle.segments.specs.Archiving.{IsNextDisk};
ghost use Rattle.disk.specs.Disk.{OnlyLooks};
ghost use Rattle.disk.specs.FileDisks.{disk_of_file};
ghost use Rattle.program.specs.Command.{IsNew};
ghost use Rattle.views.specs.Views.{Begins, Prints};

use crate::making::new_on;
use crate::watching::Watching;
use cli::NewArgs;
use disk::{FileDisk, Returned};
use disk_commands::{Fault, SystemErrors, new_behind};
use model::Model as Modelled;
use runs::commands::{CommandFault, Simulated};
use segments::archiving::{
    ArchivePlace, Archived, NotArchived, archive, remove_parts, remove_second_names,
};
use std::alloc::Global;
use std::fs::File;
use std::io::Write;
use std::rt::Files;
use std::time::Clock;
use terminal::Progress;
use texts::Described;
use views::BegunDisk;

/// Makes a log for the model of a file, on a disk: an empty one, or one that goes on from the world
/// of another disk.
pub(crate) fn new_as<M, R, O>(
    rt: &R,
    args: NewArgs<'_>,
    said: &SystemErrors,
    out: &mut O,
) -> Result<(), Fault>
where
    M: Described,
    R: Files<File = File> + Clock + AllocGlobal,
    O: Write,
    ensures ok { OnOk result
        (Prints (IsNew M.meaning M.says args.entry) (O.contents out.old) (O.contents out.new)) }
    ensures err { OnErr result ((out.new ≡ out.old)
        ⊎ Begins (IsNew M.meaning M.says args.entry) (O.contents out.old) (O.contents out.new)) }
{
    match args.from {
        None => new_on::<M, R, O>(rt, args, said, out),
        Some(from) => new_behind::<M, R, O>(rt, args, from, said, out),
    }
}

/// An attempt of a run when it has ended: its disk, and the outcome of its command.
pub(crate) type Tried = Returned<FileDisk, (), CommandFault>;

/// How a full disk is archived, and how many of its parts are kept; none for all.
#[derive(Clone, Copy)]
pub(crate) struct Archive<'a> {
    pub place: ArchivePlace<'a>,
    pub keep: Option<u32>,
}

/// Returns the next disk of an attempt that found its disk full, after that is archived. Returns the
/// attempt if it is not, says why, and notes it for the fault with which the run ends.
pub(crate) fn archived<M, R, P>(
    rt: &R,
    of: &Simulated<M>,
    ended: Tried,
    into: Archive<'_>,
    watch: &mut Watching<'_, R, P>,
) -> Result<FileDisk, Tried>
where
    M: Modelled,
    R: Files<File = File> + Clock + AllocGlobal,
    P: Progress,
    requires some { 1 ≤ of.now.end }
    requires short { of.now.end ≤ 2 ^ 40 }
    ensures last { IfErr result (λ last. last.outcome ≡ ended.outcome) }
    // The next disk goes on from the world of the archived one, which is only read.
    ensures next { IfOk result (λ next. IsNextDisk (M.meaning of.now.model) of.now.end
        ended.disk.reads (disk_of_file next)) }
    ensures looks { IfErr result (λ last. OnlyLooks (disk_of_file ended.disk)
        (disk_of_file last.disk)) }
{
    let Returned { disk, outcome } = ended;
    match archive(rt, rt.alloc(), &of.model, of.end, into.place, disk) {
        Ok(Archived { disk, time, events }) => {
            watch.before = events;
            say_change(rt.alloc(), time, events, watch.progress);
            remove_older(rt, &of.model, into, time, watch.progress);
            Ok(disk)
        }
        Err(refused) => {
            say_refusal(rt.alloc(), &refused, watch.progress);
            watch.not_archived = Some((refused.fault, refused.system));
            Err(Returned {
                disk: refused.disk,
                outcome,
            })
        }
    }
}

/// Says that a disk is archived.
fn say_change<P: Progress>(alloc: Global, time: u64, events: u64, progress: &mut P) {
    let line = format!(in alloc; "archived up to {time}, with {events} events so far");
    if let Ok(line) = line {
        progress.goes_on(line.as_str());
    }
}

/// Says why a disk is not archived, with the system's words.
fn say_refusal<P: Progress>(alloc: Global, refused: &NotArchived, progress: &mut P) {
    let fault = refused.fault;
    let line = match refused.system {
        Some(system) => format!(in alloc; "not archived ({fault}: {system})"),
        None => format!(in alloc; "not archived ({fault})"),
    };
    if let Ok(line) = line {
        progress.goes_on(line.as_str());
    }
}

/// Removes what an earlier run may have left that was killed at a change of disks: a second name of
/// the disk, and a part more than are kept. A disk that is no segment has no parts.
pub(crate) fn remove_surplus<M, R, P>(
    rt: &R,
    model: &M,
    begun: &BegunDisk<FileDisk>,
    archive: Option<Archive<'_>>,
    progress: &mut P,
)
where
    M: Modelled,
    R: Files<File = File> + AllocGlobal,
    P: Progress,
{
    let Some(into) = archive else {
        return;
    };
    match remove_second_names(rt, rt.alloc(), into.place.path) {
        Ok(false) => {}
        _ => progress.goes_on("a second name of the disk is not removed"),
    }
    if let Some(newest) = begun.believed() {
        remove_older(rt, model, into, newest, progress);
    }
}

/// Removes the parts of a disk beyond those that are kept. A failure is said, and does not end the
/// run.
fn remove_older<M, R, P>(rt: &R, model: &M, into: Archive<'_>, newest: u64, progress: &mut P)
where
    M: Modelled,
    R: Files<File = File> + AllocGlobal,
    P: Progress,
{
    let Some(keep) = into.keep else {
        return;
    };
    match remove_parts(rt, rt.alloc(), model, into.place.path, newest, keep) {
        Ok((_removed, false)) => {}
        _ => progress.goes_on("an archived part is not removed"),
    }
}
