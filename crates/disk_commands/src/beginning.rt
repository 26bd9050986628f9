// A new disk that goes on from the world of another one.

ghost use Rattle.std.specs.Prelude.{◌≡◌, ◌⊎◌, length, IsOkUnless, OnErr, OnOk};
ghost use Rattle.segments.specs.Archiving.{events_before};
ghost use Rattle.disk_commands.specs.Disks.{segment_text, IsNewSegment};
ghost use Rattle.disk_commands.specs.declared.fault.Fault.TheVariants.{Output};
ghost use Rattle.eventkey.specs.Writing.{Writes};
ghost use Rattle.views.specs.Views.{Begins, Prints};

use crate::disks::{NewFile, open_new, refuse_contents};
use crate::fault::{Fault, flushed};
use crate::keeping::{Keeping, text_to_keep};
use crate::said::SystemErrors;
use cli::{DiskArgs, NewArgs, most_sectors};
use commitlog::LogFault;
use disk::Returned;
use recovery::Front;
use segments::archiving::{begin_on, events_before};
use std::fs::{self, File};
use std::io::{Result as IoResult, Write};
use std::rt::Files;
use std::time::Clock;
use terminal::are_one_file;
use texts::{Described, write_number, write_text};
use views::{ModelText, SegmentFault, front_of, read_model_text};

/// Makes the log of a segment that goes on from the world of the disk at `from`, which is only read.
/// Refuses the model file and that disk as the new disk. If the disk has no room for the segment, or
/// its origin is too long, its file is removed.
pub fn new_behind<M, R, O>(
    rt: &R,
    args: NewArgs<'_>,
    from: &str,
    said: &SystemErrors,
    out: &mut O,
) -> Result<(), Fault>
where
    M: Described,
    R: Files<File = File> + Clock + AllocGlobal,
    O: Write,
    ensures ok { OnOk result (Prints (IsNewSegment M.meaning M.says args.entry.sectors)
        (O.contents out.old) (O.contents out.new)) }
    ensures err { OnErr result ((out.new ≡ out.old)
        ⊎ Begins (IsNewSegment M.meaning M.says args.entry.sectors)
        (O.contents out.old) (O.contents out.new)) }
{
    let DiskArgs { model, disk, large } = args.on;
    let read: ModelText<M> = read_model_text(rt, model)?;
    let of = &read.model;
    let end = read.end;
    if are_one_file(rt, model.path, disk) || are_one_file(rt, from, disk) {
        return Err(Fault::File);
    }
    let front = front_of(rt, of, end, from, most_sectors(large))?;
    let new = NewFile::of(args.sectors, args.reserve);
    let text = text_to_keep(args.keep_model, read.text.as_slice());
    let keeping = Keeping::of(rt, disk, text, said)?;
    let mut blank = open_new(rt, disk, new, large, said)?;
    refuse_contents(&mut blank, args.over, said)?;
    keeping.write(rt, &mut blank, said)?;
    let Returned {
        disk: made,
        outcome,
    } = begin_on(rt.alloc(), of, end, &front, blank);
    match outcome {
        Ok(()) => write_segment(args.sectors, &front, out),
        Err(fault) => {
            said.note(made.last_error());
            Err(unmade_by(rt, disk, fault))
        }
    }
}

/// Returns the program's fault for one of the making of a segment. A disk that has no room for it is
/// removed, since it would be one that begins as the model does.
fn unmade_by<R>(rt: &R, path: &str, fault: LogFault) -> Fault
where
    R: Files<File = File>,
{
    match fault {
        LogFault::Full => {
            let _gone = fs::remove_file(rt, path);
            Fault::Log(fault)
        }
        LogFault::TooLong => {
            let _gone = fs::remove_file(rt, path);
            Fault::Segment(SegmentFault::TooLong)
        }
        fault => Fault::Log(fault),
    }
}

/// Writes the number of sectors of a new segment, and from where it goes on; and flushes the writer.
fn write_segment<O: Write>(sectors: u32, front: &Front, out: &mut O) -> Result<(), Fault>
    ensures written { Writes (O.contents out.old) (O.contents out.new) result
        (segment_text sectors front.now.g
        (events_before front.now.numbers (length front.now.pending))) }
    ensures fault { IsOkUnless result Output }
{
    let events = events_before(front.numbers.as_slice(), front.pending.as_slice().len());
    flushed(write_made(sectors, front.g, events, out), out)
}

/// Writes them.
fn write_made<O: Write>(sectors: u32, time: u64, events: u64, out: &mut O) -> IoResult<()>
    ensures { Writes (O.contents out.old) (O.contents out.new) result
        (segment_text sectors time events) }
{
    write_number("formatted ", u64::from(sectors), out)?;
    write_number(" sectors\ngoes on from ", time, out)?;
    write_number(" events ", events, out)?;
    write_text("\n", out)
}
