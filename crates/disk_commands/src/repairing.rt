// The commands that save what is good of a disk with a record at fault: `recover` and `cut`.

ghost use Rattle.std.specs.Prelude.{◌≡◌, ◌⊎◌, ◌++◌, IsOkUnless, OnErr, OnOk};
ghost use Rattle.disk.specs.Disk.{OnlyLooks};
ghost use Rattle.disk.specs.FileDisks.{disk_of_file};
ghost use Rattle.eventkey.specs.Writing.{Writes};
ghost use Rattle.disk_commands.specs.Disks.{IsZeroFrom};
ghost use Rattle.disk_commands.specs.Repairing.{IsCutText, IsRecoveredText, cut_text, fault_name};
ghost use Rattle.disk_commands.specs.Repairing.{fault_text, numbers_text, reason_of, recovered_text};
ghost use Rattle.disk_commands.specs.Repairing.{row_text, seen_text, stop_text, taken_text};
ghost use Rattle.disk_commands.specs.declared.fault.Fault.TheVariants.{Output};
ghost use Rattle.upkeep.specs.Cutting.{IsReady};
ghost use Rattle.views.specs.Reading.{believed_line};
ghost use Rattle.views.specs.Views.{Begins, Prints};

use crate::disks::{NewFile, is_zero_at, open_new, open_old};
use crate::fault::{Fault, flushed};
use crate::said::SystemErrors;
use crate::verifying::Verifying;
use cli::{DiskArgs, RecoverArgs};
use commitlog::LogFault;
use disk::{FileDisk, NotOpened, Returned, SectorDisk};
use model::Continued;
use recovery::RecoveryFault;
use std::fs::File;
use std::io::{Result as IoResult, Write};
use std::rt::Files;
use std::time::Clock;
use terminal::{Progress, are_one_file};
use texts::{Described, write_number, write_text};
use upkeep::{CutLog, Salvaged, ToCut, close_cut, find_cut, salvage};
use views::{Beginning, BegunDisk, read_model_file, write_believed_line};

/// Takes the good records of a damaged disk of the model of a file over to a new disk, and writes
/// how many they are, what they represent, and why the next one is not taken. The origin of a segment
/// is believed; a line says so.
///
/// Holds the lock of the damaged disk and only reads it. Refuses the model file and the damaged
/// disk's file as a new disk, and a file that holds anything. Nothing is written to the new disk
/// before all good records are found.
pub fn recover_on<M, R, P, O>(
    rt: &R,
    args: RecoverArgs<'_>,
    said: &SystemErrors,
    progress: &mut P,
    out: &mut O,
) -> Result<(), Fault>
where
    M: Described,
    R: Files<File = File> + Clock + AllocGlobal,
    P: Progress,
    O: Write,
    ensures ok { OnOk result
        (Prints (IsRecoveredText M.meaning M.says) (O.contents out.old) (O.contents out.new)) }
    ensures err { OnErr result ((out.new ≡ out.old)
        ⊎ Begins (IsRecoveredText M.meaning M.says) (O.contents out.old) (O.contents out.new)) }
{
    let RecoverArgs {
        model,
        old,
        new,
        sectors,
        reserve,
        large,
    } = args;
    let (of, end): (M, u64) = read_model_file(rt, model)?;
    let on = DiskArgs {
        model,
        disk: old,
        large,
    };
    let mut damaged = open_old(rt, on, said)?;
    if are_one_file(rt, model.path, new) || are_one_file(rt, old, new) {
        return Err(Fault::File);
    }
    let mut made = open_new(rt, new, NewFile::of(sectors, reserve), large, said)?;
    refuse_used(&mut made)?;
    let begins = Beginning::in_row(rt.alloc(), &of, &mut damaged);
    let time = begins.believed();
    let on_row = Continued::new(&of, begins.origin.as_ref());
    progress.reads();
    progress.begin(end);
    let mut watch = Verifying { progress };
    let Returned { disk, outcome } = salvage(
        rt.alloc(),
        &on_row,
        &mut damaged,
        end,
        made,
        &mut watch,
    );
    said.note(disk.last_error());
    let salvaged = outcome?;
    watch.progress.clear();
    write_recovered(salvaged, time, out)
}

/// Refuses a new disk that holds other bytes than zeros.
fn refuse_used(disk: &mut FileDisk) -> Result<(), Fault>
    ensures zeros { OnOk result (IsZeroFrom 0 disk.old.reads) }
    ensures looks { OnlyLooks (disk_of_file disk.old) (disk_of_file disk.new) }
{
    for number in 0..disk.sectors() {
        match is_zero_at(disk, number) {
            Ok(true) => {}
            Ok(false) => return Err(Fault::Recover(LogFault::NotBlank)),
            Err(fault) => return Err(Fault::Recover(LogFault::Disk(fault))),
        }
    }
    Ok(())
}

/// Writes what was taken over from a damaged disk, and the line on its origin; and flushes the
/// writer.
fn write_recovered<O: Write>(
    salvaged: Salvaged,
    time: Option<u64>,
    out: &mut O,
) -> Result<(), Fault>
    ensures written { Writes (O.contents out.old) (O.contents out.new) result
        (recovered_text salvaged ++ believed_line time) }
    ensures fault { IsOkUnless result Output }
{
    flushed(write_taken_over(salvaged, time, out), out)
}

/// Writes what was taken over from a damaged disk, and the line on its origin.
fn write_taken_over<O: Write>(salvaged: Salvaged, time: Option<u64>, out: &mut O) -> IoResult<()>
    ensures { Writes (O.contents out.old) (O.contents out.new) result
        (recovered_text salvaged ++ believed_line time) }
{
    write_salvaged(salvaged, out)?;
    write_believed_line(time, out)
}

/// Writes what was taken over, and then why the next record was not.
fn write_salvaged<O: Write>(salvaged: Salvaged, out: &mut O) -> IoResult<()>
    ensures { Writes (O.contents out.old) (O.contents out.new) result (recovered_text salvaged) }
{
    write_row(salvaged, out)?;
    write_stop(salvaged, out)
}

/// Writes how many records were taken over, and what they represent.
fn write_row<O: Write>(salvaged: Salvaged, out: &mut O) -> IoResult<()>
    ensures { Writes (O.contents out.old) (O.contents out.new) result (row_text salvaged) }
{
    write_numbers(salvaged, out)?;
    write_seen(
        " whole records: committed ",
        salvaged.seen.time,
        salvaged.seen.events,
        out,
    )
}

/// Writes how many records were taken over, of how many whole ones.
fn write_numbers<O: Write>(salvaged: Salvaged, out: &mut O) -> IoResult<()>
    ensures { Writes (O.contents out.old) (O.contents out.new) result (numbers_text salvaged) }
{
    write_number("recovered ", salvaged.records, out)?;
    write_number(" of ", salvaged.whole, out)
}

/// Writes the time and the number of events of a world after a text, and the end of the line.
fn write_seen<O: Write>(before: &str, time: u64, events: u64, out: &mut O) -> IoResult<()>
    ensures { Writes (O.contents out.old) (O.contents out.new) result
        (seen_text before.now time events) }
{
    write_number(before, time, out)?;
    write_number(" events ", events, out)?;
    write_text("\n", out)
}

/// Writes the number of the record that was not taken over, and why.
fn write_stop<O: Write>(salvaged: Salvaged, out: &mut O) -> IoResult<()>
    ensures { Writes (O.contents out.old) (O.contents out.new) result (stop_text salvaged) }
{
    write_number("record ", salvaged.records, out)?;
    write_text(reason_of(salvaged.stop, salvaged.is_open), out)?;
    write_text("\n", out)
}

/// Why a record is not taken over, by what is wrong with it and whether its gate is open. The old
/// log may just have ended at a closed gate; zeros after it look like a record without a kind.
fn reason_of(stop: RecoveryFault, is_open: bool) -> &'static str
    ensures { result.now ≡ reason_of stop is_open }
{
    match (stop, is_open) {
        (RecoveryFault::Log(_), true) => ": no whole record",
        (RecoveryFault::Log(_) | RecoveryFault::BadRecord, false) => ": none, its gate is closed",
        (RecoveryFault::BadRecord, true) => ": BadRecord",
        (RecoveryFault::OtherModel, _) => ": OtherModel",
        (RecoveryFault::NotTheLeast, _) => ": NotTheLeast",
        (RecoveryFault::GoesBack, _) => ": GoesBack",
        (RecoveryFault::BadCheckpoint, _) => ": BadCheckpoint",
        (RecoveryFault::NoMemory, _) => ": NoMemory",
        (RecoveryFault::NumberLimit, _) => ": NumberLimit",
        (RecoveryFault::BadEnd, _) => ": BadEnd",
    }
}

/// Closes the gate of the first record at fault on the disk of the model of a file. Writes what
/// that takes away and flushes the writer before, and what the disk then represents after it. The
/// origin of a segment is believed; a line says so.
pub fn cut_on<M, R, P, O>(
    rt: &R,
    args: DiskArgs<'_>,
    said: &SystemErrors,
    progress: &mut P,
    out: &mut O,
) -> Result<(), Fault>
where
    M: Described,
    R: Files<File = File> + Clock + AllocGlobal,
    P: Progress,
    O: Write,
    ensures ok { OnOk result
        (Prints (IsCutText M.meaning M.says) (O.contents out.old) (O.contents out.new)) }
    ensures err { OnErr result ((out.new ≡ out.old)
        ⊎ Begins (IsCutText M.meaning M.says) (O.contents out.old) (O.contents out.new)) }
{
    let (model, end): (M, u64) = read_model_file(rt, args.model)?;
    let disk = open_old(rt, args, said)?;
    let begun = BegunDisk::of(rt.alloc(), &model, disk);
    let time = begun.believed();
    let BegunDisk { disk, origin, .. } = begun;
    let on = Continued::new(&model, origin.as_ref());
    progress.begin(end);
    let mut watch = Verifying { progress };
    let to = match find_cut(rt.alloc(), &on, disk, &mut watch) {
        Ok(to) => to,
        Err(NotOpened { fault, disk }) => {
            said.note(disk.last_error());
            return Err(Fault::from(fault));
        }
    };
    watch.progress.clear();
    cut_saying(to, time, said, out)
}

/// Writes what a cut takes away, cuts, and writes what is left. If the writer refuses the first,
/// nothing is cut.
fn cut_saying<O: Write>(
    to: ToCut<FileDisk>,
    time: Option<u64>,
    said: &SystemErrors,
    out: &mut O,
) -> Result<(), Fault>
    requires ready { IsReady disk_of_file to.log to.cut.left }
    ensures written { Writes (O.contents out.old) (O.contents out.new) result
        (taken_text to.cut ++ cut_text to.cut ++ believed_line time) }
{
    let cut = to.cut;
    write_taken(cut, out)?;
    let Returned { disk, outcome } = close_cut(to);
    said.note(disk.last_error());
    if let Err(fault) = outcome {
        return Err(Fault::Log(LogFault::Disk(fault)));
    }
    write_cut(cut, time, out)
}

/// Writes which records a cut takes away, and why, and flushes the writer.
fn write_taken<O: Write>(cut: CutLog, out: &mut O) -> Result<(), Fault>
    ensures written { Writes (O.contents out.old) (O.contents out.new) result (taken_text cut) }
    ensures fault { IsOkUnless result Output }
{
    flushed(write_range(cut, out), out)
}

/// Writes which records a cut takes away, and why.
fn write_range<O: Write>(cut: CutLog, out: &mut O) -> IoResult<()>
    ensures { Writes (O.contents out.old) (O.contents out.new) result (taken_text cut) }
{
    write_number("takes away records ", cut.left, out)?;
    write_number(" to ", cut.last, out)?;
    write_fault(cut, out)
}

/// Writes the number of the record at fault, and its fault.
fn write_fault<O: Write>(cut: CutLog, out: &mut O) -> IoResult<()>
    ensures { Writes (O.contents out.old) (O.contents out.new) result (fault_text cut) }
{
    write_number(": Record ", cut.left, out)?;
    write_text(fault_name(cut.fault), out)?;
    write_text("\n", out)
}

/// The name of a fault of a record, after a space.
fn fault_name(fault: RecoveryFault) -> &'static str
    ensures { result.now ≡ fault_name fault }
{
    match fault {
        RecoveryFault::OtherModel => " OtherModel",
        RecoveryFault::BadRecord => " BadRecord",
        RecoveryFault::NotTheLeast => " NotTheLeast",
        RecoveryFault::GoesBack => " GoesBack",
        RecoveryFault::BadCheckpoint => " BadCheckpoint",
        RecoveryFault::NoMemory => " NoMemory",
        RecoveryFault::NumberLimit => " NumberLimit",
        RecoveryFault::Log(_) => " Log",
        RecoveryFault::BadEnd => " BadEnd",
    }
}

/// Writes what a cut disk represents, and the line on its origin; and flushes the writer.
fn write_cut<O: Write>(cut: CutLog, time: Option<u64>, out: &mut O) -> Result<(), Fault>
    ensures written { Writes (O.contents out.old) (O.contents out.new) result
        (cut_text cut ++ believed_line time) }
    ensures fault { IsOkUnless result Output }
{
    flushed(write_left(cut, time, out), out)
}

/// Writes what a cut disk represents, and the line on its origin.
fn write_left<O: Write>(cut: CutLog, time: Option<u64>, out: &mut O) -> IoResult<()>
    ensures { Writes (O.contents out.old) (O.contents out.new) result
        (cut_text cut ++ believed_line time) }
{
    write_seen("cut: committed ", cut.seen.time, cut.seen.events, out)?;
    write_believed_line(time, out)
}
