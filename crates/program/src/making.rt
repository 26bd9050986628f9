// The commands on a disk's file that need a session or a migration, and the disk of a run.

ghost use Rattle.std.specs.Prelude.{◌⊎◌, ◌≡◌, ℕ, OnErr, OnOk};
ghost use Rattle.disk.specs.FileDisks.{disk_of_file};
ghost use Rattle.disk_commands.specs.Disks.{IsUnused};
ghost use Rattle.model.specs.Meaning.{Meaning};
ghost use Rattle.program.specs.Attempts.{IsMadeFor};
ghost use Rattle.program.specs.Command.{IsExtendedText, IsFormatted, IsMigratedText};
ghost use Rattle.recovery.specs.Crashes.{KeepsRecovery};
ghost use Rattle.recovery.specs.Ends.{IsEnd};
ghost use Rattle.recovery.specs.Represents.{Recovers};
ghost use Rattle.views.specs.Views.{Begins, Prints};

use crate::described::{WithText, simulated, simulated_with_text};
use crate::outcomes::of_command;
use cli::{DiskArgs, MigrateArgs, NewArgs, most_sectors};
use disk::FileDisk;
use disk_commands::{
    Fault, Keeping, NewFile, SystemErrors, disk_with_log, is_blank, open_new, open_old,
    refuse_contents, text_to_keep,
};
use model::Continued;
use runs::commands::Simulated;
use std::alloc::Global;
use std::fs::File;
use std::io::{Write, sink};
use std::rt::Files;
use std::time::Clock;
use terminal::are_one_file;
use texts::Described;
use views::{BegunDisk, open_disk};

/// Makes an empty log for the model of a file, on a disk, which keeps the model if it is asked to.
/// Refuses the model file itself as a disk, and a file that holds other bytes than one on which an
/// earlier `new` was stopped, unless it is asked to write over them.
pub(crate) fn new_on<M, R, O>(
    rt: &R,
    args: NewArgs<'_>,
    said: &SystemErrors,
    out: &mut O,
) -> Result<(), Fault>
where
    M: Described,
    R: Files<File = File> + Clock + AllocGlobal,
    O: Write,
    ensures ok { OnOk result
        (Prints (IsFormatted args.entry.sectors) (O.contents out.old) (O.contents out.new)) }
    ensures err { OnErr result ((out.new ≡ out.old)
        ⊎ Begins (IsFormatted args.entry.sectors) (O.contents out.old) (O.contents out.new)) }
{
    let DiskArgs { model, disk, large } = args.on;
    let read: WithText<M> = simulated_with_text(rt, model)?;
    if are_one_file(rt, model.path, disk) {
        return Err(Fault::File);
    }
    let new = NewFile::of(args.sectors, args.reserve);
    let text = text_to_keep(args.keep_model, read.text.as_slice());
    let keeping = Keeping::of(rt, disk, text, said)?;
    let mut disk = open_new(rt, disk, new, large, said)?;
    refuse_contents(&mut disk, args.over, said)?;
    keeping.write(rt, &mut disk, said)?;
    let made = runs::commands::new(rt.alloc(), &read.of, &mut disk, out);
    said.note(disk.last_error());
    match made {
        Ok(()) => Ok(()),
        Err(fault) => Err(of_command(fault)),
    }
}

/// Opens the disk of a run. If a new file is given, and the disk's file is not there, is empty or is
/// blank, makes its log as `new_on` does: a kill may have left it so. A blank one with fewer sectors
/// than asked for gets these; one with more keeps its own. The disk that is made keeps this text, if
/// there is one.
pub(crate) fn disk_of<M, R>(
    rt: &R,
    of: &Simulated<M>,
    on: DiskArgs<'_>,
    create: Option<NewFile>,
    text: Option<&[u8]>,
    said: &SystemErrors,
) -> Result<FileDisk, Fault>
where
    M: Described,
    R: Files<File = File> + Clock + AllocGlobal,
{
    let Some(mut new) = create else {
        return open_old(rt, on, said);
    };
    if let Some(disk) = disk_with_log(rt, on, &mut new, said)? {
        return Ok(disk);
    }
    made_disk(rt, of, on, new, text, said)
}

/// Makes the disk of a run, or the log of one that is blank, and keeps this text if there is one.
fn made_disk<M, R>(
    rt: &R,
    of: &Simulated<M>,
    on: DiskArgs<'_>,
    new: NewFile,
    text: Option<&[u8]>,
    said: &SystemErrors,
) -> Result<FileDisk, Fault>
where
    M: Described,
    R: Files<File = File> + Clock + AllocGlobal,
{
    let keeping = Keeping::of(rt, on.disk, text, said)?;
    let mut disk = open_new(rt, on.disk, new, on.large, said)?;
    keeping.write(rt, &mut disk, said)?;
    make_log(rt.alloc(), of, &mut disk, said)?;
    Ok(disk)
}

/// Makes the log of the disk of a run if that is blank. Another disk is only read.
fn make_log<M>(
    alloc: Global,
    of: &Simulated<M>,
    disk: &mut FileDisk,
    said: &SystemErrors,
) -> Result<(), Fault>
where
    M: Described,
    // The disk was only looked at; or it was blank, and a history of calls begins with it.
    ensures made { IsEnd of.now.end → OnOk result (IsMadeFor (M.meaning of.now.model)
        (disk_of_file disk.old) (disk_of_file disk.new)) }
    ensures unused { OnErr result (IsUnused disk.old.reads) }
    // What it represented before, of any model, it represents at each moment, at every exit.
    ensures crashes { (m : Meaning) (end a : ℕ) → Recovers m end a (disk_of_file disk.old) →
        KeepsRecovery m end a a (disk_of_file disk.old) (disk_of_file disk.new) }
{
    if !is_blank(disk) {
        return Ok(());
    }
    let mut unseen = sink();
    let made = runs::commands::new(alloc, of, disk, &mut unseen);
    said.note(disk.last_error());
    match made {
        Ok(()) => Ok(()),
        Err(fault) => Err(of_command(fault)),
    }
}

/// Extends the disk of a model, which may be a segment, to the end in the model file.
pub(crate) fn extend_on<M, R, O>(
    rt: &R,
    args: DiskArgs<'_>,
    said: &SystemErrors,
    out: &mut O,
) -> Result<(), Fault>
where
    M: Described,
    R: Files<File = File> + Clock + AllocGlobal,
    O: Write,
    ensures ok { OnOk result
        (Prints (IsExtendedText M.meaning M.says) (O.contents out.old) (O.contents out.new)) }
    ensures err { OnErr result ((out.new ≡ out.old)
        ⊎ Begins (IsExtendedText M.meaning M.says) (O.contents out.old) (O.contents out.new)) }
{
    let of: Simulated<M> = simulated(rt, args.model)?;
    let disk = open_old(rt, args, said)?;
    let BegunDisk { disk, origin, .. } = BegunDisk::of(rt.alloc(), &of.model, disk);
    let on = Simulated {
        model: Continued::new(&of.model, origin.as_ref()),
        end: of.end,
    };
    let ended = runs::commands::extend(rt.alloc(), &on, disk, out);
    said.note(ended.disk.last_error());
    match ended.outcome {
        Ok(()) => Ok(()),
        Err(fault) => Err(of_command(fault)),
    }
}

/// Migrates a disk of format 1, of the model of a file, to a new disk.
///
/// Makes the new disk as `new_on` does, except that its header has the end of the old header, and that
/// other bytes in its file are never written over.
/// Refuses the model file and the old disk's file as a new disk. Opens the old disk, and compares
/// the model's end with the end in force on it, before it opens or makes the new one.
pub(crate) fn migrate_on<M, R, O>(
    rt: &R,
    args: MigrateArgs<'_>,
    said: &SystemErrors,
    out: &mut O,
) -> Result<(), Fault>
where
    M: Described,
    R: Files<File = File> + Clock + AllocGlobal,
    O: Write,
    ensures ok { OnOk result
        (Prints (IsMigratedText M.meaning M.says) (O.contents out.old) (O.contents out.new)) }
    ensures err { OnErr result ((out.new ≡ out.old)
        ⊎ Begins (IsMigratedText M.meaning M.says) (O.contents out.old) (O.contents out.new)) }
{
    let MigrateArgs {
        model,
        old,
        new,
        sectors,
        reserve,
        large,
    } = args;
    let most = most_sectors(large);
    let of: Simulated<M> = simulated(rt, model)?;
    let opened = open_disk(rt, old, most)?;
    let mut log = match runs::commands::old_log(rt.alloc(), &of, opened) {
        Ok(log) => log,
        Err(fault) => return Err(of_command(fault)),
    };
    if are_one_file(rt, model.path, new) || are_one_file(rt, old, new) {
        return Err(Fault::File);
    }
    let mut made = open_new(rt, new, NewFile::of(sectors, reserve), large, said)?;
    refuse_contents(&mut made, false, said)?;
    let ended = runs::commands::migrate(rt.alloc(), &of, &mut log, made, out);
    said.note(ended.disk.last_error());
    match ended.outcome {
        Ok(()) => Ok(()),
        Err(fault) => Err(of_command(fault)),
    }
}
