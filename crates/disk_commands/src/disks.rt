// The files of disks: opening and making them; `reopen` and `grow`.

ghost use Rattle.std.specs.Prelude.{◌≡◌, ◌⊎◌, ◌++◌, [], length, replicate, slice_index_or, true};
ghost use Rattle.std.specs.Prelude.{false, IfOk, IfSome, IsOkUnless, OnErr, OnOk};
ghost use Rattle.commitlog.specs.Records.{is_open, IsBlank};
ghost use Rattle.disk.specs.Disk.{OnlyLooks, zero_sector};
ghost use Rattle.disk.specs.FileDisks.{disk_of_file};
ghost use Rattle.disk_commands.specs.Disks.{grown_text, reopened_text, IsGrown, IsReopenedText};
ghost use Rattle.disk_commands.specs.Disks.{IsUnused, IsZeroFrom};
ghost use Rattle.disk_commands.specs.declared.fault.Fault.TheVariants.{Output};
ghost use Rattle.eventkey.specs.Writing.{Writes};
ghost use Rattle.upkeep.specs.Reopened.{IsShut};
ghost use Rattle.views.specs.Reading.{believed_line};
ghost use Rattle.views.specs.Views.{Begins, Prints};

use crate::fault::{Fault, flushed};
use crate::said::SystemErrors;
use crate::verifying::Verifying;
use cli::{DiskArgs, GrowArgs, most_sectors};
use commitlog::LogFault;
use disk::{
    DiskFault, FileDisk, FileError, FileFault, GrowingDisk, MOST_SECTORS, Returned, Room,
    SECTOR_BYTES, Sector, SectorDisk,
};
use model::Continued;
use std::alloc::Global;
use std::fs::{self, File, Metadata, OpenOptions};
use std::io::{Result as IoResult, Write};
use std::rt::Files;
use std::thread;
use std::time::{Clock, Duration};
use terminal::{FileId, FileRefusal, Held, Progress, is_elsewhere, is_locked, place_of};
use texts::{Described, write_number, write_text};
use upkeep::growing::{Grown, grow};
use upkeep::{Verified, has_records, reopen};
use views::{Beginning, BegunDisk, read_model_file, simulation_in, write_believed_line};

/// The file of a disk that is made.
#[derive(Clone, Copy)]
pub struct NewFile {
    /// The number of sectors that it gets.
    pub sectors: u32,
    /// Whether it has all its sectors reserved on the device.
    pub room: Room,
}

impl NewFile {
    /// A file of this many sectors, all of them reserved on the device or not.
    pub fn of(sectors: u32, reserve: bool) -> NewFile
        ensures { result.sectors ≡ sectors }
    {
        NewFile {
            sectors,
            room: if reserve {
                Room::Reserved
            } else {
                Room::Sparse
            },
        }
    }
}

/// Opens the file of a disk, which is made first if there is none. An empty file gets its size. Notes
/// the system's error if that fails.
pub fn open_new<R>(
    rt: &R,
    path: &str,
    new: NewFile,
    large: bool,
    said: &SystemErrors,
) -> Result<FileDisk, Fault>
where
    R: Files<File = File> + Clock + AllocGlobal,
    ensures { IfOk result (λ disk. length disk.reads ≡ new.sectors) }
{
    let NewFile { sectors, room } = new;
    let most = most_sectors(large);
    fill_empty(rt, path, sectors);
    match open_unlocked(rt, path, Some(sectors), most, room) {
        Ok(disk) => Ok(disk),
        Err(error) => Err(noted(error, said)),
    }
}

/// Opens the file of a disk, which must exist. Notes the system's error if that fails.
pub fn open_old<R>(rt: &R, on: DiskArgs<'_>, said: &SystemErrors) -> Result<FileDisk, Fault>
where
    R: Files<File = File> + Clock + AllocGlobal,
{
    let most = most_sectors(on.large);
    match open_unlocked(rt, on.disk, None, most, Room::Sparse) {
        Ok(disk) => Ok(disk),
        Err(error) => Err(noted(error, said)),
    }
}

/// How often a locked disk is tried to be opened again, and the milliseconds before each try.
const TRIES: u32 = 100;

const PAUSE: u64 = 20;

/// Opens the file of a disk as `FileDisk::open_with` does. While another program has its lock, waits
/// for it up to two seconds: a run that was killed needs a moment to end. A file that has lost its
/// name before it was locked, as a disk that a run archives, is left for the one that has it now.
fn open_unlocked<R>(
    rt: &R,
    path: &str,
    sectors: Option<u32>,
    most: u32,
    room: Room,
) -> Result<FileDisk, FileError>
where
    R: Files<File = File> + Clock + AllocGlobal,
    ensures asked { IfOk result (λ disk. IfSome sectors (λ n. length disk.reads ≡ n)) }
{
    for _ in 0..TRIES {
        let place = place_of(rt, path).ok();
        match FileDisk::open_with(rt, rt.alloc(), path, sectors, most, room) {
            Err(error) if error.fault == FileFault::File && is_locked(rt, path) => {
                thread::sleep(rt, Duration::from_millis(PAUSE));
            }
            Ok(_) if is_left(rt, path, place) => {}
            opened => return opened,
        }
    }
    FileDisk::open_with(rt, rt.alloc(), path, sectors, most, room)
}

/// Whether a path led to this file and does not any more.
fn is_left<R: Files>(rt: &R, path: &str, place: Option<FileId>) -> bool {
    match place {
        Some(place) => is_elsewhere(rt, path, place),
        None => false,
    }
}

/// Gives an empty file the size of a disk of zeros, if it is a plain one that no other program has
/// locked. Any other file stays as it is.
fn fill_empty<R>(rt: &R, path: &str, sectors: u32)
where
    R: Files<File = File>,
{
    if !fs::metadata(rt, path).is_ok_and(is_empty) {
        return;
    }
    let Ok(file) = OpenOptions::new().read(true).write(true).open(rt, path) else {
        return;
    };
    // another program may have had it until now
    if file.try_lock().is_ok() && file.metadata().is_ok_and(is_empty) {
        let _ = file.set_len(u64::from(sectors) * SECTOR_BYTES as u64);
    }
}

/// Whether an ordinary file that may be written has no bytes.
fn is_empty(found: Metadata) -> bool {
    found.is_file() && found.len() == 0 && !found.permissions().readonly()
}

/// Notes why a file was not opened, and returns the fault.
fn noted(error: FileError, said: &SystemErrors) -> Fault {
    said.note(error.system);
    Fault::from(error.fault)
}

/// Refuses a disk on which no log is made, before anything is written: one that has records after a
/// closed gate, and unless `over` is set, one that holds other bytes.
pub fn refuse_contents(disk: &mut FileDisk, over: bool, said: &SystemErrors) -> Result<(), Fault>
    ensures shut { OnOk result (IsShut disk.old.reads → IsZeroFrom 3 disk.old.reads) }
    ensures kept { over ≡ false → OnOk result (IsBlank disk.old.reads →
        IsZeroFrom 3 disk.old.reads) }
    ensures looks { OnlyLooks (disk_of_file disk.old) (disk_of_file disk.new) }
{
    refuse_records(disk)?;
    if over {
        Ok(())
    } else {
        refuse_bytes(disk, said)
    }
}

/// Refuses a disk that holds other bytes than one on which `new` was stopped, and says which. A disk
/// with a log is refused where the log is made.
fn refuse_bytes(disk: &mut FileDisk, said: &SystemErrors) -> Result<(), Fault>
    ensures kept { OnOk result (IsBlank disk.old.reads → IsZeroFrom 3 disk.old.reads) }
    ensures looks { OnlyLooks (disk_of_file disk.old) (disk_of_file disk.new) }
{
    match is_formatted(disk) {
        Ok(true) => Ok(()),
        Ok(false) => match refuse_data(disk) {
            Err(Fault::Shut) => {
                let held = held_on(disk);
                Err(said.refuse(FileRefusal::Holds(held)))
            }
            outcome => outcome,
        },
        Err(fault) => Err(Fault::Log(LogFault::Disk(fault))),
    }
}

/// Whether the gate of a disk's header is open.
pub(crate) fn is_formatted(disk: &mut FileDisk) -> Result<bool, DiskFault>
    ensures is { IfOk result (λ is. is ≡ is_open (slice_index_or disk.old.reads 0 [])) }
    ensures looks { OnlyLooks (disk_of_file disk.old) (disk_of_file disk.new) }
{
    let mut gate = [0; SECTOR_BYTES];
    disk.read(0, &mut gate)?;
    Ok(gate[0] == 1)
}

/// What a disk holds that is not made one: a header, records, or other bytes.
fn held_on(disk: &mut FileDisk) -> Held
    ensures looks { OnlyLooks (disk_of_file disk.old) (disk_of_file disk.new) }
{
    let header = sector_on(disk, 1);
    match simulation_in(&header) {
        Some(found) => Held::Header {
            format: found.format,
            lps: found.lps,
            end: found.end,
        },
        None => held_behind(disk),
    }
}

/// What a disk without a header holds: records, if an open gate and the beginning of a record follow
/// each other in it, or other bytes.
fn held_behind(disk: &mut FileDisk) -> Held
    ensures looks { OnlyLooks (disk_of_file disk.old) (disk_of_file disk.new) }
{
    let mut is_behind_gate = false;
    for number in 2..disk.sectors() {
        let sector = sector_on(disk, number);
        if is_behind_gate && begins_record(&sector) {
            return Held::Records;
        }
        is_behind_gate = is_open_gate(&sector);
    }
    Held::Bytes
}

/// Returns a sector of a disk; zeros if it is not there.
fn sector_on(disk: &mut FileDisk, number: u32) -> Sector
    ensures looks { OnlyLooks (disk_of_file disk.old) (disk_of_file disk.new) }
{
    let mut sector = [0; SECTOR_BYTES];
    let _read = disk.read(number, &mut sector);
    sector
}

/// Whether a sector has all the bytes of an open gate, as a log writes it.
fn is_open_gate(sector: &Sector) -> bool {
    let mut gate = [0; SECTOR_BYTES];
    gate[0] = 1;
    *sector == gate
}

/// Whether a sector may be the first one of a record: it has one of the five kinds, and a length of at
/// most 2^24 bytes.
fn begins_record(sector: &Sector) -> bool {
    (1..=5).contains(&sector[0]) && sector[1] <= 1
}

/// Refuses a disk that has records after a closed gate, before anything is written.
///
/// A power cut while `new` writes may leave any bytes in the sectors of the header and of the first
/// gate, which may then look as if there were a record. But it leaves zeros in all sectors after
/// them, and no record has only zeros: its first byte there is its kind.
fn refuse_records(disk: &mut FileDisk) -> Result<(), Fault>
    ensures kept { OnOk result (IsShut disk.old.reads → IsZeroFrom 3 disk.old.reads) }
    ensures looks { OnlyLooks (disk_of_file disk.old) (disk_of_file disk.new) }
{
    match has_records(disk) {
        Ok(false) => Ok(()),
        Ok(true) => refuse_data(disk),
        Err(fault) => Err(Fault::Log(LogFault::Disk(fault))),
    }
}

/// Refuses a disk that has other bytes than zeros after the gate of the first record.
fn refuse_data(disk: &mut FileDisk) -> Result<(), Fault>
    ensures zeros { OnOk result (IsZeroFrom 3 disk.old.reads) }
    ensures looks { OnlyLooks (disk_of_file disk.old) (disk_of_file disk.new) }
{
    for number in 3..disk.sectors() {
        match is_zero_at(disk, number) {
            Ok(true) => {}
            Ok(false) => return Err(Fault::Shut),
            Err(fault) => return Err(Fault::Log(LogFault::Disk(fault))),
        }
    }
    Ok(())
}

/// Whether a sector has only zeros.
pub(crate) fn is_zero_at(disk: &mut FileDisk, number: u32) -> Result<bool, DiskFault>
    ensures is { IfOk result (λ is. is ≡ true →
        slice_index_or disk.old.reads number [] ≡ zero_sector) }
    ensures looks { OnlyLooks (disk_of_file disk.old) (disk_of_file disk.new) }
{
    let mut sector = [1; SECTOR_BYTES];
    disk.read(number, &mut sector)?;
    Ok(sector == [0; SECTOR_BYTES])
}

/// Opens the gate of the header of a disk again, and writes what the disk then represents. The origin
/// of a segment is believed; a line says so.
pub fn reopen_on<M, R, P, O>(
    rt: &R,
    args: DiskArgs<'_>,
    said: &SystemErrors,
    progress: &mut P,
    out: &mut O,
) -> Result<(), Fault>
where
    M: Described,
    R: Files<File = File> + Clock + AllocGlobal,
    P: Progress,
    O: Write,
    ensures ok { OnOk result
        (Prints (IsReopenedText M.meaning M.says) (O.contents out.old) (O.contents out.new)) }
    ensures err { OnErr result ((out.new ≡ out.old)
        ⊎ Begins (IsReopenedText M.meaning M.says) (O.contents out.old) (O.contents out.new)) }
{
    let (model, end): (M, u64) = read_model_file(rt, args.model)?;
    let mut disk = open_old(rt, args, said)?;
    let begins = Beginning::behind_gate(rt.alloc(), &model, &mut disk);
    let time = begins.believed();
    let on = Continued::new(&model, begins.origin.as_ref());
    let mut watch = Verifying { progress };
    let seen = reopen(rt.alloc(), &on, &mut disk, end, &mut watch)?;
    watch.progress.clear();
    write_reopened(seen, time, out)
}

/// Writes what a reopened disk represents, and the line on its origin; and flushes the writer.
fn write_reopened<O: Write>(seen: Verified, time: Option<u64>, out: &mut O) -> Result<(), Fault>
    ensures written { Writes (O.contents out.old) (O.contents out.new) result
        (reopened_text seen ++ believed_line time) }
    ensures fault { IsOkUnless result Output }
{
    flushed(write_opened(seen, time, out), out)
}

/// Writes what a reopened disk represents, and the line on its origin.
fn write_opened<O: Write>(seen: Verified, time: Option<u64>, out: &mut O) -> IoResult<()>
    ensures { Writes (O.contents out.old) (O.contents out.new) result
        (reopened_text seen ++ believed_line time) }
{
    write_seen(seen, out)?;
    write_believed_line(time, out)
}

/// Writes the time and the number of events of a reopened disk.
fn write_seen<O: Write>(seen: Verified, out: &mut O) -> IoResult<()>
    ensures { Writes (O.contents out.old) (O.contents out.new) result (reopened_text seen) }
{
    write_number("reopened: committed ", seen.time, out)?;
    write_number(" events ", seen.events, out)?;
    write_text("\n", out)
}

/// Opens the disk of a run, unless its file is not there or is blank. The number of sectors in `new`
/// is then that of the blank disk, if that has more, or the blank disk gets as many.
pub fn disk_with_log<R>(
    rt: &R,
    on: DiskArgs<'_>,
    new: &mut NewFile,
    said: &SystemErrors,
) -> Result<Option<FileDisk>, Fault>
where
    R: Files<File = File> + Clock + AllocGlobal,
{
    fill_empty(rt, on.disk, new.sectors);
    if !fs::exists(rt, on.disk).unwrap_or(true) {
        return Ok(None);
    }
    let mut disk = open_old(rt, on, said)?;
    if is_used(rt.alloc(), &mut disk, new, said)? {
        Ok(Some(disk))
    } else {
        Ok(None)
    }
}

/// Whether the disk of a run has a log or anything else; it is then only read. Otherwise the number
/// of sectors in `new` becomes that of the disk, if that has more, or the disk gets as many.
fn is_used(
    alloc: Global,
    disk: &mut FileDisk,
    new: &mut NewFile,
    said: &SystemErrors,
) -> Result<bool, Fault>
    ensures used { IfOk result (λ used. used ≡ true →
        OnlyLooks (disk_of_file disk.old) (disk_of_file disk.new)) }
    ensures unused { IfOk result (λ used. used ≡ false → IsUnused disk.old.reads) }
    ensures unused_err { OnErr result (IsUnused disk.old.reads) }
{
    if !is_blank(disk) {
        return Ok(true);
    }
    let sectors = disk.sectors();
    if new.sectors <= sectors {
        new.sectors = sectors;
        return Ok(false);
    }
    match disk.grow(alloc, new.sectors, new.sectors) {
        Ok(()) => Ok(false),
        Err(fault) => {
            said.note(disk.last_error());
            Err(Fault::Grow(fault))
        }
    }
}

/// Whether a disk has neither a log nor anything else: the gate of its header, that of the first
/// record and all sectors after it have only zeros.
pub fn is_blank(disk: &mut FileDisk) -> bool
    ensures blank { result ≡ true → IsUnused disk.old.reads }
    ensures looks { OnlyLooks (disk_of_file disk.old) (disk_of_file disk.new) }
{
    if !is_zero(disk, 0) || !is_zero(disk, 2) {
        return false;
    }
    refuse_data(disk).is_ok()
}

/// Whether a sector is there and has only zeros.
fn is_zero(disk: &mut FileDisk, number: u32) -> bool
    ensures is { result ≡ true → slice_index_or disk.old.reads number [] ≡ zero_sector }
    ensures looks { OnlyLooks (disk_of_file disk.old) (disk_of_file disk.new) }
{
    match is_zero_at(disk, number) {
        Ok(is) => is,
        Err(_) => false,
    }
}

/// Makes the disk of the model of a file longer. If it has the number of sectors already, `progress`
/// sees that nothing has changed.
pub fn grow_on<M, R, P, O>(
    rt: &R,
    args: GrowArgs<'_>,
    said: &SystemErrors,
    progress: &mut P,
    out: &mut O,
) -> Result<(), Fault>
where
    M: Described,
    R: Files<File = File> + Clock + AllocGlobal,
    P: Progress,
    O: Write,
    ensures ok { OnOk result
        (Prints (IsGrown args.entry.sectors) (O.contents out.old) (O.contents out.new)) }
    ensures err { OnErr result ((out.new ≡ out.old)
        ⊎ Begins (IsGrown args.entry.sectors) (O.contents out.old) (O.contents out.new)) }
{
    let GrowArgs { on, sectors } = args;
    let (model, _end): (M, u64) = read_model_file(rt, on.model)?;
    let most = most_sectors(on.large);
    let disk = open_old(rt, on, said)?;
    let BegunDisk { disk, origin, .. } = BegunDisk::of(rt.alloc(), &model, disk);
    let model = Continued::new(&model, origin.as_ref());
    let Returned { disk, outcome } = grow(rt.alloc(), &model, disk, sectors, most);
    match outcome {
        Ok(Grown { before, .. }) => {
            if before == sectors {
                say_unchanged(rt.alloc(), sectors, on.large, progress);
            }
            write_grown(before, sectors, out)
        }
        Err(fault) => {
            said.note(disk.last_error());
            Err(Fault::from(fault))
        }
    }
}

/// Says that a disk has the number of sectors that is asked for, and how it may get more.
fn say_unchanged<P: Progress>(alloc: Global, sectors: u32, large: bool, progress: &mut P) {
    let more = if sectors == MOST_SECTORS && !large {
        ": with --large it may have up to 16777216"
    } else {
        ""
    };
    if let Ok(line) = format!(in alloc; "the disk has {sectors} sectors already{more}") {
        progress.goes_on(line.as_str());
    }
}

/// Writes the former and the present number of sectors of a disk, and flushes the writer.
fn write_grown<O: Write>(before: u32, sectors: u32, out: &mut O) -> Result<(), Fault>
    ensures written { Writes (O.contents out.old) (O.contents out.new) result
        (grown_text before sectors) }
    ensures fault { IsOkUnless result Output }
{
    flushed(write_growth(before, sectors, out), out)
}

/// Writes the former and the present number of sectors of a disk.
fn write_growth<O: Write>(before: u32, sectors: u32, out: &mut O) -> IoResult<()>
    ensures { Writes (O.contents out.old) (O.contents out.new) result (grown_text before sectors) }
{
    write_number("grown ", u64::from(before), out)?;
    write_number(" to ", u64::from(sectors), out)?;
    write_text(" sectors\n", out)
}
