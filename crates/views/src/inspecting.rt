// The inspection of a disk, which reads only a part of a large one.

ghost use Rattle.std.specs.Prelude.{◌≡◌, length, IfOk, IfSome, None, Some};
ghost use Rattle.model.specs.Meaning.{CanBegin};
ghost use Rattle.segments.specs.Archiving.{events_before, IsBegunAt};
ghost use Rattle.views.specs.Reading.{BeginsWith, IsFoundOn};

use crate::beginnings::{BegunDisk, events_before_origin};
use crate::fault::ViewFault;
use crate::files::open_disk;
use disk::{DiskFault, LEAST_SECTORS, SECTOR_BYTES, SectorDisk};
use model::{Continued, Model as Modelled};
use segments::archiving::may_have_origin;
use std::alloc::Global;
use std::fs::{self, File};
use std::os::unix::fs::FileExt;
use std::rt::Files;
use upkeep::inspection::{Inspection, InspectionFault, PartDisk, SectorSource, inspect};

/// The file of a disk, of which some sectors are read.
#[derive(Drop)]
struct SectorFile {
    file: File,
}

impl SectorSource for SectorFile {
    fn read_at(&mut self, first: u32, bytes: &mut [u8]) -> Result<(), DiskFault> {
        match self
            .file
            .read_exact_at(bytes, u64::from(first) * SECTOR_BYTES as u64)
        {
            Ok(()) => Ok(()),
            Err(_) => Err(DiskFault::Device),
        }
    }
}

/// Inspects a disk of at most `most` sectors, which may be a segment. Returns with it, of a segment,
/// the time from which it goes on and the number of events before it.
///
/// It first reads only the sectors that an inspection reads ([`PartDisk::of`]): of the records
/// before the last checkpoint about three sectors each. If anything is refused over them, it reads
/// the whole file, and the answer is the one over that: so it is of a disk without a checkpoint, and
/// of one with a seal.
pub(crate) fn inspect_on<M, R>(
    rt: &R,
    model: &M,
    end: u64,
    path: &str,
    most: u32,
) -> Result<(Inspection, Option<(u64, u64)>), ViewFault>
where
    M: Modelled,
    R: Files<File = File> + AllocGlobal,
    ensures { IfOk result (λ found. IsFoundOn (M.meaning model.now) end found.0 found.1) }
{
    if let Some(found) = inspect_part(rt, model, end, path, most) {
        return Ok(found);
    }
    let disk = open_disk(rt, path, most)?;
    let begun = BegunDisk::of(rt.alloc(), model, disk);
    Ok(inspect_begun(rt.alloc(), model, end, begun)?)
}

/// Inspects a disk of which only a part is read, as [`inspect_on`] does. Returns `None` if anything is
/// refused.
fn inspect_part<M, R>(
    rt: &R,
    model: &M,
    end: u64,
    path: &str,
    most: u32,
) -> Option<(Inspection, Option<(u64, u64)>)>
where
    M: Modelled,
    R: Files<File = File> + AllocGlobal,
    ensures { IfSome result (λ found. IsFoundOn (M.meaning model.now) end found.0 found.1) }
{
    let mut disk = part_of(rt, path, most)?;
    let is_segment = may_have_origin(&mut disk);
    let begun = BegunDisk::of(rt.alloc(), model, disk);
    // without its origin a segment would be taken for another disk
    if is_segment && begun.origin.is_none() {
        return None;
    }
    match inspect_begun(rt.alloc(), model, end, begun) {
        Ok(found) => Some(found),
        Err(_) => None,
    }
}

/// Reads the part of a disk that an inspection reads. It syncs the file first, so that what another
/// program wrote without a sync reaches the device.
fn part_of<R>(rt: &R, path: &str, most: u32) -> Option<PartDisk>
where
    R: Files<File = File> + AllocGlobal,
{
    // a pipe might never open
    if !fs::metadata(rt, path).ok()?.is_file() {
        return None;
    }
    let file = File::open(rt, path).ok()?;
    file.sync_all().ok()?;
    let sectors = sectors_in(file.metadata().ok()?.len(), most)?;
    PartDisk::of(rt.alloc(), &mut SectorFile { file }, sectors)
}

/// Returns the number of sectors of a disk of this many bytes: 8 to `most` whole ones.
fn sectors_in(bytes: u64, most: u32) -> Option<u32> {
    let sectors = u32::try_from(bytes / SECTOR_BYTES as u64).ok()?;
    if bytes % SECTOR_BYTES as u64 != 0 || sectors < LEAST_SECTORS || most < sectors {
        return None;
    }
    Some(sectors)
}

/// Inspects a disk by where its simulation begins.
fn inspect_begun<M: Modelled, D: SectorDisk + Drop>(
    alloc: Global,
    model: &M,
    end: u64,
    begun: BegunDisk<D>,
) -> Result<(Inspection, Option<(u64, u64)>), InspectionFault>
    requires sound { CanBegin (M.meaning model.now).lps begun.origin }
    requires begins { BeginsWith (M.meaning model.now).lps (D.state begun.disk).reads begun.origin }
    requires at { IfSome begun.origin (λ o. IsBegunAt (D.state begun.disk).reads begun.time) }
    ensures { IfOk result (λ found. IsFoundOn (M.meaning model.now) end found.0 found.1) }
{
    let lines = lines_of(&begun);
    let BegunDisk { disk, origin, .. } = begun;
    let on = Continued::new(model, origin.as_ref());
    let found = inspect(alloc, &on, disk, end)?;
    Ok((found, lines))
}

/// Returns the time from which a segment goes on, and the number of events before it.
fn lines_of<D>(begun: &BegunDisk<D>) -> Option<(u64, u64)>
    ensures none { begun.now.origin ≡ None → result ≡ None }
    ensures some { IfSome begun.now.origin (λ o. result ≡ Some (
      begun.now.time,
      events_before o.numbers (length o.pending),
    )) }
{
    match &begun.origin {
        Some(origin) => Some((begun.time, events_before_origin(origin))),
        None => None,
    }
}
