// Disks in memory: reads, what a crash leaves, and growth.

ghost use Rattle.std.specs.Prelude.{◌≡◌, length, IfOk};

use crate::shared::{NO_SECTOR, are_filled, byte_of, fill, store};
use disk::{
    DiskFault, DiskPlan, GrowingDisk, GrowthFault, MOST_SECTORS, MemDisk, SectorDisk, Torn,
    write_through,
};
use std::alloc::{AllocError, Global};
use std::test::Fail;

/// Whether reads return what was written, before a sync and after it.
fn is_read(alloc: Global) -> Result<bool, Fail> {
    let mut disk = MemDisk::blank(alloc, 8)?;
    fill(&mut disk, &[(3, 1), (7, 2)])?;
    let before = are_filled(&mut disk, &[(2, 0), (3, 1), (4, 0), (7, 2)])?;
    disk.sync()?;
    Ok(before && disk.sectors() == 8 && are_filled(&mut disk, &[(3, 1)])?)
}

#[test]
fn a_read_returns_what_was_written(rt: HostRuntime) -> Result<(), Fail> {
    assert!(rt; is_read(rt.alloc())?);
    Ok(())
}

fn survives(alloc: Global) -> Result<bool, AllocError> {
    let mut disk = MemDisk::blank(alloc, 8)?;
    let is_written = write_through(&mut disk, 3, &[7; 512]) == Ok(());
    let is_refused = write_through(&mut disk, 8, &[7; 512]) == NO_SECTOR;
    let image = disk.crash(alloc, Torn::Old)?;
    let is_left = byte_of(&image, 3) == Some(7) && byte_of(&image, 2) == Some(0);
    Ok(is_written && is_refused && is_left)
}

#[test]
fn a_sector_that_is_written_through_survives_a_crash(rt: HostRuntime) -> Result<(), Fail> {
    assert!(rt; survives(rt.alloc())?);
    Ok(())
}

/// Whether the image has this number of sectors, and its first ones are filled so.
fn is_image(image: &[u8], sectors: u8, filled: &[u8]) -> bool {
    for (n, byte) in filled.iter().enumerate() {
        if byte_of(image, n) != Some(*byte) {
            return false;
        }
    }
    image.len() == usize::from(sectors) * 512
}

/// Whether a crash leaves such an image.
fn leaves(
    alloc: Global,
    disk: &MemDisk,
    torn: Torn,
    sectors: u8,
    filled: &[u8],
) -> Result<bool, AllocError> {
    Ok(is_image(&crashed(alloc, disk, torn)?, sectors, filled))
}

/// A disk of eight sectors: two are synced, and then two are dirty.
fn dirty_disk(alloc: Global) -> Result<MemDisk, Fail> {
    let mut disk = MemDisk::blank(alloc, 8)?;
    store(&mut disk, &[(1, 1), (2, 2)])?;
    fill(&mut disk, &[(2, 3), (5, 5)])?;
    Ok(disk)
}

const CRASHES: [(Torn, [u8; 6]); 6] = [
    (Torn::Old, [0, 1, 2, 0, 0, 0]),
    (Torn::New, [0, 1, 3, 0, 0, 5]),
    (Torn::Fill(7), [0, 1, 7, 0, 0, 7]),
    (Torn::Cut(0), [0, 1, 2, 0, 0, 0]),
    (Torn::Cut(512), [0, 1, 3, 0, 0, 5]),
    (Torn::Cut(u16::MAX), [0, 1, 3, 0, 0, 5]),
];

fn are_torn(alloc: Global, disk: &MemDisk) -> Result<bool, AllocError> {
    for (torn, filled) in CRASHES {
        if !leaves(alloc, disk, torn, 8, &filled)? {
            return Ok(false);
        }
    }
    Ok(true)
}

#[test]
fn a_crash_tears_dirty_sectors(rt: HostRuntime) -> Result<(), Fail> {
    assert!(rt; are_torn(rt.alloc(), &dirty_disk(rt.alloc())?)?);
    Ok(())
}

/// Fills two sectors; the second write fails. Returns whether it does.
fn fill_both(disk: &mut MemDisk) -> Result<bool, DiskFault> {
    disk.write(1, &[1; 512])?;
    Ok(disk.write(0, &[2; 512]) == Err(DiskFault::Device))
}

const CUTS: [(usize, u8); 8] = [
    (0, 2),
    (99, 2),
    (100, 4),
    (511, 4),
    (512, 1),
    (611, 1),
    (612, 4),
    (1023, 4),
];

fn has_cuts(image: &[u8]) -> bool {
    for (place, byte) in CUTS {
        if image.get(place) != Some(&byte) {
            return false;
        }
    }
    true
}

/// Whether a crash leaves two dirty sectors each cut after 100 bytes.
fn are_cut(alloc: Global) -> Result<bool, Fail> {
    let plan = DiskPlan {
        fail: None,
        stop: Some(1),
    };
    let mut disk = MemDisk::of(alloc, vec![in alloc; 4; 1024]?, plan)?;
    Ok(fill_both(&mut disk)? && has_cuts(&disk.crash(alloc, Torn::Cut(100))?))
}

#[test]
fn a_crash_cuts_dirty_sectors(rt: HostRuntime) -> Result<(), Fail> {
    assert!(rt; are_cut(rt.alloc())?);
    Ok(())
}

// With enough memory each first call succeeds. `rt try --test --fail-alloc 1..` refuses each
// allocation in turn: the call that meets it changes nothing, and a second call succeeds.

fn blank(alloc: Global) -> Result<MemDisk, AllocError> {
    match MemDisk::blank(alloc, 8) {
        Ok(disk) => Ok(disk),
        Err(AllocError) => MemDisk::blank(alloc, 8),
    }
}

fn bytes(alloc: Global) -> Result<Vec<u8>, AllocError>
    ensures { IfOk result (λ bytes. length bytes.items ≡ 4096) }
{
    match vec![in alloc; 5; 8 * 512] {
        Ok(bytes) => Ok(bytes),
        Err(AllocError) => vec![in alloc; 5; 8 * 512],
    }
}

fn of_bytes(alloc: Global) -> Result<MemDisk, AllocError> {
    match MemDisk::of(alloc, bytes(alloc)?, DiskPlan::default()) {
        Ok(disk) => Ok(disk),
        Err(AllocError) => MemDisk::of(alloc, bytes(alloc)?, DiskPlan::default()),
    }
}

/// The image that a crash leaves; a second call if memory was refused.
fn crashed(alloc: Global, disk: &MemDisk, torn: Torn) -> Result<Vec<u8>, AllocError> {
    match disk.crash(alloc, torn) {
        Ok(image) => Ok(image),
        Err(AllocError) => disk.crash(alloc, torn),
    }
}

/// Whether the disk has this number of sectors, and these are filled so.
fn is_so(mut disk: MemDisk, sectors: u32, filled: &[(u32, u8)]) -> Result<bool, DiskFault> {
    Ok(disk.sectors() == sectors && are_filled(&mut disk, filled)?)
}

#[test]
fn a_memory_disk_is_made_after_an_allocation_failure(rt: HostRuntime) -> Result<(), Fail> {
    assert!(rt; is_so(blank(rt.alloc())?, 8, &[(0, 0), (7, 0)])?);
    assert!(rt; is_so(of_bytes(rt.alloc())?, 8, &[(0, 5), (7, 5)])?);
    Ok(())
}

/// A disk with a synced sector that is dirty again.
fn written_again(alloc: Global) -> Result<MemDisk, Fail> {
    let mut disk = blank(alloc)?;
    store(&mut disk, &[(1, 1)])?;
    fill(&mut disk, &[(1, 2)])?;
    Ok(disk)
}

/// Whether a crash leaves that sector filled so, and the disk itself is unchanged.
fn crashes_so(alloc: Global, disk: &mut MemDisk, torn: Torn, byte: u8) -> Result<bool, Fail> {
    let is_left = leaves(alloc, disk, torn, 8, &[0, byte])?;
    Ok(is_left && are_filled(disk, &[(0, 0), (1, 2)])?)
}

fn is_unchanged(alloc: Global) -> Result<bool, Fail> {
    let mut disk = written_again(alloc)?;
    Ok(
        crashes_so(alloc, &mut disk, Torn::Old, 1)?
            && crashes_so(alloc, &mut disk, Torn::New, 2)?
            && crashes_so(alloc, &mut disk, Torn::Fill(3), 3)?,
    )
}

#[test]
fn a_crash_with_an_allocation_failure_changes_nothing(rt: HostRuntime) -> Result<(), Fail> {
    assert!(rt; is_unchanged(rt.alloc())?);
    Ok(())
}

/// Grows a disk; a second call if memory was refused.
fn grow(alloc: Global, disk: &mut MemDisk, sectors: u32) -> Result<(), GrowthFault> {
    match disk.grow(alloc, sectors, MOST_SECTORS) {
        Err(GrowthFault::NoMemory) => disk.grow(alloc, sectors, MOST_SECTORS),
        done => done,
    }
}

#[test]
fn a_disk_grows_after_an_allocation_failure(rt: HostRuntime) -> Result<(), Fail> {
    let mut disk = of_bytes(rt.alloc())?;
    grow(rt.alloc(), &mut disk, 9)?;
    assert!(rt; is_so(disk, 9, &[(0, 5), (7, 5), (8, 0)])?);
    Ok(())
}

/// A disk of four sectors of fours, with one dirty sector; its next operation fails.
fn planned(alloc: Global) -> Result<MemDisk, Fail> {
    let plan = DiskPlan {
        fail: Some(1),
        stop: None,
    };
    let mut disk = MemDisk::of(alloc, vec![in alloc; 4; 2048]?, plan)?;
    disk.write(1, &[1; 512])?;
    Ok(disk)
}

/// Whether a growth gives this fault, and the disk then has this number of sectors.
fn grows(
    alloc: Global,
    disk: &mut MemDisk,
    sectors: u32,
    fault: Option<GrowthFault>,
    after: u32,
) -> bool {
    grow(alloc, disk, sectors).err() == fault && disk.sectors() == after
}

/// Whether the disk of four sectors refuses these growths.
fn refuses(alloc: Global, disk: &mut MemDisk) -> bool {
    grows(alloc, disk, 3, Some(GrowthFault::Fewer), 4)
        && grows(alloc, disk, u32::MAX, Some(GrowthFault::TooMany), 4)
        && grows(alloc, disk, 6, Some(GrowthFault::Device), 4)
}

/// Whether a crash leaves what the disk had before it grew to six sectors.
fn keeps_all(alloc: Global, disk: &MemDisk) -> Result<bool, AllocError> {
    for torn in [Torn::Old, Torn::New, Torn::Fill(9), Torn::Cut(100)] {
        if !leaves(alloc, disk, torn, 6, &[4, 1, 4, 4, 0, 0])? {
            return Ok(false);
        }
    }
    Ok(true)
}

/// Whether a crash tears the last of the six sectors once it is written.
fn tears_the_last(alloc: Global, disk: &mut MemDisk) -> Result<bool, Fail> {
    disk.write(5, &[5; 512])?;
    Ok(
        leaves(alloc, disk, Torn::Old, 6, &[4, 1, 4, 4, 0, 0])?
            && leaves(alloc, disk, Torn::New, 6, &[4, 1, 4, 4, 0, 5])?,
    )
}

#[test]
fn a_memory_disk_grows_according_to_its_plan(rt: HostRuntime) -> Result<(), Fail> {
    let mut disk = planned(rt.alloc())?;
    assert!(rt; refuses(rt.alloc(), &mut disk));
    assert!(rt; leaves(rt.alloc(), &disk, Torn::Fill(9), 4, &[4, 9, 4, 4])?);
    assert!(rt; grows(rt.alloc(), &mut disk, 6, None, 6) && keeps_all(rt.alloc(), &disk)?);
    assert!(rt; tears_the_last(rt.alloc(), &mut disk)?);
    Ok(())
}
