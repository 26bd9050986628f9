// Disks over real files: which files are disks, what they keep, and how they grow.
use crate::shared::{
    NO_SECTOR, are_filled, fill, has, is_refused, is_seen, make_file, on_file, open_to_read,
    opened, removed, store,
};
use disk::{
    DiskFault, FileDisk, FileError, FileFault, GrowingDisk, GrowthFault, MOST_SECTORS,
    MOST_SECTORS_OF_LARGE, Room, SectorDisk,
};
use std::os::unix::fs::MetadataExt;
use std::path::PathBuf;
use std::test::Fail;
use std::{fs, io};

/// Stores some sectors of a new disk. Returns whether the new disk was blank and has no sector 300.
fn fill_new(rt: &HostRuntime, path: &PathBuf) -> Result<bool, Fail> {
    let mut disk = opened(rt, path, Some(300))?;
    let was_blank = are_filled(&mut disk, &[(0, 0), (299, 0)])?;
    store(&mut disk, &[(0, 1), (1, 2), (2, 3), (150, 4), (299, 5)])?;
    Ok(was_blank && disk.write(300, &[1; 512]) == NO_SECTOR)
}

const KEPT: [(u32, u8); 7] = [(0, 1), (1, 2), (2, 3), (3, 0), (150, 4), (298, 0), (299, 5)];

fn is_kept(rt: &HostRuntime, path: &PathBuf) -> Result<bool, Fail> {
    Ok(
        is_refused(rt, path, None)?
            && fill_new(rt, path)?
            && is_refused(rt, path, Some(299))?
            && has(rt, path, None, 300, &KEPT)?
            && has(rt, path, Some(300), 300, &KEPT)?,
    )
}

#[test]
fn a_file_keeps_synced_sectors(rt: HostRuntime) -> Result<(), Fail> {
    assert!(rt; on_file(&rt, "kept", is_kept)?);
    Ok(())
}

/// Opens a disk of this many sectors, whose file gets its whole room on the device.
fn reserved(rt: &HostRuntime, path: &PathBuf, sectors: u32) -> Result<FileDisk, FileError> {
    FileDisk::open_with(
        rt,
        rt.alloc(),
        path.as_str(),
        Some(sectors),
        MOST_SECTORS,
        Room::Reserved,
    )
}

/// Whether such a disk is blank, and its file has room for all its sectors, of 512 bytes.
fn has_room(rt: &HostRuntime, path: &PathBuf, sectors: u32) -> Result<bool, Fail> {
    let mut disk = reserved(rt, path, sectors)?;
    let blocks = fs::metadata(rt, path.as_path())?.blocks();
    let ends = [(0, 0), (sectors.saturating_sub(1), 0)];
    Ok(blocks >= u64::from(sectors) && are_filled(&mut disk, &ends)?)
}

/// Whether a new file gets its room, and one of zeros that has none yet.
fn gets_room(rt: &HostRuntime, path: &PathBuf, sectors: u32) -> Result<bool, Fail> {
    removed(rt, path)?;
    let is_new = has_room(rt, path, sectors)?;
    make_file(rt, path, u64::from(sectors) * 512)?;
    Ok(is_new && has_room(rt, path, sectors)?)
}

fn get_room(rt: &HostRuntime, path: &PathBuf) -> Result<bool, Fail> {
    Ok(gets_room(rt, path, 8)? && gets_room(rt, path, 300)?)
}

#[test]
fn a_disk_gets_its_whole_room(rt: HostRuntime) -> Result<(), Fail> {
    assert!(rt; on_file(&rt, "room", get_room)?);
    Ok(())
}

/// Whether a disk that is opened with its whole room has what was written.
fn keeps_written(rt: &HostRuntime, path: &PathBuf) -> Result<bool, Fail> {
    store(&mut opened(rt, path, Some(300))?, &[(200, 1)])?;
    Ok(are_filled(
        &mut reserved(rt, path, 300)?,
        &[(199, 0), (200, 1), (201, 0)],
    )?)
}

#[test]
fn a_disk_that_is_written_keeps_its_sectors(rt: HostRuntime) -> Result<(), Fail> {
    assert!(rt; on_file(&rt, "written", keeps_written)?);
    Ok(())
}

/// Sizes of files in bytes, whether such a file is refused as a disk, a number of sectors, and
/// whether it is refused as a disk of that number.
const SIZES: [(u64, bool, u32, bool); 5] = [
    (8 * 512, false, 8, false),
    (7 * 512, true, 8, true),
    (8 * 512 + 1, true, 8, true),
    (131_073 * 512, true, 131_072, true),
    (7 * 512, true, 7, false),
];

fn are_sized(rt: &HostRuntime, path: &PathBuf) -> Result<bool, Fail> {
    for (bytes, any, sectors, exact) in SIZES {
        make_file(rt, path, bytes)?;
        if is_refused(rt, path, None)? != any || is_refused(rt, path, Some(sectors))? != exact {
            return Ok(false);
        }
    }
    Ok(true)
}

#[test]
fn a_file_of_the_wrong_size_is_refused(rt: HostRuntime) -> Result<(), Fail> {
    assert!(rt; on_file(&rt, "size", are_sized)?);
    Ok(())
}

/// Opens a disk of at most this many sectors.
fn opened_up_to(rt: &HostRuntime, path: &PathBuf, most: u32) -> Result<FileDisk, FileFault> {
    FileDisk::open_up_to(rt, rt.alloc(), path.as_str(), None, most)
}

/// Stores the last sector of a disk. Returns whether it is the last one.
fn store_last(mut disk: FileDisk, last: u32) -> Result<bool, DiskFault> {
    store(&mut disk, &[(last, 1)])?;
    let end = last.saturating_add(1);
    Ok(disk.sectors() == end && disk.write(end, &[1; 512]) == NO_SECTOR)
}

fn keeps_most(rt: &HostRuntime, path: &PathBuf) -> Result<bool, Fail> {
    make_file(rt, path, 131_072 * 512)?;
    Ok(
        store_last(opened(rt, path, None)?, 131_071)?
            && has(rt, path, None, 131_072, &[(131_070, 0), (131_071, 1)])?,
    )
}

#[test]
fn a_file_of_the_largest_size_is_a_disk(rt: HostRuntime) -> Result<(), Fail> {
    assert!(rt; on_file(&rt, "most", keeps_most)?);
    Ok(())
}

/// What other programs get while one has the disk: whether writers are refused, a reader sees
/// none of the dirty sectors, and it sees all synced ones.
fn is_alone(rt: &HostRuntime, path: &PathBuf) -> Result<bool, Fail> {
    let mut disk = opened(rt, path, Some(8))?;
    let refused = is_refused(rt, path, None)? && is_refused(rt, path, Some(8))?;
    fill(&mut disk, &[(3, 3)])?;
    let before = is_seen(rt, path, &[(3, 0)])?;
    disk.sync()?;
    Ok(refused && before && is_seen(rt, path, &[(3, 3)])?)
}

/// Whether a reader's sync fails only after a write of its own, while a writer has the disk.
fn is_only_seen(rt: &HostRuntime, path: &PathBuf) -> Result<bool, Fail> {
    let _writer = opened(rt, path, Some(8))?;
    let mut seen = open_to_read(rt, path)?;
    let before = seen.sync();
    seen.write(3, &[4; 512])?;
    Ok(before.is_ok() && seen.sync() == Err(DiskFault::Device))
}

fn has_one_writer(rt: &HostRuntime, path: &PathBuf) -> Result<bool, Fail> {
    Ok(is_alone(rt, path)? && is_only_seen(rt, path)? && has(rt, path, None, 8, &[(3, 3)])?)
}

#[test]
fn a_disk_has_one_writer(rt: HostRuntime) -> Result<(), Fail> {
    assert!(rt; on_file(&rt, "writers", has_one_writer)?);
    Ok(())
}

/// Whether a file that is too large is refused as a disk to write and as one to read.
fn is_too_large(rt: &HostRuntime, path: &PathBuf) -> Result<bool, Fail> {
    make_file(rt, path, 131_073 * 512)?;
    Ok(is_refused(rt, path, None)? && open_to_read(rt, path).err() == Some(FileFault::File))
}

/// Whether a file of 131,073 sectors opens for reading with the largest limit, and for writing not
/// with a limit of one less, but with a limit of exactly its size.
fn opens_large(rt: &HostRuntime, path: &PathBuf) -> Result<bool, Fail> {
    let most = MOST_SECTORS_OF_LARGE;
    let seen = FileDisk::open_to_read_up_to(rt, rt.alloc(), path.as_str(), most)?.sectors();
    let few = opened_up_to(rt, path, 131_072).err();
    let is_kept = are_filled(
        &mut opened_up_to(rt, path, 131_073)?,
        &[(131_071, 0), (131_072, 1)],
    )?;
    Ok(seen == 131_073 && few == Some(FileFault::File) && is_kept)
}

fn is_large(rt: &HostRuntime, path: &PathBuf) -> Result<bool, Fail> {
    Ok(
        is_too_large(rt, path)?
            && store_last(opened_up_to(rt, path, MOST_SECTORS_OF_LARGE)?, 131_072)?
            && opens_large(rt, path)?,
    )
}

#[test]
fn a_large_file_is_a_disk_only_if_allowed(rt: HostRuntime) -> Result<(), Fail> {
    assert!(rt; on_file(&rt, "large", is_large)?);
    Ok(())
}

/// Whether a file of a million sectors keeps its last sector, and has zeros before it.
fn keeps_last(rt: &HostRuntime, path: &PathBuf) -> Result<bool, Fail> {
    make_file(rt, path, 1_000_000 * 512)?;
    let is_last = store_last(opened_up_to(rt, path, MOST_SECTORS_OF_LARGE)?, 999_999)?;
    let mut disk = opened_up_to(rt, path, MOST_SECTORS_OF_LARGE)?;
    Ok(is_last && are_filled(&mut disk, &[(0, 0), (999_998, 0), (999_999, 1)])?)
}

#[test]
fn a_sparse_file_keeps_its_last_sector(rt: HostRuntime) -> Result<(), Fail> {
    assert!(rt; on_file(&rt, "sparse", keeps_last)?);
    Ok(())
}

/// Writes two sectors without a sync after them.
fn write_and_end(rt: &HostRuntime, path: &PathBuf) -> Result<(), Fail> {
    let mut disk = opened(rt, path, Some(8))?;
    store(&mut disk, &[(1, 1)])?;
    fill(&mut disk, &[(1, 9), (2, 9)])?;
    Ok(())
}

fn is_unchanged(rt: &HostRuntime, path: &PathBuf) -> Result<bool, Fail> {
    write_and_end(rt, path)?;
    has(rt, path, None, 8, &[(0, 0), (1, 1), (2, 0), (3, 0)])
}

#[test]
fn a_program_that_ends_before_a_sync_does_not_change_the_file(rt: HostRuntime) -> Result<(), Fail> {
    assert!(rt; on_file(&rt, "unsynced", is_unchanged)?);
    Ok(())
}

// With enough memory each first call succeeds. `rt try --test --fail-alloc 1..` refuses each
// allocation in turn: the call that meets it changes nothing, and a second call succeeds.
fn opened_too(
    rt: &HostRuntime,
    path: &PathBuf,
    sectors: Option<u32>,
) -> Result<FileDisk, FileFault> {
    match opened(rt, path, sectors) {
        Err(FileFault::NoMemory) => opened(rt, path, sectors),
        other => other,
    }
}

/// Makes a disk and stores one sector. Returns whether it then has eight sectors, of which only
/// that one is filled.
fn is_made(rt: &HostRuntime, path: &PathBuf) -> Result<bool, Fail> {
    store(&mut opened_too(rt, path, Some(8))?, &[(6, 6)])?;
    let mut disk = opened_too(rt, path, None)?;
    Ok(disk.sectors() == 8 && are_filled(&mut disk, &[(0, 0), (5, 0), (6, 6), (7, 0)])?)
}

#[test]
fn a_file_opens_after_an_allocation_failure(rt: HostRuntime) -> Result<(), Fail> {
    assert!(rt; on_file(&rt, "memory", is_made)?);
    Ok(())
}

/// A number of sectors to grow to, the limit, the fault, and the number of sectors after it.
type Growth = (u32, u32, Option<GrowthFault>, u32);

/// Whether each of these calls has this fault, and leaves this number of sectors in the disk and its file.
fn grow_so(
    rt: &HostRuntime,
    path: &PathBuf,
    disk: &mut FileDisk,
    rows: &[Growth],
) -> io::Result<bool> {
    for (sectors, most, fault, after) in rows {
        let is_so = disk.grow(rt.alloc(), *sectors, *most).err() == *fault;
        let bytes = fs::metadata(rt, path.as_path())?.len();
        if !is_so || disk.sectors() != *after || bytes != u64::from(*after) * 512 {
            return Ok(false);
        }
    }
    Ok(true)
}

const GROWTHS: [Growth; 4] = [
    (7, MOST_SECTORS, Some(GrowthFault::Fewer), 8),
    (
        MOST_SECTORS + 1,
        MOST_SECTORS,
        Some(GrowthFault::TooMany),
        8,
    ),
    (8, MOST_SECTORS, None, 8),
    (20, MOST_SECTORS, None, 20),
];

const GROWN: [(u32, u8); 5] = [(0, 0), (6, 0), (7, 7), (8, 0), (19, 0)];

/// Grows a disk with a dirty sector. Returns whether the calls have the expected results, the
/// sectors are as expected, and the dirty one reached the file.
fn grow_new(rt: &HostRuntime, path: &PathBuf) -> Result<bool, Fail> {
    let mut disk = opened(rt, path, Some(8))?;
    fill(&mut disk, &[(7, 7)])?;
    let is_grown = grow_so(rt, path, &mut disk, &GROWTHS)?
        && are_filled(&mut disk, &GROWN)?
        && is_seen(rt, path, &GROWN)?;
    store(&mut disk, &[(19, 9)])?;
    Ok(is_grown && disk.write(20, &[9; 512]) == NO_SECTOR)
}

fn stays_grown(rt: &HostRuntime, path: &PathBuf) -> Result<bool, Fail> {
    Ok(grow_new(rt, path)? && has(rt, path, None, 20, &[(7, 7), (18, 0), (19, 9)])?)
}

#[test]
fn a_disk_over_a_file_grows(rt: HostRuntime) -> Result<(), Fail> {
    assert!(rt; on_file(&rt, "growing", stays_grown)?);
    Ok(())
}

const FAILING: [Growth; 1] = [(20, MOST_SECTORS, Some(GrowthFault::Device), 8)];

/// Whether the growth of a read-only disk fails, the disk is unchanged, and its sync fails, which
/// can't restore the size of the file.
fn grow_seen(rt: &HostRuntime, path: &PathBuf) -> Result<bool, Fail> {
    drop(opened(rt, path, Some(8))?);
    let mut seen = open_to_read(rt, path)?;
    Ok(
        grow_so(rt, path, &mut seen, &FAILING)?
            && are_filled(&mut seen, &[(0, 0), (7, 0)])?
            && seen.sync() == Err(DiskFault::Device),
    )
}

#[test]
fn a_read_only_disk_does_not_grow(rt: HostRuntime) -> Result<(), Fail> {
    assert!(rt; on_file(&rt, "growing-read", grow_seen)?);
    Ok(())
}

const FAR: [Growth; 4] = [
    (20, 19, Some(GrowthFault::TooMany), 8),
    (7, 6, Some(GrowthFault::Fewer), 8),
    (131_073, MOST_SECTORS, Some(GrowthFault::TooMany), 8),
    (131_073, 131_073, None, 131_073),
];

/// Grows a disk up to its limit. Returns whether the calls have the expected results, and the
/// sectors are as expected.
fn grow_far(rt: &HostRuntime, path: &PathBuf) -> Result<bool, Fail> {
    let mut disk = opened(rt, path, Some(8))?;
    let is_grown = grow_so(rt, path, &mut disk, &FAR)?;
    store(&mut disk, &[(131_072, 3)])?;
    Ok(is_grown && are_filled(&mut disk, &[(7, 0), (131_071, 0), (131_072, 3)])?)
}

#[test]
fn a_disk_grows_up_to_its_limit(rt: HostRuntime) -> Result<(), Fail> {
    assert!(rt; on_file(&rt, "growing-large", grow_far)?);
    Ok(())
}
