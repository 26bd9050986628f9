// Segments that are repaired: the origin is found without the log's gates or header, and each goes
// on to the world of the whole simulation.
use super::*;
use disk::{Returned, SectorDisk};
use segments::origin_in;
use upkeep::{Verified, VerifyWatch as Verifying, copy_opened, cut, first_in_row, reopen, salvage};

/// Follows nothing.
#[derive(Drop)]
struct Unwatched;

impl Verifying for Unwatched {}

/// How a segment is repaired, the sectors that damage has filled with a byte before, and what is
/// found in it. Sectors 3 and 5 hold its first two records, 7 and 9 a commit each, and 11 a
/// checkpoint. The ring has two events at each odd time, six of them before 7.
const REPAIRS: &str = "\
reopen 0-0 | committed 11 events 4
cut 9-0 | committed 9 events 2
salvage 0-0 1-0 2-0 | committed 11 events 4
salvage 1-255 4-0 | committed 11 events 4";

/// The image of a segment of two commits that goes on from a run of three commits.
fn segment_with_commits(alloc: Global) -> Result<Vec<u8>, Fail> {
    let front = part(alloc, blank(alloc)?, 3, &mut Vec::new(alloc))?;
    let (_goes_on, image) = next(alloc, &front)?;
    let ring = ring();
    let mut log = open(alloc, disk_of(alloc, image, DiskPlan::default())?)?;
    let origin = origin_of(alloc, &ring, &mut log)?;
    let model = Continued::new(&ring, origin.as_ref());
    let plan = PlainPlan {
        commit_every: 1,
        checkpoint_every: 2,
        seals: false,
        commits: 2,
    };
    let ran = run_plain(alloc, &model, log.into_disk(), END, plan, &mut Nobody);
    Ok(ran.disk.crash(alloc, Torn::New)?)
}

/// A disk of this image, of which sectors are filled with a byte each.
fn damaged(alloc: Global, image: Vec<u8>, damage: &str) -> Result<MemDisk, Fail> {
    let mut disk = disk_of(alloc, image, DiskPlan::default())?;
    for word in damage.split(' ') {
        let Some((sector, byte)) = word.split_once('-') else {
            return Err(Fail::from("no damage"));
        };
        disk.write(sector.parse::<u32>()?, &[byte.parse::<u8>()?; 512])?;
    }
    disk.sync()?;
    Ok(disk)
}

/// Opens the gate of a segment again. Returns what it represents, and its image.
fn reopened(alloc: Global, mut disk: MemDisk) -> Result<(Verified, Vec<u8>), Fail> {
    let ring = ring();
    let mut log = open(alloc, copy_opened(alloc, &mut disk)?)?;
    let origin = origin_of(alloc, &ring, &mut log)?;
    let model = Continued::new(&ring, origin.as_ref());
    let seen = reopen(alloc, &model, &mut disk, END, &mut Unwatched);
    let seen = seen?;
    Ok((seen, disk.crash(alloc, Torn::New)?))
}

/// Cuts a segment before its first record at fault.
fn was_cut(alloc: Global, disk: MemDisk) -> Result<(Verified, Vec<u8>), Fail> {
    let ring = ring();
    let mut log = open(alloc, disk)?;
    let origin = origin_of(alloc, &ring, &mut log)?;
    let model = Continued::new(&ring, origin.as_ref());
    let Returned { disk, outcome } = cut(alloc, &model, log.into_disk(), &mut Unwatched);
    let made = outcome?;
    Ok((made.seen, disk.crash(alloc, Torn::New)?))
}

/// Writes the good records of a segment to a new disk.
fn salvaged(alloc: Global, mut disk: MemDisk) -> Result<(Verified, Vec<u8>), Fail> {
    let ring = ring();
    let first = first_in_row(alloc, &mut disk)?;
    let origin = origin_in(alloc, &ring, first.as_slice())?;
    let model = Continued::new(&ring, origin.as_ref());
    let new = MemDisk::blank(alloc, SECTORS)?;
    let Returned { disk: new, outcome } = salvage(
        alloc,
        &model,
        &mut disk,
        END,
        new,
        &mut Unwatched,
    );
    let made = outcome?;
    Ok((made.seen, new.crash(alloc, Torn::New)?))
}

/// Repairs a disk so. Returns what it represents then, and its image.
fn repaired(alloc: Global, repair: &str, disk: MemDisk) -> Result<(Verified, Vec<u8>), Fail> {
    match repair {
        "reopen" => reopened(alloc, disk),
        "cut" => was_cut(alloc, disk),
        _ => salvaged(alloc, disk),
    }
}

/// Whether a run on this image ends in the world of the whole simulation.
fn ends_as_whole(alloc: Global, image: Vec<u8>) -> Result<bool, Fail> {
    let whole = part(alloc, blank(alloc)?, u32::MAX, &mut Vec::new(alloc))?;
    let last = part(alloc, image, u32::MAX, &mut Vec::new(alloc))?;
    Ok(
        last.g == whole.g
            && last.states == whole.states
            && last.numbers == whole.numbers
            && last.pending == whole.pending,
    )
}

/// Whether the repair in this row finds what stands in the row, and the segment goes on.
fn is_repaired_so(alloc: Global, row: &str) -> Result<bool, Fail> {
    let (Some((words, wanted)), Some((repair, _))) = (row.split_once(" | "), row.split_once(' '))
    else {
        return Ok(false);
    };
    let damage = words.split_once(' ').unwrap_or(("", "")).1;
    let disk = damaged(alloc, segment_with_commits(alloc)?, damage)?;
    let (seen, image) = repaired(alloc, repair, disk)?;
    let text = format!(in alloc; "committed {} events {}", seen.time, seen.events)?;
    if text.as_str() != wanted {
        let found = format!(in alloc; "{row}: {text}")?;
        return Err(Fail::from(found.as_str()));
    }
    ends_as_whole(alloc, image)
}

fn are_repaired_so(alloc: Global) -> Result<bool, Fail> {
    for row in REPAIRS.lines() {
        if !is_repaired_so(alloc, row)? {
            return Ok(false);
        }
    }
    Ok(true)
}

#[test]
fn a_repaired_segment_goes_on_to_the_world_of_the_whole_simulation(
    rt: HostRuntime,
) -> Result<(), Fail> {
    assert!(rt; are_repaired_so(rt.alloc())?);
    Ok(())
}
