// Logs that are cut before a record at fault, and disks whose good records are salvaged.
use super::*;
use disk::{Returned, SectorDisk};
use upkeep::{
    CutFault, CutLog, SalvageFault, Salvaged, VerifyFault, VerifyWatch, close_cut, cut, find_cut,
    salvage, verify_disk,
};

/// Follows nothing.
#[derive(Drop)]
struct Unwatched;

impl VerifyWatch for Unwatched {}

/// Commits, each by its time and the places of its first event and of the one after its last, and
/// what a cut of their log prints.
const CUTS: &str = "\
7-0-3 6-0-0 | left 1 taken 1 to 1 end 10 committed 7 events 3: GoesBack
2-0-0 1-0-0 | left 0 taken 2 to 1 end 10 committed 0 events 0: NotTheLeast
1-0-0 7-0-3 12-3-5 10-3-5 | left 2 taken 2 to 3 end 10 committed 7 events 3: GoesBack
1-0-0 7-0-3 10-3-4 | left 2 taken 1 to 2 end 10 committed 7 events 3: NotTheLeast
1-0-0 7-0-3 10-3-5 | NothingToCut";

/// A commit from its three numbers.
fn commit_of(word: &str) -> Result<Commit, Fail> {
    let mut numbers = [0; 3];
    for (number, text) in numbers.iter_mut().zip(word.split('-')) {
        *number = text.parse::<u64>()?;
    }
    let [g, first, end] = numbers;
    Ok((g, usize::try_from(first)?, usize::try_from(end)?))
}

/// The disk of a log of these commits, with these failures.
fn disk_of(alloc: Global, words: &str, with: DiskPlan) -> Result<MemDisk, Fail> {
    let mut commits = Vec::new(alloc);
    for word in words.split(' ') {
        commits.push(commit_of(word)?)?;
    }
    planned(alloc, image_of(alloc, commits.as_slice())?, with)
}

/// The image of a log of these commits.
fn image_of(alloc: Global, commits: &[Commit]) -> Result<Vec<u8>, Fail> {
    Ok(log_of(alloc, commits)?.into_disk().crash(alloc, Torn::New)?)
}

/// A disk with this image and these failures.
fn planned(alloc: Global, image: Vec<u8>, with: DiskPlan) -> Result<MemDisk, Fail> {
    if image.len() > 1 << 24 {
        return Err(Fail::new("the image is too long"));
    }
    Ok(MemDisk::of(alloc, image, with)?)
}

/// What a cut prints. An allocation failure ends the test.
fn cut_text(alloc: Global, made: Result<CutLog, CutFault>) -> Result<String, Fail> {
    match made {
        Ok(cut) => Ok(format!(in alloc;
            "left {} taken {} to {} end {} committed {} events {}: {}",
            cut.left, cut.taken, cut.last, cut.end, cut.seen.time, cut.seen.events, cut.fault
        )?),
        Err(CutFault::Log(LogFault::NoMemory)) => Err(Fail::new("no memory")),
        Err(CutFault::Recovery(fault)) if is_of_memory(&fault) => Err(Fail::from(fault)),
        Err(fault) => Ok(format!(in alloc; "{fault}")?),
    }
}

/// Whether a cut of the log in this row prints what stands in the row.
fn is_cut_so(alloc: Global, row: &str) -> Result<bool, Fail> {
    let Some((commits, text)) = row.split_once(" | ") else {
        return Ok(false);
    };
    let disk = disk_of(alloc, commits, DiskPlan::default())?;
    let done = cut(alloc, &ring(), disk, &mut Unwatched);
    Ok(cut_text(alloc, done.outcome)?.as_str() == text)
}

fn are_cut_so(alloc: Global) -> Result<bool, Fail> {
    for row in CUTS.lines() {
        if !is_cut_so(alloc, row)? {
            return Ok(false);
        }
    }
    Ok(true)
}

#[test]
fn a_log_is_cut_before_its_first_record_at_fault(rt: HostRuntime) -> Result<(), Fail> {
    assert!(rt; are_cut_so(rt.alloc())?);
    Ok(())
}

const TEARINGS: [Torn; 5] = [
    Torn::Old,
    Torn::New,
    Torn::Fill(1),
    Torn::Fill(7),
    Torn::Cut(1),
];

/// Whether what a crash leaves of a disk is the log with the record at fault, or the one that was
/// cut.
fn is_either(alloc: Global, disk: &MemDisk, torn: Torn) -> Result<bool, Fail> {
    let left = planned(alloc, disk.crash(alloc, torn)?, DiskPlan::default())?;
    match verify_disk(alloc, &ring(), left, END, &mut Unwatched) {
        Ok(seen) => Ok(seen.time == 7 && seen.events == 3),
        Err(VerifyFault::Record { number, fault }) => {
            Ok(number == 2 && fault == RecoveryFault::GoesBack)
        }
        Err(fault) => Err(Fail::from(fault)),
    }
}

/// Whether each crash after a cut on a disk with these failures leaves one of the two.
fn leaves_either(alloc: Global, with: DiskPlan) -> Result<bool, Fail> {
    let disk = disk_of(alloc, "1-0-0 7-0-3 12-3-5", with)?;
    let Returned { disk, outcome } = cut(alloc, &ring(), disk, &mut Unwatched);
    cut_text(alloc, outcome)?;
    for torn in TEARINGS {
        if !is_either(alloc, &disk, torn)? {
            return Ok(false);
        }
    }
    Ok(true)
}

fn all_leave_either(alloc: Global) -> Result<bool, Fail> {
    for number in 0..24 {
        let fail = DiskPlan {
            fail: Some(number),
            stop: None,
        };
        let stop = DiskPlan {
            fail: None,
            stop: Some(number),
        };
        if !leaves_either(alloc, fail)? || !leaves_either(alloc, stop)? {
            return Ok(false);
        }
    }
    Ok(true)
}

#[test]
fn a_stop_leaves_a_log_as_it_was_or_cut(rt: HostRuntime) -> Result<(), Fail> {
    assert!(rt; all_leave_either(rt.alloc())?);
    Ok(())
}

/// Whether a cut that was found and not made leaves the disk as it was, and the made one does not.
fn is_cut_later(alloc: Global) -> Result<bool, Fail> {
    let disk = disk_of(alloc, "1-0-0 7-0-3 12-3-5", DiskPlan::default())?;
    let before = disk.crash(alloc, Torn::New)?;
    let Ok(to) = find_cut(alloc, &ring(), disk, &mut Unwatched) else {
        return Ok(false);
    };
    let found = to.log.into_disk();
    let is_same = found.crash(alloc, Torn::New)?.as_slice() == before.as_slice();
    let Ok(to) = find_cut(alloc, &ring(), found, &mut Unwatched) else {
        return Ok(false);
    };
    let closed = close_cut(to);
    let is_cut = closed.disk.crash(alloc, Torn::New)?.as_slice() != before.as_slice();
    Ok(is_same && is_cut && closed.outcome.is_ok())
}

#[test]
fn a_cut_writes_nothing_before_its_gate_is_closed(rt: HostRuntime) -> Result<(), Fail> {
    assert!(rt; is_cut_later(rt.alloc())?);
    Ok(())
}

/// Sectors of the disk of all commits, the byte with which damage fills them, and what a salvage
/// prints. Sectors 3, 5 and 7 hold the records, 2, 4, 6 and 8 the gates.
const SALVAGES: &str = "\
0 0 | records 3 of 3 end 10 committed 10 events 5: BadRecord, closed
1 255 | records 3 of 3 end 10 committed 10 events 5: BadRecord, closed
1 0 | records 3 of 3 end 10 committed 10 events 5: BadRecord, closed
2 0 | records 3 of 3 end 10 committed 10 events 5: BadRecord, closed
3 0 | records 0 of 0 end 10 committed 0 events 0: BadRecord, open
3 255 | records 0 of 0 end 10 committed 0 events 0: Log Corrupt, open
4 7 | records 3 of 3 end 10 committed 10 events 5: BadRecord, closed
5 255 | records 1 of 1 end 10 committed 1 events 0: Log Corrupt, open
6 0 | records 3 of 3 end 10 committed 10 events 5: BadRecord, closed
7 0 | records 2 of 2 end 10 committed 7 events 3: BadRecord, open
8 1 | records 3 of 3 end 10 committed 10 events 5: BadRecord, open
63 9 | records 3 of 3 end 10 committed 10 events 5: BadRecord, closed";

/// Commits as in `CUTS`, and what a salvage of their log prints.
const SALVAGED_LOGS: &str = "\
7-0-3 6-0-0 | records 1 of 2 end 10 committed 7 events 3: GoesBack, open
2-0-0 1-0-0 | records 0 of 2 end 10 committed 0 events 0: NotTheLeast, open
1-0-0 7-0-3 12-3-5 10-3-5 | records 2 of 4 end 10 committed 7 events 3: GoesBack, open";

/// What a salvage prints. An allocation failure ends the test.
fn salvage_text(alloc: Global, made: Result<Salvaged, SalvageFault>) -> Result<String, Fail> {
    match made {
        Ok(of) => {
            let gate = if of.is_open { "open" } else { "closed" };
            Ok(format!(in alloc;
                "records {} of {} end {} committed {} events {}: {}, {gate}",
                of.records, of.whole, of.end, of.seen.time, of.seen.events, of.stop
            )?)
        }
        Err(SalvageFault::NoMemory) => Err(Fail::new("no memory")),
        Err(SalvageFault::New(LogFault::NoMemory)) => Err(Fail::new("no memory")),
        Err(fault) => Ok(format!(in alloc; "{fault}")?),
    }
}

/// The disk of all commits, of which a sector is filled with a byte.
fn damaged(alloc: Global, sector: u32, byte: u8) -> Result<MemDisk, Fail> {
    let mut disk = planned(alloc, image_of(alloc, &ALL)?, DiskPlan::default())?;
    disk.write(sector, &[byte; 512])?;
    Ok(disk)
}

/// What a salvage of this disk to a blank one of so many sectors prints.
fn salvaged(alloc: Global, mut disk: MemDisk, sectors: u32) -> Result<String, Fail> {
    let new = MemDisk::blank(alloc, sectors)?;
    let done = salvage(alloc, &ring(), &mut disk, END, new, &mut Unwatched);
    salvage_text(alloc, done.outcome)
}

/// Whether a salvage of the disk in this row prints what stands in the row.
fn is_salvaged_so(alloc: Global, row: &str) -> Result<bool, Fail> {
    let Some((damage, text)) = row.split_once(" | ") else {
        return Ok(false);
    };
    let Some((sector, byte)) = damage.split_once(' ') else {
        return Ok(false);
    };
    let disk = damaged(alloc, sector.parse::<u32>()?, byte.parse::<u8>()?)?;
    Ok(salvaged(alloc, disk, 64)?.as_str() == text)
}

fn are_salvaged_so(alloc: Global) -> Result<bool, Fail> {
    for row in SALVAGES.lines() {
        if !is_salvaged_so(alloc, row)? {
            return Ok(false);
        }
    }
    Ok(true)
}

#[test]
fn the_good_records_of_a_damaged_disk_are_salvaged(rt: HostRuntime) -> Result<(), Fail> {
    assert!(rt; are_salvaged_so(rt.alloc())?);
    Ok(())
}

/// Whether a salvage of the log in this row prints what stands in the row.
fn is_log_salvaged_so(alloc: Global, row: &str) -> Result<bool, Fail> {
    let Some((commits, text)) = row.split_once(" | ") else {
        return Ok(false);
    };
    let disk = disk_of(alloc, commits, DiskPlan::default())?;
    Ok(salvaged(alloc, disk, 64)?.as_str() == text)
}

fn are_logs_salvaged_so(alloc: Global) -> Result<bool, Fail> {
    for row in SALVAGED_LOGS.lines() {
        if !is_log_salvaged_so(alloc, row)? {
            return Ok(false);
        }
    }
    Ok(true)
}

#[test]
fn the_good_records_of_a_wrong_log_are_salvaged(rt: HostRuntime) -> Result<(), Fail> {
    assert!(rt; are_logs_salvaged_so(rt.alloc())?);
    Ok(())
}

/// The disk of an empty log of another ring.
fn of_other_ring(alloc: Global) -> Result<MemDisk, Fail> {
    let other = TokenRing::new(4, 2, 1);
    Ok(log_under(alloc, &header(alloc, &other, END))?.into_disk())
}

/// Whether refused salvages print their fault.
fn are_refused(alloc: Global) -> Result<bool, Fail> {
    let other = salvaged(alloc, of_other_ring(alloc)?, 64)?;
    let full = salvaged(alloc, damaged(alloc, 0, 0)?, 8)?;
    let mut disk = damaged(alloc, 0, 0)?;
    let taken = of_other_ring(alloc)?;
    let done = salvage(alloc, &ring(), &mut disk, END, taken, &mut Unwatched);
    let used = salvage_text(alloc, done.outcome)?;
    Ok(
        other.as_str() == "OtherModel"
            && full.as_str() == "New Full"
            && used.as_str() == "New NotBlank",
    )
}

#[test]
fn salvages_are_refused_by_name(rt: HostRuntime) -> Result<(), Fail> {
    assert!(rt; are_refused(rt.alloc())?);
    Ok(())
}

/// Whether what a crash leaves of a new disk is no log, or one that represents a world.
fn is_part(alloc: Global, new: &MemDisk, torn: Torn) -> Result<bool, Fail> {
    let left = planned(alloc, new.crash(alloc, torn)?, DiskPlan::default())?;
    match verify_disk(alloc, &ring(), left, END, &mut Unwatched) {
        Ok(seen) => Ok(seen.time <= END),
        Err(VerifyFault::Log(LogFault::NotFormatted)) => Ok(true),
        Err(fault) => Err(Fail::from(fault)),
    }
}

/// Whether each crash after a salvage to a disk with these failures leaves such a one.
fn leaves_part(alloc: Global, with: DiskPlan) -> Result<bool, Fail> {
    let blank = MemDisk::blank(alloc, 64)?.crash(alloc, Torn::New)?;
    let mut disk = damaged(alloc, 2, 0)?;
    let new = planned(alloc, blank, with)?;
    let done = salvage(alloc, &ring(), &mut disk, END, new, &mut Unwatched);
    salvage_text(alloc, done.outcome)?;
    for torn in TEARINGS {
        if !is_part(alloc, &done.disk, torn)? {
            return Ok(false);
        }
    }
    Ok(true)
}

fn all_leave_part(alloc: Global) -> Result<bool, Fail> {
    for number in 0..48 {
        let fail = DiskPlan {
            fail: Some(number),
            stop: None,
        };
        let stop = DiskPlan {
            fail: None,
            stop: Some(number),
        };
        if !leaves_part(alloc, fail)? || !leaves_part(alloc, stop)? {
            return Ok(false);
        }
    }
    Ok(true)
}

#[test]
fn a_stop_leaves_a_part_of_the_good_records(rt: HostRuntime) -> Result<(), Fail> {
    assert!(rt; all_leave_part(rt.alloc())?);
    Ok(())
}
