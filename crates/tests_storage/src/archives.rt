// Archiving over disks in memory and over real files: what stops, failures and refused calls leave of a
// disk, its parts and the next disk.

use crate::chains::{END, Nobody, TEARINGS, blank, disk_of, part, ring};
use crate::shared::{on_file, removed};
use commitlog::format;
use disk::{DiskPlan, FileDisk, MOST_SECTORS, MemDisk, Returned, Room};
use model::Continued;
use models::TokenRing;
use plain::{PlainPlan, run_plain};
use recovery::{Front, header};
use segments::archiving::{
    ArchivePlace, Left, archive, begin_on, front_on, left_on, origin_on, remove_parts,
};
use std::alloc::{Allocator, Global};
use std::cell::Cell;
use std::fs::{File, Files, Metadata, OpenOptions};
use std::io::ErrorKind;
use std::path::{Path, PathBuf};
use std::test::Fail;
use std::{fs, io};

/// A disk of this number has room for an origin and two events.
const SECTORS: u32 = 12;

/// The files of the system, of which the call number `at` is refused.
#[derive(Drop)]
struct Refusing<'a, R> {
    files: &'a R,
    calls: Cell<u64>,
    at: u64,
}

impl<R: Files<File = File>> Refusing<'_, R> {
    /// Counts a call.
    fn next(&self) -> io::Result<()> {
        let call = self.calls.get();
        self.calls.set(call.saturating_add(1));
        if call == self.at {
            Err(io::Error::from(ErrorKind::PermissionDenied))
        } else {
            Ok(())
        }
    }
}

// The changes of an archive make no other calls than those that are counted.
impl<R: Files<File = File>> Files for Refusing<'_, R> {
    type File = File;

    type Dir = R::Dir;

    fn open_file(&self, how: &OpenOptions, path: &str) -> io::Result<File> {
        self.next()?;
        self.files.open_file(how, path)
    }

    fn open_dir(&self, _path: &str) -> io::Result<R::Dir> {
        Err(io::Error::from(ErrorKind::Unsupported))
    }

    fn metadata(&self, path: &str) -> io::Result<Metadata> {
        self.next()?;
        self.files.metadata(path)
    }

    fn symlink_metadata(&self, path: &str) -> io::Result<Metadata> {
        self.next()?;
        self.files.symlink_metadata(path)
    }

    fn copy(&self, _from: &str, _to: &str) -> io::Result<u64> {
        Err(io::Error::from(ErrorKind::Unsupported))
    }

    fn rename(&self, from: &str, to: &str) -> io::Result<()> {
        self.next()?;
        self.files.rename(from, to)
    }

    fn remove_file(&self, path: &str) -> io::Result<()> {
        self.next()?;
        self.files.remove_file(path)
    }

    fn hard_link(&self, original: &str, link: &str) -> io::Result<()> {
        self.next()?;
        self.files.hard_link(original, link)
    }

    fn create_dir(&self, _path: &str) -> io::Result<()> {
        Err(io::Error::from(ErrorKind::Unsupported))
    }

    fn remove_dir(&self, _path: &str) -> io::Result<()> {
        Err(io::Error::from(ErrorKind::Unsupported))
    }

    fn remove_dir_all<B: Allocator>(&self, _alloc: B, _path: &str) -> io::Result<()> {
        Err(io::Error::from(ErrorKind::Unsupported))
    }
}

/// The front of the disk or part at a path.
fn front_at(rt: &HostRuntime, path: &str) -> Result<Front, Fail> {
    let ring = ring();
    let disk = FileDisk::open_to_read(rt, rt.alloc(), path)?;
    let Returned { disk, outcome } = origin_on(rt.alloc(), &ring, disk);
    let (origin, _time) = outcome?;
    let model = Continued::new(&ring, origin.as_ref());
    Ok(front_on(rt.alloc(), &model, END, disk).outcome?)
}

/// Goes on on the disk at a path until it is full.
fn fill_up(rt: &HostRuntime, path: &str) -> Result<FileDisk, Fail> {
    let ring = ring();
    let disk = FileDisk::open(rt, rt.alloc(), path, None)?;
    let Returned { disk, outcome } = origin_on(rt.alloc(), &ring, disk);
    let (origin, _time) = outcome?;
    let model = Continued::new(&ring, origin.as_ref());
    let plan = PlainPlan {
        commit_every: 1,
        checkpoint_every: 0,
        seals: false,
        commits: 100,
    };
    Ok(run_plain(rt.alloc(), &model, disk, END, plan, &mut Nobody).disk)
}

/// A full disk at a path where none is.
fn full_at(rt: &HostRuntime, path: &str) -> Result<FileDisk, Fail> {
    let mut disk = FileDisk::open(rt, rt.alloc(), path, Some(SECTORS))?;
    format(&mut disk, &header(rt.alloc(), &ring(), END))?;
    drop(disk);
    fill_up(rt, path)
}

/// Archives the disk at a path, where the call number `at` on a file is refused. Returns whether that was
/// met, and whether the disk is archived.
fn archived(rt: &HostRuntime, path: &str, disk: FileDisk, at: u64) -> (bool, bool) {
    let files = Refusing {
        files: rt,
        calls: Cell::new(0),
        at,
    };
    let place = ArchivePlace {
        path,
        room: Room::Sparse,
        most: MOST_SECTORS,
    };
    let is_archived = archive(&files, rt.alloc(), &ring(), END, place, disk).is_ok();
    (at < files.calls.get(), is_archived)
}

/// The times up to which the first three disks go.
const TIMES: [u64; 3] = [9, 13, 17];

/// The path of the part up to a time, in ticks.
fn part_of(rt: &HostRuntime, path: &str, time: u64) -> Result<PathBuf, Fail> {
    let name = format!(in rt.alloc(); "{path}.{time:013}")?;
    Ok(Path::new(name.as_str()).to_path_buf(rt.alloc())?)
}

/// Removes a disk and what may be beside it.
fn clear(rt: &HostRuntime, path: &PathBuf) -> Result<(), Fail> {
    removed(rt, path)?;
    let disk = path.as_str();
    for ending in ["next", "next.unfinished-disk"] {
        let name = format!(in rt.alloc(); "{disk}.{ending}")?;
        removed(rt, &Path::new(name.as_str()).to_path_buf(rt.alloc())?)?;
    }
    clear_parts(rt, disk)
}

/// Removes the parts of a disk.
fn clear_parts(rt: &HostRuntime, path: &str) -> Result<(), Fail> {
    for time in TIMES {
        removed(rt, &part_of(rt, path, time)?)?;
    }
    Ok(())
}

/// Whether two fronts are of one world.
fn are_one(one: &Front, other: &Front) -> bool {
    one.g == other.g
        && one.states == other.states
        && one.numbers == other.numbers
        && one.pending == other.pending
}

/// Archives a new full disk, where the call number `at` is refused, and then the disk at its path without a
/// refusal. Returns whether the refusal was met, and whether the disk at the path and then the part had the
/// world of the full disk.
fn archived_twice(rt: &HostRuntime, path: &PathBuf, at: u64) -> Result<(bool, bool), Fail> {
    clear(rt, path)?;
    let disk = full_at(rt, path.as_str())?;
    let before = front_at(rt, path.as_str())?;
    let (is_met, _is_archived) = archived(rt, path.as_str(), disk, at);
    let left = front_at(rt, path.as_str())?;
    let again = fill_up(rt, path.as_str())?;
    let (_is_met, is_archived) = archived(rt, path.as_str(), again, u64::MAX);
    let part = part_of(rt, path.as_str(), before.g)?;
    let is_kept = are_one(&before, &left) && are_one(&before, &front_at(rt, part.as_str())?);
    Ok((is_met, is_archived && is_kept))
}

// An archive makes twelve calls: look for the next disk, and open it; create it under another name, look at
// that, give it its second name, remove the first; open the folder; look whether the disk is locked; give it
// the name of its part, open the folder; rename the next disk, open the folder.
const CALLS: u64 = 12;

/// Whether each refusal leaves a disk of the same world, which is archived by the next call.
fn survive_refusals(rt: &HostRuntime, path: &PathBuf) -> Result<bool, Fail> {
    for at in 0..CALLS + 1 {
        let (is_met, is_kept) = archived_twice(rt, path, at)?;
        if is_met != (at < CALLS) || !is_kept {
            return Ok(false);
        }
    }
    clear(rt, path)?;
    Ok(true)
}

#[test]
fn a_refused_call_while_a_disk_is_archived_loses_nothing(rt: HostRuntime) -> Result<(), Fail> {
    assert!(rt; on_file(&rt, "archived", survive_refusals)?);
    Ok(())
}

/// Makes a disk whose first three parts are archived.
fn make_parts(rt: &HostRuntime, path: &PathBuf) -> Result<bool, Fail> {
    clear(rt, path)?;
    let mut disk = full_at(rt, path.as_str())?;
    for _ in TIMES {
        let (_is_met, is_archived) = archived(rt, path.as_str(), disk, u64::MAX);
        if !is_archived {
            return Ok(false);
        }
        disk = fill_up(rt, path.as_str())?;
    }
    Ok(true)
}

/// Which of the first three parts are there.
fn parts_at(rt: &HostRuntime, path: &str) -> Result<[bool; 3], Fail> {
    let mut there = [false; 3];
    for (is_there, time) in there.iter_mut().zip(TIMES) {
        *is_there = fs::exists(rt, part_of(rt, path, time)?.as_path())?;
    }
    Ok(there)
}

/// Removes all but the newest of three parts, where the call number `at` is refused. Returns which parts
/// are there then, how many are removed, and whether one was not.
fn removed_at(rt: &HostRuntime, path: &PathBuf, at: u64) -> Result<([bool; 3], u32, bool), Fail> {
    if !make_parts(rt, path)? {
        return Err(Fail::from("the parts are not made"));
    }
    let files = Refusing {
        files: rt,
        calls: Cell::new(0),
        at,
    };
    let (removed, is_left) = remove_parts(&files, rt.alloc(), &ring(), path.as_str(), TIMES[2], 1)?;
    Ok((parts_at(rt, path.as_str())?, removed, is_left))
}

// The calls are: look at the name of the disk, and open it; the same for each part, the newest
// first; remove the first, and the second. A part that cannot be looked at ends the walk to older
// ones.
//
// Each row has the call that is refused (10: none), which parts are there then, how many are
// removed, and whether one beyond the newest was not.
const REMOVALS: [(u64, [bool; 3], u32, bool); 11] = [
    (0, [true, true, true], 0, false),
    (1, [true, true, true], 0, false),
    (2, [true, true, true], 0, false),
    (3, [true, true, true], 0, false),
    (4, [true, true, true], 0, true),
    (5, [true, true, true], 0, true),
    (6, [true, false, true], 1, true),
    (7, [true, false, true], 1, true),
    (8, [true, true, true], 0, true),
    (9, [false, true, true], 1, true),
    (10, [false, false, true], 2, false),
];

/// Whether each refusal leaves the newest part, and those that were not removed.
fn keep_newest(rt: &HostRuntime, path: &PathBuf) -> Result<bool, Fail> {
    for (at, there, removed, is_left) in REMOVALS {
        if removed_at(rt, path, at)? != (there, removed, is_left) {
            return Ok(false);
        }
    }
    clear(rt, path)?;
    Ok(true)
}

#[test]
fn a_refused_call_while_parts_are_removed_leaves_the_newest(rt: HostRuntime) -> Result<(), Fail> {
    assert!(rt; on_file(&rt, "parts", keep_newest)?);
    Ok(())
}

/// Whether no part is removed by a time from which the disk does not go on.
fn keep_those_of_another_time(rt: &HostRuntime, path: &PathBuf) -> Result<bool, Fail> {
    let is_made = make_parts(rt, path)?;
    let (removed, is_left) = remove_parts(rt, rt.alloc(), &ring(), path.as_str(), TIMES[1], 0)?;
    let there = parts_at(rt, path.as_str())?;
    clear(rt, path)?;
    Ok(is_made && (removed, is_left) == (0, false) && there == [true; 3])
}

#[test]
fn parts_of_a_disk_that_goes_on_from_another_time_stay(rt: HostRuntime) -> Result<(), Fail> {
    assert!(rt; on_file(&rt, "others", keep_those_of_another_time)?);
    Ok(())
}

/// Begins a segment on a disk in memory that fails by this plan, and returns whether that was made and
/// what is found on the disk after a crash in each way.
fn begun(alloc: Global, front: &Front, failures: DiskPlan) -> Result<(bool, [Left; 4]), Fail> {
    let ring = ring();
    if front.numbers.as_slice().len() != front.states.as_slice().len() {
        return Err(Fail::from("the front has other numbers"));
    }
    let image = MemDisk::blank(alloc, SECTORS)?.crash(alloc, TEARINGS[0])?;
    let blank = disk_of(alloc, image, failures)?;
    let Returned { disk, outcome } = begin_on(alloc, &ring, END, front, blank);
    let is_made = outcome.is_ok();
    let mut found = [Left::Other; 4];
    for (left, torn) in found.iter_mut().zip(TEARINGS) {
        let image = disk.crash(alloc, torn)?;
        let found = left_on(
            alloc,
            &ring,
            END,
            front,
            disk_of(alloc, image, DiskPlan::default())?,
        );
        *left = found.outcome?;
    }
    Ok((is_made, found))
}

/// Whether what a stop or a failure left is made anew by the next call, or is whole, as it is if the segment
/// was made.
fn is_made_anew(made: (bool, [Left; 4])) -> bool {
    match made {
        (true, left) => left == [Left::Whole; 4],
        (false, left) => !left.contains(&Left::Other),
    }
}

#[test]
fn a_stop_or_a_failure_while_a_segment_is_begun_loses_nothing(rt: HostRuntime) -> Result<(), Fail> {
    let front = part(rt.alloc(), blank(rt.alloc())?, 3, &mut Vec::new(rt.alloc()))?;
    let mut stops: u32 = 0;
    for number in 0..30 {
        let stop = DiskPlan {
            fail: None,
            stop: Some(number),
        };
        let fail = DiskPlan {
            fail: Some(number),
            stop: None,
        };
        let stopped = begun(rt.alloc(), &front, stop)?;
        if !stopped.0 {
            stops = stops.saturating_add(1);
        }
        assert!(rt;
            is_made_anew(stopped) && is_made_anew(begun(rt.alloc(), &front, fail)?),
            "{number}"
        );
    }
    // the header, and two records of three writes each
    assert!(rt; 6 < stops && stops < 15, "{stops} stops");
    Ok(())
}
