// Openings where the system refuses a call, or another program makes the disk in between.
use crate::shared::{has, on_file, opened, removed, unfinished_path};
use disk::{FileDisk, FileFault};
use std::alloc::Allocator;
use std::cell::Cell;
use std::fs::{File, Files, Metadata, OpenOptions};
use std::io::ErrorKind;
use std::path::PathBuf;
use std::test::Fail;
use std::{env, fs, io};

/// What happens at a call.
#[derive(Clone, Copy)]
enum Event<'a> {
    /// The call is refused.
    Refused,
    /// Another program makes a disk of sevens at this path just before.
    Made(&'a str),
    /// The folder at this path opens as something that can't be synced.
    Unsyncable(&'a str),
}

/// The files of the system, with an event at the call number `at`.
#[derive(Drop)]
struct Watched<'a, R> {
    files: &'a R,
    calls: Cell<u64>,
    at: u64,
    event: Event<'a>,
    /// Whether a file can have a second name.
    links: bool,
}

impl<R: Files<File = File>> Watched<'_, R> {
    /// Counts a call, and makes what happens before it.
    fn next(&self) -> io::Result<()> {
        let call = self.calls.get();
        self.calls.set(call.saturating_add(1));
        if call != self.at {
            return Ok(());
        }
        match self.event {
            Event::Refused => Err(io::Error::from(ErrorKind::PermissionDenied)),
            Event::Made(disk) => fs::write(self.files, disk, [7; 8 * 512].as_slice()),
            Event::Unsyncable(_) => Ok(()),
        }
    }
}

// An opening makes no other calls than those that are counted, and opens no folder as one.
impl<R: Files<File = File>> Files for Watched<'_, R> {
    type File = File;

    type Dir = R::Dir;

    fn open_file(&self, how: &OpenOptions, path: &str) -> io::Result<File> {
        let is_met = self.calls.get() == self.at;
        self.next()?;
        match self.event {
            Event::Unsyncable(folder) if is_met && path == folder => {
                self.files.open_file(how, "/dev/null")
            }
            _ => self.files.open_file(how, path),
        }
    }

    fn open_dir(&self, _path: &str) -> io::Result<R::Dir> {
        Err(io::Error::from(ErrorKind::Unsupported))
    }

    fn metadata(&self, _path: &str) -> io::Result<Metadata> {
        Err(io::Error::from(ErrorKind::Unsupported))
    }

    fn symlink_metadata(&self, path: &str) -> io::Result<Metadata> {
        self.next()?;
        self.files.symlink_metadata(path)
    }

    fn copy(&self, _from: &str, _to: &str) -> io::Result<u64> {
        Err(io::Error::from(ErrorKind::Unsupported))
    }

    fn rename(&self, from: &str, to: &str) -> io::Result<()> {
        self.next()?;
        self.files.rename(from, to)
    }

    fn remove_file(&self, path: &str) -> io::Result<()> {
        self.next()?;
        self.files.remove_file(path)
    }

    fn hard_link(&self, original: &str, link: &str) -> io::Result<()> {
        if !self.links {
            return Err(io::Error::from(ErrorKind::Unsupported));
        }
        self.next()?;
        self.files.hard_link(original, link)
    }

    fn create_dir(&self, _path: &str) -> io::Result<()> {
        Err(io::Error::from(ErrorKind::Unsupported))
    }

    fn remove_dir(&self, _path: &str) -> io::Result<()> {
        Err(io::Error::from(ErrorKind::Unsupported))
    }

    fn remove_dir_all<B: Allocator>(&self, _alloc: B, _path: &str) -> io::Result<()> {
        Err(io::Error::from(ErrorKind::Unsupported))
    }
}

/// Opens a disk of eight sectors with an event at one call. Returns the fault, and the number of
/// calls.
fn refused_at(
    rt: &HostRuntime,
    path: &PathBuf,
    at: u64,
    event: Event<'_>,
    links: bool,
) -> (Option<FileFault>, u64) {
    let files = Watched {
        files: rt,
        calls: Cell::new(0),
        at,
        event,
        links,
    };
    let refused = FileDisk::open(&files, rt.alloc(), path.as_str(), Some(8)).err();
    (refused, files.calls.get())
}

/// Opens a disk that is there, of any size, with an event at the second call. Returns the same.
fn reopened_at(rt: &HostRuntime, path: &PathBuf, event: Event<'_>) -> (Option<FileFault>, u64) {
    let files = Watched {
        files: rt,
        calls: Cell::new(0),
        at: 1,
        event,
        links: true,
    };
    let refused = FileDisk::open(&files, rt.alloc(), path.as_str(), None).err();
    (refused, files.calls.get())
}

/// Whether such an opening is refused after this number of calls.
fn is_refused(
    rt: &HostRuntime,
    path: &PathBuf,
    at: u64,
    event: Event<'_>,
    links: bool,
    calls: u64,
) -> bool {
    refused_at(rt, path, at, event, links) == (Some(FileFault::File), calls)
}

/// Whether the disk is left, and whether an unfinished one is, are so. Removes both.
fn are_left(rt: &HostRuntime, path: &PathBuf, disk: bool, unfinished: bool) -> Result<bool, Fail> {
    let second = unfinished_path(rt, path)?;
    Ok(removed(rt, path)? == disk && removed(rt, &second)? == unfinished)
}

// With hard links the calls are: open the path; create the unfinished file, look at its name, give
// it its second name, remove the first one; open the folder. A refused link is tried as a rename.
// Without them they are: open the path; create the unfinished file, look at its name, look for the
// path, rename; open the folder. A file that was not found under its name is not removed.
//
// Each row has the call that is refused (9: none), whether there are hard links, whether the disk is
// opened, the number of calls, and whether the disk and the unfinished file are left.
const REFUSED: [(u64, bool, bool, u64, bool, bool); 12] = [
    (0, true, false, 1, false, false),
    (1, true, false, 2, false, false),
    (2, true, false, 3, false, true),
    (3, true, true, 7, true, false),
    (4, true, true, 8, true, false),
    (9, true, true, 6, true, false),
    (0, false, false, 1, false, false),
    (1, false, false, 2, false, false),
    (2, false, false, 3, false, true),
    (3, false, false, 5, false, false),
    (4, false, false, 6, false, false),
    (9, false, true, 6, true, false),
];

fn are_refused_so(rt: &HostRuntime, path: &PathBuf) -> Result<bool, Fail> {
    for (at, links, opens, calls, disk, unfinished) in REFUSED {
        let (fault, made) = refused_at(rt, path, at, Event::Refused, links);
        let is_left = are_left(rt, path, disk, unfinished)?;
        if fault.is_none() != opens || made != calls || !is_left {
            return Ok(false);
        }
    }
    Ok(true)
}

#[test]
fn a_failed_call_leaves_no_incomplete_disk(rt: HostRuntime) -> Result<(), Fail> {
    assert!(rt; on_file(&rt, "refused", are_refused_so)?);
    Ok(())
}

/// Whether a new disk is refused if its folder is not synced. The disk is there then.
fn needs_its_folder(rt: &HostRuntime, path: &PathBuf, event: Event<'_>) -> io::Result<bool> {
    Ok(is_refused(rt, path, 5, event, true, 6) && removed(rt, path)?)
}

/// Whether an old disk is refused then, and opens otherwise. If no size is asked for, a folder that
/// may not be read is none that must be synced.
fn needs_its_folder_again(
    rt: &HostRuntime,
    path: &PathBuf,
    folder: &str,
) -> Result<bool, FileFault> {
    drop(opened(rt, path, Some(8))?);
    let needs = is_refused(rt, path, 1, Event::Unsyncable(folder), true, 2)
        && is_refused(rt, path, 1, Event::Refused, true, 2)
        && reopened_at(rt, path, Event::Unsyncable(folder)) == (Some(FileFault::File), 2)
        && reopened_at(rt, path, Event::Refused) == (None, 2);
    drop(opened(rt, path, Some(8))?);
    Ok(needs)
}

// The folder is synced even if the disk exists: an earlier program may have ended before the name
// was on the device.
fn needs_its_folder_always(rt: &HostRuntime, path: &PathBuf) -> Result<bool, Fail> {
    let folder = env::temp_dir(rt)?;
    let event = Event::Unsyncable(folder.as_str());
    Ok(
        needs_its_folder(rt, path, event)?
            && needs_its_folder(rt, path, Event::Refused)?
            && needs_its_folder_again(rt, path, folder.as_str())?,
    )
}

#[test]
fn the_folder_of_a_disk_is_synced(rt: HostRuntime) -> Result<(), Fail> {
    assert!(rt; on_file(&rt, "folder", needs_its_folder_always)?);
    Ok(())
}

/// Whether a disk that another program makes before this call is kept.
fn keeps_that_of_another(
    rt: &HostRuntime,
    path: &PathBuf,
    at: u64,
    links: bool,
) -> Result<bool, Fail> {
    let event = Event::Made(path.as_str());
    let is_refused = is_refused(rt, path, at, event, links, 5);
    let is_kept = has(rt, path, Some(8), 8, &[(0, 7), (7, 7)])?;
    Ok(is_refused && is_kept && are_left(rt, path, true, false)?)
}

fn keeps_those_of_others(rt: &HostRuntime, path: &PathBuf) -> Result<bool, Fail> {
    for (at, links) in [(1, true), (3, true), (1, false), (3, false)] {
        if !keeps_that_of_another(rt, path, at, links)? {
            return Ok(false);
        }
    }
    Ok(true)
}

#[test]
fn a_disk_made_by_another_program_is_kept(rt: HostRuntime) -> Result<(), Fail> {
    assert!(rt; on_file(&rt, "other", keeps_those_of_others)?);
    Ok(())
}
