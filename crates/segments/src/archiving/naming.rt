// The names of the files of an archive, and what their folder keeps of them.

use crate::archiving::fault::{ArchiveFault, Refused};
use std::alloc::{AllocError, Global};
use std::fs::{self, File, Files, OpenFile};
use std::io::{self, ErrorKind};
use std::os::unix::fs::MetadataExt;
use std::path::Path;

/// The path of the file to which this one leads through links, or this one if that is not known.
pub(crate) fn real_path(
    files: &impl Files<File = File>,
    alloc: Global,
    path: &str,
) -> Result<String, AllocError> {
    match files.canonicalize(alloc, path) {
        Ok(real) => String::from_str(alloc, real.as_str()),
        Err(_) => String::from_str(alloc, path),
    }
}

/// The path of the disk that is made after the one at `path`.
pub(crate) fn next_path(alloc: Global, path: &str) -> Result<String, AllocError> {
    format!(in alloc; "{path}.next")
}

/// The path of the part of the disk at `path` that goes up to a virtual time, in ticks. The latest
/// time, 2^40, has 13 digits.
pub(crate) fn part_path(alloc: Global, path: &str, time: u64) -> Result<String, AllocError> {
    format!(in alloc; "{path}.{time:013}")
}

/// Waits until the names in the folder of this path have reached the device. The folder must be
/// readable.
fn sync_folder(files: &impl Files<File = File>, path: &str) -> io::Result<()> {
    let folder = match Path::new(path).parent() {
        Some(folder) if !folder.as_str().is_empty() => folder,
        _ => Path::new("."),
    };
    File::open(files, folder)?.sync_all()
}

/// Whether both names are of one file.
pub(crate) fn are_one(files: &impl Files<File = File>, one: &str, other: &str) -> io::Result<bool> {
    let one = fs::symlink_metadata(files, one)?;
    let other = fs::symlink_metadata(files, other)?;
    Ok(one.dev() == other.dev() && one.ino() == other.ino())
}

/// Gives the file at `path` a second name. An earlier stop may have given it already.
fn give_name(files: &impl Files<File = File>, path: &str, second: &str) -> io::Result<()> {
    match fs::hard_link(files, path, second) {
        Err(error) if error.kind() == ErrorKind::AlreadyExists => {
            if are_one(files, path, second)? {
                Ok(())
            } else {
                Err(error)
            }
        }
        outcome => outcome,
    }
}

/// Whether somebody has the lock of the file at `path`, as the caller must of its disk: otherwise
/// the name leads to another file by now.
fn is_locked(files: &impl Files<File = File>, path: &str) -> io::Result<bool> {
    let file = File::open(files, path)?;
    match file.try_lock() {
        Ok(()) => Ok(false),
        Err(error) => {
            let error = io::Error::from(error);
            if error.kind() == ErrorKind::WouldBlock {
                Ok(true)
            } else {
                Err(error)
            }
        }
    }
}

/// Gives the disk at `path` the name of its part up to `time`, in ticks, and puts the next disk in
/// its place. At each moment `path` is one of the two. Each name has reached the device before the
/// next step, so a power cut loses neither disk.
pub(crate) fn put_aside(
    files: &impl Files<File = File>,
    alloc: Global,
    path: &str,
    time: u64,
) -> Result<(), Refused> {
    let part = part_path(alloc, path, time)?;
    let next = next_path(alloc, path)?;
    if !is_locked(files, path)? {
        return Err(Refused::from(ArchiveFault::File));
    }
    give_name(files, path, part.as_str())?;
    sync_folder(files, path)?;
    fs::rename(files, next.as_str(), path)?;
    sync_folder(files, path)?;
    Ok(())
}
