// Which files paths lead to.

use std::fs;
use std::io::{ErrorKind, Result as IoResult};
use std::os::unix::fs::MetadataExt;
use std::rt::Files;

/// A file, whatever its name: the number of its device, and its number there.
#[derive(Clone, Copy, Debug, PartialEq, Eq)]
pub struct FileId {
    device: u64,
    number: u64,
}

/// Returns the file to which a path leads.
pub fn place_of<R: Files>(rt: &R, path: &str) -> IoResult<FileId> {
    let found = fs::metadata(rt, path)?;
    Ok(FileId {
        device: found.dev(),
        number: found.ino(),
    })
}

/// Whether both paths lead to the same file.
pub fn are_one_file<R: Files>(rt: &R, one: &str, other: &str) -> bool {
    match (place_of(rt, one), place_of(rt, other)) {
        (Ok(one), Ok(other)) => one == other,
        _ => false,
    }
}

/// Whether a path does not lead to this file any more, but to another one or to none. If the system
/// does not say, it still does.
pub fn is_elsewhere<R: Files>(rt: &R, path: &str, place: FileId) -> bool {
    match place_of(rt, path) {
        Ok(found) => found != place,
        Err(error) => matches!(error.kind(), ErrorKind::NotFound | ErrorKind::NotADirectory),
    }
}
