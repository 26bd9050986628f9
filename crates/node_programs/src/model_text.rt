// The text of the model that a run has read, for the node programs that it starts: so they have the
// model of the run, whatever becomes of the model file meanwhile.

use std::alloc::{AllocError, Global};
use std::fs::{self, File, OpenOptions};
use std::io::{self, Error as IoError, ErrorKind, Write};
use std::rt::Files;

/// The path of the text in the folder of the sockets.
pub(crate) fn path_of_text(alloc: Global, folder: &str) -> Result<String, AllocError> {
    format!(in alloc; "{folder}/.timewarp-model")
}

/// Writes a text to a file of this path, which then has all of it or is not there. A regular file of
/// that name is replaced, as one that a killed run left.
///
/// Fails with `AlreadyExists` if anything else has that name.
pub(crate) fn place_text<R>(rt: &R, path: &str, text: &[u8]) -> io::Result<()>
where
    R: Files<File = File> + AllocGlobal,
{
    if !is_free(rt, path)? {
        return Err(IoError::from(ErrorKind::AlreadyExists));
    }
    let unfinished = format!(in rt.alloc(); "{path}.unfinished")?;
    let unfinished = unfinished.as_str();
    let placed = match write_new(rt, unfinished, text) {
        Ok(()) => fs::rename(rt, unfinished, path),
        Err(error) => Err(error),
    };
    if placed.is_err() {
        // what is there is of no use
        let _ = fs::remove_file(rt, unfinished);
    }
    placed
}

/// Whether this name is free for the text: nothing has it, or a regular file.
fn is_free<R: Files<File = File>>(rt: &R, path: &str) -> io::Result<bool> {
    match fs::symlink_metadata(rt, path) {
        Ok(metadata) => Ok(metadata.is_file()),
        Err(error) if error.kind() == ErrorKind::NotFound => Ok(true),
        Err(error) => Err(error),
    }
}

/// Writes a text to a new file. A file of that name, as one that a killed run left, is removed
/// first; so nothing is written through a link.
fn write_new<R: Files<File = File>>(rt: &R, path: &str, text: &[u8]) -> io::Result<()> {
    if fs::symlink_metadata(rt, path).is_ok() {
        fs::remove_file(rt, path)?;
    }
    let mut file = OpenOptions::new()
        .write(true)
        .create_new(true)
        .open(rt, path)?;
    file.write_all(text)
}
