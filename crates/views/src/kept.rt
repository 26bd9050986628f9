// The text of its model that a disk keeps, in a file beside it: all sectors of its own file are those
// of its log.

ghost use Rattle.std.specs.Prelude.{◌≡◌, ◌++◌, codes, string_bytes, IfOk};

use crate::fault::ViewFault;
use crate::files::read_bytes;
use cli::ModelFile;
use std::alloc::{AllocError, Global};
use std::fs;
use std::rt::Files;

/// Returns the path of the text that a disk of this path keeps: that of the disk with `.model`
/// after it.
pub fn kept_name(alloc: Global, disk: &str) -> Result<String, AllocError>
    ensures { IfOk result (λ name. string_bytes name ≡ disk.now ++ codes ".model") }
{
    format!(in alloc; "{disk}.model")
}

/// Returns the disk beside which the model of a disk is kept: itself, but for a part of an archive
/// that has no text of its own the disk whose part it is.
pub fn keeper_of<'a, R>(rt: &R, disk: &'a str) -> Result<&'a str, AllocError>
where
    R: Files + AllocGlobal,
{
    let Some(whole) = whole_of(disk) else {
        return Ok(disk);
    };
    let own = kept_name(rt.alloc(), disk)?;
    if fs::exists(rt, own.as_str()).unwrap_or(true) {
        Ok(disk)
    } else {
        Ok(whole)
    }
}

/// The number of digits after the name of a disk in that of its part.
const DIGITS: usize = 13;

/// Returns the path of the disk of whose archive this is a part by its name: what comes before a
/// point and 13 digits at the end.
fn whole_of(path: &str) -> Option<&str> {
    let (whole, time) = path.rsplit_once('.')?;
    if time.len() == DIGITS && are_digits(time) {
        Some(whole)
    } else {
        None
    }
}

/// Whether a text has only decimal digits.
fn are_digits(text: &str) -> bool {
    for byte in text.as_bytes() {
        if !byte.is_ascii_digit() {
            return false;
        }
    }
    true
}

/// Returns the path of the file from which the model of a command is read: the text that a disk
/// keeps, or the model file.
pub fn model_path<R>(rt: &R, file: ModelFile<'_>) -> Result<String, AllocError>
where
    R: Files + AllocGlobal,
{
    match file.kept_by {
        Some(disk) => kept_name(rt.alloc(), keeper_of(rt, disk)?),
        None => String::from_str(rt.alloc(), file.path),
    }
}

/// Reads the text that a disk keeps of its model. Returns `File` if it keeps none, or if the file is
/// none of a model as for `read_model_file`; and `NoMemory`.
pub(crate) fn read_kept<R>(rt: &R, disk: &str) -> Result<Vec<u8>, ViewFault>
where
    R: Files + AllocGlobal,
{
    let path = kept_name(rt.alloc(), keeper_of(rt, disk)?)?;
    read_bytes(rt, path.as_str())
}

/// Returns the path of the text that a disk keeps of its model, if it keeps one.
pub(crate) fn kept_path<R>(rt: &R, disk: &str) -> Result<Option<String>, AllocError>
where
    R: Files + AllocGlobal,
{
    let path = kept_name(rt.alloc(), keeper_of(rt, disk)?)?;
    match fs::metadata(rt, path.as_str()) {
        Ok(found) if found.is_file() => Ok(Some(path)),
        _ => Ok(None),
    }
}
