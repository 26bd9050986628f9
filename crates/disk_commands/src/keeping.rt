// The text of its model that a new disk keeps, in a file beside it.
//
// It is written before the gate of the disk's header is opened, under a name of its own, and renamed
// once it has reached the device. So a crash leaves a disk without a log, or one with its model.

ghost use Rattle.disk.specs.Disk.{OnlyLooks};
ghost use Rattle.disk.specs.FileDisks.{disk_of_file};

use crate::disks::is_formatted;
use crate::fault::Fault;
use crate::said::SystemErrors;
use disk::{FileDisk, SystemError};
use std::fs::{self, File, OpenOptions};
use std::io::{Error as IoError, ErrorKind, Read, Result as IoResult, Write};
use std::path::Path;
use std::rt::Files;
use terminal::FileRefusal;
use views::{kept_name, unreadable};

/// What a new disk keeps of its model.
#[derive(Clone, Copy)]
pub struct Keeping<'a> {
    /// The path of the disk.
    disk: &'a str,
    /// The text of the model; none if the disk does not keep it.
    text: Option<&'a [u8]>,
    /// Whether there is no file of the disk yet.
    is_new: bool,
}

/// Returns the text that a new disk keeps, if it is to keep it.
pub fn text_to_keep(is_kept: bool, text: &[u8]) -> Option<&[u8]> {
    if is_kept { Some(text) } else { None }
}

impl<'a> Keeping<'a> {
    /// What the disk at a path keeps, before it is made: this text, or nothing.
    ///
    /// Returns `File` if something else than this text is there already, or the system does not say
    /// what; and `NoMemory`.
    pub fn of<R>(
        rt: &R,
        disk: &'a str,
        text: Option<&'a [u8]>,
        said: &SystemErrors,
    ) -> Result<Keeping<'a>, Fault>
    where
        R: Files<File = File> + AllocGlobal,
    {
        let is_new = !fs::exists(rt, disk).unwrap_or(true);
        if let Some(text) = text {
            let _there = is_kept(rt, disk, text, said)?;
        }
        Ok(Keeping { disk, text, is_new })
    }

    /// Writes the text beside the disk, whose lock the caller has, unless the disk has a log already.
    /// What is there is never written over. If it is not written, a disk whose file was not there
    /// before is removed.
    ///
    /// The faults are those of `of`.
    pub fn write<R>(&self, rt: &R, made: &mut FileDisk, said: &SystemErrors) -> Result<(), Fault>
    where
        R: Files<File = File> + AllocGlobal,
        ensures looks { OnlyLooks (disk_of_file made.old) (disk_of_file made.new) }
    {
        let has_log = is_formatted(made).unwrap_or(true);
        match self.text {
            Some(text) if !has_log => self.keep(rt, text, said),
            _ => Ok(()),
        }
    }

    /// Writes this text, or removes the new disk.
    fn keep<R>(&self, rt: &R, text: &[u8], said: &SystemErrors) -> Result<(), Fault>
    where
        R: Files<File = File> + AllocGlobal,
    {
        let kept = keep(rt, self.disk, text, said);
        if kept.is_err() && self.is_new {
            let _gone = fs::remove_file(rt, self.disk);
        }
        kept
    }
}

/// Writes the text that a disk keeps, unless it is there already.
fn keep<R>(rt: &R, disk: &str, text: &[u8], said: &SystemErrors) -> Result<(), Fault>
where
    R: Files<File = File> + AllocGlobal,
{
    if is_kept(rt, disk, text, said)? {
        return Ok(());
    }
    let unfinished = format!(in rt.alloc(); "{disk}.unfinished-model")?;
    take_unfinished(rt, unfinished.as_str(), text, said)?;
    match place(rt, disk, unfinished.as_str(), text) {
        Ok(()) => Ok(()),
        Err(error) => Err(not_kept(error, said)),
    }
}

/// Whether a disk keeps this text already. Returns `File` if there is something else.
fn is_kept<R>(rt: &R, disk: &str, text: &[u8], said: &SystemErrors) -> Result<bool, Fault>
where
    R: Files<File = File> + AllocGlobal,
{
    let path = kept_name(rt.alloc(), disk)?;
    match bytes_at(rt, path.as_str(), text.len()) {
        Ok(Some(bytes)) if bytes.as_slice() == text => Ok(true),
        Ok(_) => Err(said.refuse(FileRefusal::KeptOther)),
        Err(error) if error.kind() == ErrorKind::NotFound => Ok(false),
        Err(error) => Err(not_kept(error, said)),
    }
}

/// Removes the unfinished file that a killed command left: one that holds a beginning of the text.
/// Returns `File` if anything else has its name.
fn take_unfinished<R>(rt: &R, path: &str, text: &[u8], said: &SystemErrors) -> Result<(), Fault>
where
    R: Files<File = File> + AllocGlobal,
{
    let left = match bytes_at(rt, path, text.len()) {
        Ok(Some(bytes)) if text.starts_with(bytes.as_slice()) => fs::remove_file(rt, path),
        Ok(_) => return Err(said.refuse(FileRefusal::KeptUnfinished)),
        Err(error) => Err(error),
    };
    match left {
        Err(error) if error.kind() != ErrorKind::NotFound => Err(not_kept(error, said)),
        _ => Ok(()),
    }
}

/// Returns the bytes of an ordinary file, of which at most one more than `most` are read; none of
/// anything else.
fn bytes_at<R>(rt: &R, path: &str, most: usize) -> IoResult<Option<Vec<u8>>>
where
    R: Files<File = File> + AllocGlobal,
{
    if !fs::symlink_metadata(rt, path)?.is_file() {
        return Ok(None);
    }
    let mut bytes = Vec::new(rt.alloc());
    let file = fs::open(rt, path)?;
    file.take((most as u64).saturating_add(1))
        .read_to_end(&mut bytes)?;
    Ok(Some(bytes))
}

/// Writes a text to a new file, and gives it the name of the model that a disk keeps. Both have
/// reached the device when the call returns. If it fails before, no file is left.
fn place<R>(rt: &R, disk: &str, unfinished: &str, text: &[u8]) -> IoResult<()>
where
    R: Files<File = File> + AllocGlobal,
{
    let path = kept_name(rt.alloc(), disk)?;
    let placed = match write_new(rt, unfinished, text) {
        Ok(()) => fs::rename(rt, unfinished, path.as_str()),
        Err(error) => Err(error),
    };
    if placed.is_err() {
        // what is there is of no use
        let _gone = fs::remove_file(rt, unfinished);
        return placed;
    }
    sync_folder(rt, path.as_str())
}

/// Writes a text to a new file, and waits until it has reached the device.
fn write_new<R: Files<File = File>>(rt: &R, path: &str, text: &[u8]) -> IoResult<()> {
    let mut file = OpenOptions::new()
        .write(true)
        .create_new(true)
        .open(rt, path)?;
    file.write_all(text)?;
    file.sync_all()
}

/// Waits until the names in the folder of a path have reached the device.
fn sync_folder<R: Files<File = File>>(rt: &R, path: &str) -> IoResult<()> {
    let folder = match Path::new(path).parent() {
        Some(folder) if !folder.as_str().is_empty() => folder,
        _ => Path::new("."),
    };
    File::open(rt, folder)?.sync_all()
}

/// Returns why a text is not kept: `NoMemory` if an allocation failed, otherwise `File`, with what
/// the system says.
fn not_kept(error: IoError, said: &SystemErrors) -> Fault {
    match SystemError::of(&error) {
        Some(system) if error.kind() != ErrorKind::OutOfMemory => {
            said.refuse(FileRefusal::NotKept(system))
        }
        _ => Fault::from(unreadable(error)),
    }
}
