// What a store puts into a real file, and the fault when the file refuses.

use crate::shared::{on_file, open_to_read, opened};
use disk::{DiskFault, FileDisk, SectorDisk, SystemError};
use std::io::Error as IoError;
use std::path::PathBuf;
use std::test::Fail;
use std::{fs, io};

/// A sector that starts with its number.
fn sector_of(n: u32) -> [u8; 512] {
    let mut sector = [(n % 251) as u8; 512];
    for (byte, digit) in sector.iter_mut().zip(n.to_be_bytes()) {
        *byte = digit;
    }
    sector
}

/// Stores these sectors in a disk of 400.
fn store(rt: &HostRuntime, path: &PathBuf, first: u32, end: u32) -> Result<(), Fail> {
    let mut disk = opened(rt, path, Some(400))?;
    for n in first..end {
        disk.write(n, &sector_of(n))?;
    }
    Ok(disk.sync()?)
}

/// Whether the file has 400 sectors, these filled so and the others with zeros.
fn are_stored(rt: &HostRuntime, path: &PathBuf, first: u32, end: u32) -> io::Result<bool> {
    Ok(are_numbered(&fs::read(rt, path.as_path())?, first, end))
}

fn are_numbered(bytes: &[u8], first: u32, end: u32) -> bool {
    let (sectors, rest) = bytes.as_chunks::<512>();
    for n in 0..400u32 {
        let is_filled = n >= first && n < end;
        let expected = if is_filled { sector_of(n) } else { [0; 512] };
        if sectors.get(n as usize) != Some(&expected) {
            return false;
        }
    }
    sectors.len() == 400 && rest.is_empty()
}

fn are_all_stored(rt: &HostRuntime, path: &PathBuf) -> Result<bool, Fail> {
    store(rt, path, 50, 350)?;
    Ok(are_stored(rt, path, 50, 350)?)
}

#[test]
fn three_hundred_neighbours_are_stored(rt: HostRuntime) -> Result<(), Fail> {
    assert!(rt; on_file(&rt, "neighbours", are_all_stored)?);
    Ok(())
}

/// Whether each sync of a disk that was opened to be read fails once a sector is written, and the
/// system's words are kept.
fn is_refused(disk: &mut FileDisk) -> Result<bool, DiskFault> {
    disk.write(3, &sector_of(4))?;
    Ok(
        disk.last_error().is_none()
            && disk.sync() == Err(DiskFault::Device)
            && disk.sync() == Err(DiskFault::Device)
            && disk.last_error() == SystemError::of(&IoError::from_raw_os_error(9)),
    )
}

fn is_not_stored(rt: &HostRuntime, path: &PathBuf) -> Result<bool, Fail> {
    store(rt, path, 3, 4)?;
    Ok(is_refused(&mut open_to_read(rt, path)?)? && are_stored(rt, path, 3, 4)?)
}

#[test]
fn a_sync_fails_if_the_file_refuses_it(rt: HostRuntime) -> Result<(), Fail> {
    assert!(rt; on_file(&rt, "read-only", is_not_stored)?);
    Ok(())
}
