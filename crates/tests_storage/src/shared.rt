// Shared by the tests: sectors filled with one byte, and the files of the tests.
use disk::{DiskFault, FileDisk, FileFault, SectorDisk};
use std::fs::File;
use std::path::{Path, PathBuf};
use std::test::Fail;
use std::{env, fs, io, process};

pub(crate) const NO_SECTOR: Result<(), DiskFault> = Err(DiskFault::NoSuchSector);

pub(crate) fn read<D: SectorDisk>(disk: &mut D, n: u32) -> Result<[u8; 512], DiskFault> {
    let mut sector = [9; 512];
    disk.read(n, &mut sector)?;
    Ok(sector)
}

/// Whether each of these sectors is filled with the byte beside it.
pub(crate) fn are_filled<D: SectorDisk>(
    disk: &mut D,
    sectors: &[(u32, u8)],
) -> Result<bool, DiskFault> {
    for (n, byte) in sectors {
        if read(disk, *n)? != [*byte; 512] {
            return Ok(false);
        }
    }
    Ok(true)
}

/// Fills each of these sectors with the byte beside it.
pub(crate) fn fill<D: SectorDisk>(disk: &mut D, sectors: &[(u32, u8)]) -> Result<(), DiskFault> {
    for (n, byte) in sectors {
        disk.write(*n, &[*byte; 512])?;
    }
    Ok(())
}

/// Fills these sectors, and syncs.
pub(crate) fn store<D: SectorDisk>(disk: &mut D, sectors: &[(u32, u8)]) -> Result<(), DiskFault> {
    fill(disk, sectors)?;
    disk.sync()
}

/// The byte that fills a sector of an image, if one does.
pub(crate) fn byte_of(image: &[u8], n: usize) -> Option<u8> {
    let sector = image.as_chunks::<512>().0.get(n)?;
    let byte = sector[0];
    if *sector == [byte; 512] {
        Some(byte)
    } else {
        None
    }
}

fn path_of(rt: &HostRuntime, name: &str) -> io::Result<PathBuf> {
    let name = format!(in rt.alloc(); "disk-of-tests-{}-{name}", process::id(rt.process()))?;
    Ok(env::temp_dir(rt)?.join(rt.alloc(), name.as_str())?)
}

/// Removes a file, if it is there. Returns whether it was.
pub(crate) fn removed(rt: &HostRuntime, path: &PathBuf) -> io::Result<bool> {
    let was = fs::exists(rt, path.as_path())?;
    if was {
        fs::remove_file(rt, path.as_path())?;
    }
    Ok(was)
}

/// Whether this holds of a path with no file. Removes the file that is there then.
pub(crate) fn on_file<F: Fn(&HostRuntime, &PathBuf) -> Result<bool, Fail>>(
    rt: &HostRuntime,
    name: &str,
    holds: F,
) -> Result<bool, Fail>
    requires { F.IsAlwaysCallable holds }
{
    let path = path_of(rt, name)?;
    // an earlier run may have left one
    removed(rt, &path)?;
    let is_so = holds(rt, &path)?;
    removed(rt, &path)?;
    Ok(is_so)
}

/// The path under which a new disk is made before it is renamed.
pub(crate) fn unfinished_path(rt: &HostRuntime, path: &PathBuf) -> io::Result<PathBuf> {
    let path = path.as_str();
    let name = format!(in rt.alloc(); "{path}.unfinished-disk")?;
    Ok(Path::new(name.as_str()).to_path_buf(rt.alloc())?)
}

/// Makes a file of zeros of this size.
pub(crate) fn make_file(rt: &HostRuntime, path: &PathBuf, bytes: u64) -> io::Result<()> {
    File::create(rt, path.as_path())?.set_len(bytes)
}

pub(crate) fn opened(
    rt: &HostRuntime,
    path: &PathBuf,
    sectors: Option<u32>,
) -> Result<FileDisk, FileFault> {
    FileDisk::open(rt, rt.alloc(), path.as_str(), sectors)
}

pub(crate) fn open_to_read(rt: &HostRuntime, path: &PathBuf) -> Result<FileDisk, FileFault> {
    FileDisk::open_to_read(rt, rt.alloc(), path.as_str())
}

/// Whether the file is refused as a disk of this number of sectors.
pub(crate) fn is_refused(
    rt: &HostRuntime,
    path: &PathBuf,
    sectors: Option<u32>,
) -> Result<bool, FileFault> {
    match opened(rt, path, sectors) {
        Ok(_disk) => Ok(false),
        Err(FileFault::File) => Ok(true),
        Err(fault) => Err(fault),
    }
}

/// Whether the disk that opens so has this number of sectors, and these are filled so.
pub(crate) fn has(
    rt: &HostRuntime,
    path: &PathBuf,
    sectors: Option<u32>,
    count: u32,
    filled: &[(u32, u8)],
) -> Result<bool, Fail> {
    let mut disk = opened(rt, path, sectors)?;
    Ok(disk.sectors() == count && are_filled(&mut disk, filled)?)
}

/// Whether a reader of the disk sees these sectors filled so.
pub(crate) fn is_seen(
    rt: &HostRuntime,
    path: &PathBuf,
    filled: &[(u32, u8)],
) -> Result<bool, Fail> {
    Ok(are_filled(&mut open_to_read(rt, path)?, filled)?)
}
