// Writing dirty sectors to the device.

ghost use Rattle.std.specs.Prelude.{◌≡◌, ◌≤◌, ◌<◌, ◌*◌, ℕ, [], false, not, length, slice_index_or};
ghost use Rattle.disk.specs.FileDisks.{IsNextRun};
ghost use Rattle.disk.specs.Disk.{sector_bytes};

use crate::image::Image;
use crate::{SECTOR_BYTES, Sector};
use std::fs::OpenFile;
use std::io;
use std::os::unix::fs::FileExt;

/// A token: the dirty sectors of an image have reached the device. Only this module makes one, so
/// code that marks the sectors as synced must have stored them.
#[derive(Drop)]
pub struct Stored(());

/// Writes the dirty sectors to the file, and waits until they have reached the device. It scans the
/// span from the first dirty sector to the last.
pub fn store<F: FileExt + OpenFile>(file: &F, image: &Image) -> io::Result<Stored> {
    let mut from = image.first;
    while from < image.end {
        let (first, behind) = next_run(&image.dirty, from, image.end);
        store_run(file, &image.sectors.kept()[first..behind], first as u32)?;
        from = behind;
    }
    file.sync_data()?;
    Ok(Stored(()))
}

/// Stores the dirty sectors, then sets the file's size to `sectors` sectors and waits until the
/// size has reached the device.
pub fn lengthen<F: FileExt + OpenFile>(
    file: &F,
    image: &Image,
    sectors: u32,
) -> io::Result<Stored> {
    let stored = store(file, image)?;
    resize(file, sectors)?;
    Ok(stored)
}

/// Sets the file's size to `sectors` sectors, and waits until it has reached the device.
fn resize<F: OpenFile>(file: &F, sectors: u32) -> io::Result<()> {
    file.set_len(offset(sectors))?;
    file.sync_all()
}

/// Stores the dirty sectors for a sync. If the file may be longer than the image, it first restores
/// the file's size.
pub fn shorten<F: FileExt + OpenFile>(file: &F, image: &Image, longer: bool) -> io::Result<Stored> {
    if longer {
        resize(file, image.count())?;
    }
    store(file, image)
}

/// How many sectors of zeros one system call writes: 64 KiB.
const PIECE: u32 = 128;

/// Writes `count` sectors of zeros to the file, from its beginning.
pub fn reserve<F: FileExt>(file: &F, count: u32) -> io::Result<()> {
    let zeros = [[0; SECTOR_BYTES]; PIECE as usize];
    for piece in 0..count / PIECE {
        store_run(file, &zeros, piece * PIECE)?;
    }
    let rest = count % PIECE;
    store_run(file, &zeros[..rest as usize], count - rest)
}

/// Writes adjacent sectors by one system call, and makes no call if there are none.
fn store_run<F: FileExt>(file: &F, sectors: &[Sector], first: u32) -> io::Result<()> {
    if sectors.is_empty() {
        return Ok(());
    }
    file.write_all_at(sectors.as_flattened(), offset(first))
}

/// Stores the dirty sectors of a disk without a device: copies them to `synced`.
pub fn copy_dirty(synced: &mut [Sector], image: &Image) -> Stored
    requires each { length synced.old ≡ length image.now.sectors.items }
    requires in_sync { (n : ℕ) → slice_index_or image.now.dirty.items n false ≡ false →
        slice_index_or synced.old n [] ≡ slice_index_or image.now.sectors.items n [] }
    ensures { synced.new ≡ image.now.sectors.items }
{
    for n in image.first..image.end {
        if image.dirty[n] {
            synced[n] = image.sectors.get(n);
        }
    }
    Stored(())
}

/// Returns the first index in `from..end` whose sector is not dirty (if `is`) or is dirty (if not
/// `is`), or `end` if there is none.
fn alike_up_to(dirty: &[bool], from: usize, end: usize, is: bool) -> usize
    requires order { from ≤ end }
    requires within { end ≤ length dirty.now }
    ensures order { (from ≤ result) × (result ≤ end) }
    ensures alike { (n : ℕ) → from ≤ n → n < result → slice_index_or dirty.now n false ≡ is }
    ensures stops { result < end → slice_index_or dirty.now result false ≡ not is }
{
    for n in from..end {
        if dirty[n] != is {
            return n;
        }
    }
    end
}

/// Returns the first run of adjacent dirty sectors in `from..end`: the index of its first sector,
/// and the index after its last one. Both are `end` if there is none.
fn next_run(dirty: &[bool], from: usize, end: usize) -> (usize, usize)
    requires order { from ≤ end }
    requires within { end ≤ length dirty.now }
    ensures { IsNextRun dirty.now from end result.0 result.1 }
{
    let first = alike_up_to(dirty, from, end, false);
    (first, alike_up_to(dirty, first, end, true))
}

/// Returns the offset of a sector in a file, in bytes. For the number of sectors, this is the
/// file's size.
pub fn offset(n: u32) -> u64
    ensures { result ≡ n * sector_bytes }
{
    u64::from(n) * SECTOR_BYTES as u64
}
