// The sectors of an image. Memory holds only those up to the last one that was put there.
ghost use Rattle.std.specs.Prelude.{◌≡◌, ◌+◌, ◌<◌, ◌≤◌, ◌^◌, ◌++◌, ℕ, List, [], true, length};
ghost use Rattle.std.specs.Prelude.{replicate, slice_set, slice_index_or, take, IfOk};
ghost use Rattle.disk.specs.Growth.{grown_to, zero_sectors};
ghost use Rattle.disk.specs.Disk.{zero_sector};

use crate::{SECTOR_BYTES, Sector};
use std::alloc::{AllocError, Global};
use std::marker::Model;

/// A list of sectors. The first ones are kept in memory, and those after them are zeros.
///
/// It reserves room for all of them when it is made, and the system provides the pages as they are
/// used. So no later call allocates, and sectors that were never put take no memory.
#[derive(Drop)]
pub struct Sectors {
    kept: Vec<Sector>,
    count: u32,
}

impl Model for Sectors {
    ghost use Rattle.disk.specs.KeptSectors.{SectorList, list_of, HasRoom};

    ghost Value = { SectorList };

    ghost view = { list_of };

    ghost invariant = { HasRoom };
}

/// Returns `count` sectors of zeros.
fn zeros(alloc: Global, count: u32) -> Result<Vec<Sector>, AllocError>
    ensures { IfOk result (λ sectors. sectors.items ≡ zero_sectors count) }
{
    vec![in alloc; [0; SECTOR_BYTES]; count as usize]
}

/// Returns the sectors of `front` followed by those of `behind`.
fn joined(alloc: Global, front: &[Sector], behind: &[Sector]) -> Result<Vec<Sector>, AllocError>
    requires { length front.now + length behind.now < 2 ^ 32 }
    ensures { IfOk result (λ all. all.items ≡ front.now ++ behind.now) }
{
    let mut all = Vec::with_capacity(alloc, front.len() + behind.len())?;
    all.extend_from_slice(front)?;
    all.extend_from_slice(behind)?;
    Ok(all)
}

fn is_zero(sector: &Sector) -> bool
    ensures { result ≡ true → sector.now ≡ zero_sector }
{
    *sector == [0; SECTOR_BYTES]
}

impl Sectors {
    /// Returns `count` sectors of zeros, none of them kept.
    pub fn blank(alloc: Global, count: u32) -> Result<Sectors, AllocError>
        ensures items { IfOk result (λ sectors. sectors.items ≡ zero_sectors count) }
    {
        let kept = Vec::with_capacity(alloc, count as usize)?;
        Ok(Sectors { kept, count })
    }

    /// Returns a copy of these sectors, all of them kept.
    pub fn of(alloc: Global, sectors: &[Sector]) -> Result<Sectors, AllocError>
        requires { length sectors.now < 2 ^ 32 }
        ensures items { IfOk result (λ all. all.items ≡ sectors.now) }
    {
        let mut kept = Vec::with_capacity(alloc, sectors.len())?;
        kept.extend_from_slice(sectors)?;
        Ok(Sectors {
            kept,
            count: sectors.len() as u32,
        })
    }

    /// Returns the same sectors, followed by zeros up to `count` sectors. It copies only the kept
    /// ones.
    pub fn grown(&self, alloc: Global, count: u32) -> Result<Sectors, AllocError>
        requires { length self.now.items ≤ count }
        ensures items { IfOk result (λ all. all.items ≡ grown_to count self.now.items) }
    {
        let mut kept = Vec::with_capacity(alloc, count as usize)?;
        kept.extend_from_slice(&self.kept)?;
        Ok(Sectors { kept, count })
    }

    /// Returns a copy of all sectors, including the zeros after the kept ones.
    pub fn copied(&self, alloc: Global) -> Result<Vec<Sector>, AllocError>
        ensures { IfOk result (λ all. all.items ≡ self.now.items) }
    {
        let behind = zeros(alloc, self.count - self.kept.len() as u32)?;
        joined(alloc, &self.kept, &behind)
    }

    pub fn count(&self) -> u32
        ensures { result ≡ length self.now.items }
    {
        self.count
    }

    /// Returns the kept sectors.
    pub fn kept(&self) -> &[Sector]
        ensures kept { length result.now ≡ self.now.kept }
        ensures first { result.now ≡ take self.now.kept self.now.items }
    {
        &self.kept
    }

    pub fn get(&self, n: usize) -> Sector
        requires { n < length self.now.items }
        ensures { result ≡ slice_index_or self.now.items n [] }
    {
        if n < self.kept.len() {
            self.kept[n]
        } else {
            [0; SECTOR_BYTES]
        }
    }

    /// Keeps the sectors up to and including sector `n`.
    pub fn keep(&mut self, n: usize)
        requires { n < length self.old.items }
        ensures items { self.new.items ≡ self.old.items }
        ensures kept { n < self.new.kept }
        ensures more { self.old.kept ≤ self.new.kept }
    {
        while self.kept.len() <= n {
            self.kept.push_reserved([0; SECTOR_BYTES]);
        }
    }

    /// Sets the content of sector `n`, and keeps it.
    pub fn put(&mut self, n: usize, sector: &Sector)
        requires { n < length self.old.items }
        ensures items { self.new.items ≡ slice_set self.old.items n sector.now }
        ensures more { self.old.kept ≤ self.new.kept }
    {
        self.keep(n);
        self.kept[n] = *sector;
    }

    /// Sets the content of sector `n`. If it is zeros and lies after the kept sectors, it is not
    /// kept.
    pub fn put_sparsely(&mut self, n: usize, sector: &Sector)
        requires { n < length self.old.items }
        ensures items { self.new.items ≡ slice_set self.old.items n sector.now }
        ensures more { self.old.kept ≤ self.new.kept }
    {
        if n < self.kept.len() || !is_zero(sector) {
            self.put(n, sector);
        }
    }
}
