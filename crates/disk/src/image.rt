// The image of a disk in memory: its sectors, and which of them are dirty.
ghost use Rattle.std.specs.Prelude.{◌≡◌, ◌/◌, ◌<◌, ◌≤◌, ◌^◌, ℕ, List, [], true, false, length};
ghost use Rattle.std.specs.Prelude.{replicate, slice_set, slice_index_or, IfOk};
ghost use Rattle.disk.specs.Disk.{image_of, IsSynced, IsSector, IsSpan, sector_bytes, zero_sector};
ghost use Rattle.disk.specs.Growth.{grown_to};

use crate::kept::Sectors;
use crate::storing::Stored;
use crate::{SECTOR_BYTES, Sector};
use std::alloc::{AllocError, Global};

/// The sectors, whether each is dirty, and a span that contains all dirty ones. A sync scans only
/// the span, whose sectors are all kept.
#[derive(Drop)]
pub struct Image {
    pub sectors: Sectors,
    pub dirty: Vec<bool>,
    pub first: usize,
    pub end: usize,
    ghost each: { length dirty.items ≡ length sectors.items },
    ghost numbered: { length sectors.items < 2 ^ 32 },
    ghost whole: { (n : ℕ) → n < length sectors.items →
        IsSector (slice_index_or sectors.items n []) },
    ghost span: { IsSpan first end dirty.items },
    ghost kept: { end ≤ sectors.kept },
}

/// Marks the sectors of a span as synced.
fn clear(dirty: &mut [bool], first: usize, end: usize)
    requires { IsSpan first end dirty.old }
    ensures size { length dirty.new ≡ length dirty.old }
    ensures in_sync { IsSynced dirty.new }
{
    for n in first..end {
        dirty[n] = false;
    }
}

impl Image {
    /// Returns an image of zeros, with no dirty sector.
    pub fn blank(alloc: Global, count: u32) -> Result<Image, AllocError>
        ensures sectors { IfOk result
            (λ image. image.sectors.items ≡ replicate count zero_sector) }
        ensures in_sync { IfOk result (λ image. IsSynced image.dirty.items) }
    {
        Image::in_sync(alloc, Sectors::blank(alloc, count)?)
    }

    /// Returns an image of the whole sectors of these bytes, with no dirty sector.
    pub fn of(alloc: Global, bytes: &[u8]) -> Result<Image, AllocError>
        requires { length bytes.now / sector_bytes < 2 ^ 32 }
        ensures sectors { IfOk result (λ image. image.sectors.items ≡ image_of bytes.now) }
        ensures in_sync { IfOk result (λ image. IsSynced image.dirty.items) }
    {
        Image::of_sectors(alloc, bytes.as_chunks::<SECTOR_BYTES>().0)
    }

    fn of_sectors(alloc: Global, sectors: &[Sector]) -> Result<Image, AllocError>
        requires numbered { length sectors.now < 2 ^ 32 }
        requires whole { (n : ℕ) → n < length sectors.now →
            IsSector (slice_index_or sectors.now n []) }
        ensures sectors { IfOk result (λ image. image.sectors.items ≡ sectors.now) }
        ensures in_sync { IfOk result (λ image. IsSynced image.dirty.items) }
    {
        Image::in_sync(alloc, Sectors::of(alloc, sectors)?)
    }

    fn in_sync(alloc: Global, sectors: Sectors) -> Result<Image, AllocError>
        requires numbered { length sectors.items < 2 ^ 32 }
        requires whole { (n : ℕ) → n < length sectors.items →
            IsSector (slice_index_or sectors.items n []) }
        ensures sectors { IfOk result (λ image. image.sectors.items ≡ sectors.items) }
        ensures in_sync { IfOk result (λ image. IsSynced image.dirty.items) }
    {
        let dirty = vec![in alloc; false; sectors.count() as usize]?;
        Ok(Image {
            sectors,
            dirty,
            first: 0,
            end: 0,
        })
    }

    /// Returns the same sectors, followed by zeros up to `count` sectors. None of them is dirty.
    pub fn grown(&self, alloc: Global, count: u32) -> Result<Image, AllocError>
        requires { length self.now.sectors.items ≤ count }
        ensures sectors { IfOk result
            (λ image. image.sectors.items ≡ grown_to count self.now.sectors.items) }
        ensures in_sync { IfOk result (λ image. IsSynced image.dirty.items) }
    {
        Image::in_sync(alloc, self.sectors.grown(alloc, count)?)
    }

    pub fn count(&self) -> u32
        ensures { result ≡ length self.now.sectors.items }
    {
        self.sectors.count()
    }

    pub fn sector(&self, n: u32) -> Sector
        requires { n < length self.now.sectors.items }
        ensures { result ≡ slice_index_or self.now.sectors.items n [] }
    {
        self.sectors.get(n as usize)
    }

    /// Sets the content of sector `n`.
    pub fn put(&mut self, n: u32, sector: &Sector)
        requires { n < length self.old.sectors.items }
        ensures sectors { self.new.sectors.items ≡ slice_set self.old.sectors.items n sector.now }
        ensures dirty { self.new.dirty.items ≡ self.old.dirty.items }
    {
        self.sectors.put(n as usize, sector);
    }

    /// Sets the content of sector `n`. If it is zeros and lies after the kept sectors, it takes no
    /// memory.
    pub fn put_sparsely(&mut self, n: u32, sector: &Sector)
        requires { n < length self.old.sectors.items }
        ensures sectors { self.new.sectors.items ≡ slice_set self.old.sectors.items n sector.now }
        ensures dirty { self.new.dirty.items ≡ self.old.dirty.items }
    {
        self.sectors.put_sparsely(n as usize, sector);
    }

    pub fn mark_dirty(&mut self, n: u32)
        requires { n < length self.old.sectors.items }
        ensures sectors { self.new.sectors.items ≡ self.old.sectors.items }
        ensures dirty { self.new.dirty.items ≡ slice_set self.old.dirty.items n true }
    {
        let place = n as usize;
        self.sectors.keep(place);
        if self.first == self.end {
            self.first = place;
            self.end = place + 1;
        } else {
            self.first = self.first.min(place);
            self.end = self.end.max(place + 1);
        }
        self.dirty[place] = true;
    }

    /// Marks all sectors as synced. The token shows that the dirty ones are stored. It scans the
    /// span.
    pub fn settle(&mut self, _stored: Stored)
        ensures sectors { self.new.sectors.items ≡ self.old.sectors.items }
        ensures in_sync { IsSynced self.new.dirty.items }
    {
        clear(&mut self.dirty, self.first, self.end);
        self.first = 0;
        self.end = 0;
    }
}
