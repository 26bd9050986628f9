// A disk in memory with planned failures and crashes.
ghost use Rattle.std.specs.Prelude.{None, ◌≡◌, ◌*◌, ◌/◌, ◌<◌, ◌≤◌, ◌↔◌, ◌^◌, ℕ, Bool, List, []};
ghost use Rattle.std.specs.Prelude.{true, false, length, replicate, slice_set, slice_index_or};
ghost use Rattle.std.specs.Prelude.{◌++◌, take, drop};
ghost use Rattle.std.specs.Prelude.{OnOk, OnErr, IfOk, IsErrOf};
ghost use Rattle.disk.specs.Disk.{image_of, IsSynced, IsSector, MayLeave, Elapses, HasCause};
ghost use Rattle.disk.specs.Disk.{sector_bytes, zero_sector};

use crate::history::History;
use crate::image::Image;
use crate::plan::PlanProgress;
use crate::storing::copy_dirty;
use crate::{DiskFault, DiskPlan, GrowingDisk, GrowthFault, SECTOR_BYTES, Sector, SectorDisk};
use std::alloc::{AllocError, Global};
use std::marker::Model;

/// What a crash leaves in each dirty sector.
#[derive(Clone, Copy, Debug, PartialEq, Eq)]
pub enum Torn {
    /// The content at the last successful sync.
    Old,
    /// The content of the last write, failed or not.
    New,
    /// This byte, 512 times.
    Fill(u8),
    /// This number of first bytes of the last write, failed or not, and after them the content at
    /// the last successful sync. 512 or more is the same as [`New`](Torn::New).
    Cut(u16),
}

/// A disk in memory. Its calls fail by a [`DiskPlan`], and [`crash`](MemDisk::crash) returns what a
/// power cut would leave. Only its constructors, [`crash`](MemDisk::crash) and `grow` allocate.
pub struct MemDisk {
    image: Image,
    synced: Vec<Sector>,
    attempted: Vec<Sector>,
    schedule: PlanProgress,
    history: History,
}

// Not derived: with a derived `Drop`, each caller that drops a disk would have to prove again how
// its parts are dropped.
impl Drop for MemDisk {
    fn drop(self) {
        let MemDisk {
            image: _,
            synced: _,
            attempted: _,
            schedule: _,
            history: _,
        } = self;
    }
}

impl Model for MemDisk {
    ghost use Rattle.disk.specs.Memory.{MemoryState};

    ghost Value = { MemoryState };

    ghost use Rattle.disk.specs.MemoryInside.{state_of, IsMemoryKept};

    ghost view = { state_of };

    ghost invariant = { IsMemoryKept };
}

impl SectorDisk for MemDisk {
    ghost use Rattle.disk.specs.Memory.{disk_of_memory};
    ghost use Rattle.disk.specs.Plans.{fails, operation_counted, write_fails, write_counted};

    ghost state = { disk_of_memory };

    ghost sound = { λ disk. disk.sound };

    fn sectors(&self) -> u32 {
        self.image.count()
    }

    #[tactic(auto, unfolding(crate::specs::Disk::left_since, crate::specs::Disk::moment))]
    fn read(&mut self, n: u32, sector: &mut Sector) -> Result<(), DiskFault>
        ensures content { OnOk result (slice_index_or self.old.reads n [] ≡ sector.new) }
        ensures same_reads { self.new.reads ≡ self.old.reads }
        ensures same_dirty { self.new.dirty ≡ self.old.dirty }
        ensures time { Elapses (disk_of_memory self.old) (disk_of_memory self.new) }
        ensures beyond { IsErrOf result DiskFault.NoSuchSector ↔ (length self.old.reads ≤ n) }
        ensures unchanged { IsErrOf result DiskFault.NoSuchSector → self.new ≡ self.old }
        ensures untouched { IsErrOf result DiskFault.NoSuchSector → sector.new ≡ sector.old }
        ensures cause { HasCause self.old.counts.failures self.new.counts.failures result }

        // it fails by the plan
        ensures planned { n < length self.old.reads →
            (IsErrOf result DiskFault.Device ↔ (fails self.old.counts ≡ true)) }
        ensures counts { n < length self.old.reads →
            self.new.counts ≡ operation_counted self.old.counts }

        // what `crash` uses
        ensures same_synced { self.new.synced ≡ self.old.synced }
        ensures same_attempted { self.new.attempted ≡ self.old.attempted }
    {
        if n >= self.image.count() {
            return Err(DiskFault::NoSuchSector);
        }
        if self.schedule.fails() {
            return Err(DiskFault::Device);
        }
        *sector = self.image.sector(n);
        Ok(())
    }

    #[tactic(auto, unfolding(crate::specs::Disk::left_since, crate::specs::Disk::moment))]
    fn write(&mut self, n: u32, sector: &Sector) -> Result<(), DiskFault>
        ensures written { OnOk result (self.new.reads ≡ slice_set self.old.reads n sector.now) }
        ensures elsewhere { self.new.reads ≡ slice_set self.old.reads n
            (slice_index_or self.new.reads n []) }
        ensures loosened { self.new.dirty ≡ slice_set self.old.dirty n true }
        ensures time { Elapses (disk_of_memory self.old) (disk_of_memory self.new) }
        ensures beyond { IsErrOf result DiskFault.NoSuchSector ↔ (length self.old.reads ≤ n) }
        ensures unchanged { IsErrOf result DiskFault.NoSuchSector → self.new ≡ self.old }
        ensures cause { HasCause self.old.counts.failures self.new.counts.failures result }

        // it fails by the plan
        ensures planned { n < length self.old.reads →
            (IsErrOf result DiskFault.Device ↔ (write_fails self.old.counts ≡ true)) }
        ensures counts { n < length self.old.reads →
            self.new.counts ≡ write_counted self.old.counts }
        ensures failed { OnErr result (self.new.reads ≡ self.old.reads) }

        // what `crash` uses, at every exit
        ensures same_synced { self.new.synced ≡ self.old.synced }
        ensures attempted { self.new.attempted ≡ slice_set self.old.attempted n sector.now }
    {
        let place = n as usize;
        if n >= self.image.count() {
            return Err(DiskFault::NoSuchSector);
        }
        self.history = self.history.and(&self.image);
        self.attempted[place] = *sector;
        self.image.mark_dirty(n);
        if self.schedule.write_fails() {
            return Err(DiskFault::Device);
        }
        self.image.put(n, sector);
        Ok(())
    }

    #[tactic(auto, unfolding(crate::specs::Disk::left_since, crate::specs::Disk::moment))]
    fn sync(&mut self) -> Result<(), DiskFault>
        ensures in_sync { OnOk result (IsSynced self.new.dirty) }
        ensures err { OnErr result (self.new.dirty ≡ self.old.dirty) }
        ensures same_reads { self.new.reads ≡ self.old.reads }
        ensures crash { (image : List (List ℕ)) → MayLeave self.new.reads self.new.dirty image →
            MayLeave self.old.reads self.old.dirty image }
        ensures time { Elapses (disk_of_memory self.old) (disk_of_memory self.new) }
        ensures there { IsErrOf result DiskFault.NoSuchSector → ⊥ }
        ensures cause { HasCause self.old.counts.failures self.new.counts.failures result }

        // it fails by the plan
        ensures planned { IsErrOf result DiskFault.Device ↔ (fails self.old.counts ≡ true) }
        ensures counts { self.new.counts ≡ operation_counted self.old.counts }

        // what `crash` uses
        ensures synced { OnOk result (self.new.synced ≡ self.old.reads) }
        ensures not_synced { OnErr result (self.new.synced ≡ self.old.synced) }
        ensures same_attempted { self.new.attempted ≡ self.old.attempted }
    {
        if self.schedule.fails() {
            return Err(DiskFault::Device);
        }
        self.history = self.history.and(&self.image);
        let stored = copy_dirty(&mut self.synced, &self.image);
        self.image.settle(stored);
        Ok(())
    }
}

impl GrowingDisk for MemDisk {
    ghost use Rattle.std.specs.Prelude.{◌-◌, IfErr};
    ghost use Rattle.disk.specs.Disk.{LeavesOnly, moment, left_since};
    ghost use Rattle.disk.specs.Growth.{grown_to, MayLeaveGrown, GrowthIsRefused, is_of_device};
    ghost use Rattle.disk.specs.Memory.{disk_of_memory};
    ghost use Rattle.disk.specs.Plans.{fails, operation_counted};

    #[tactic(auto, unfolding(crate::specs::Disk::left_since, crate::specs::Disk::moment))]
    fn grow(&mut self, alloc: Global, sectors: u32, most: u32) -> Result<(), GrowthFault>
        ensures grown { OnOk result (self.new.reads ≡ grown_to sectors self.old.reads) }
        ensures in_sync { OnOk result (IsSynced self.new.dirty) }
        ensures ok { OnOk result ((length self.old.reads ≤ sectors) × (sectors ≤ most)) }
        ensures same_reads { OnErr result (self.new.reads ≡ self.old.reads) }
        ensures same_dirty { OnErr result (self.new.dirty ≡ self.old.dirty) }
        ensures refused { IfErr result (λ fault. GrowthIsRefused fault (length self.old.reads)
            sectors most (self.old.counts.failures < self.new.counts.failures)) }
        ensures unchanged { IfErr result (λ fault. is_of_device fault ≡ false →
            self.new ≡ self.old) }
        ensures any_moment { LeavesOnly (disk_of_memory self.old) (disk_of_memory self.new)
            (MayLeaveGrown self.old.reads self.old.dirty (sectors - length self.old.reads)) }
        ensures still { (t : ℕ) (image : List (List ℕ)) → t ≤ moment (disk_of_memory self.old) →
            left_since (disk_of_memory self.old) t image →
            left_since (disk_of_memory self.new) t image }
        ensures failures { self.old.counts.failures ≤ self.new.counts.failures }
        ensures no_failure { OnOk result (self.new.counts.failures ≡ self.old.counts.failures) }

        // it fails by the plan, and counts as one operation
        ensures planned { IsErrOf result GrowthFault.Device → fails self.old.counts ≡ true }
        ensures not_planned { OnOk result (fails self.old.counts ≡ false) }
        ensures counts { OnOk result (self.new.counts ≡ operation_counted self.old.counts) }
        ensures failed_counts { IsErrOf result GrowthFault.Device →
            self.new.counts ≡ operation_counted self.old.counts }

        // what `crash` uses
        ensures synced { OnOk result (self.new.synced ≡ self.new.reads) }
        ensures not_synced { OnErr result (self.new.synced ≡ self.old.synced) }
        ensures attempted { OnOk result (self.new.attempted ≡ self.new.reads) }
        ensures same_attempted { OnErr result (self.new.attempted ≡ self.old.attempted) }
    {
        if sectors < self.image.count() {
            return Err(GrowthFault::Fewer);
        }
        if sectors > most {
            return Err(GrowthFault::TooMany);
        }
        let grown = self.image.grown(alloc, sectors)?;
        let synced = grown.sectors.copied(alloc)?;
        let attempted = grown.sectors.copied(alloc)?;
        self.history = self.history.and_growth(&self.image, &grown);
        if self.schedule.fails() {
            return Err(GrowthFault::Device);
        }
        self.image = grown;
        self.synced = synced;
        self.attempted = attempted;
        Ok(())
    }
}

impl MemDisk {
    ghost use Rattle.disk.specs.Plans.{started};
    ghost use Rattle.disk.specs.Memory.{crash_content, IsCrashed};

    /// Makes a disk of this many sectors of zeros, with no planned failure. Returns `AllocError` if
    /// an allocation fails.
    pub fn blank(alloc: Global, sectors: u32) -> Result<MemDisk, AllocError>
        ensures reads { IfOk result (λ disk. disk.reads ≡ replicate sectors zero_sector) }
        ensures synced { IfOk result (λ disk. disk.synced ≡ disk.reads) }
        ensures attempted { IfOk result (λ disk. disk.attempted ≡ disk.reads) }
        ensures in_sync { IfOk result (λ disk. IsSynced disk.dirty) }
        ensures counts { IfOk result
            (λ disk. disk.counts ≡ started (record { fail = None; stop = None })) }
    {
        MemDisk::on(alloc, Image::blank(alloc, sectors)?, DiskPlan::default())
    }

    /// Makes a disk of the whole sectors of these bytes, fewer than 2^32, all of them synced.
    /// Returns `AllocError` if an allocation fails.
    pub fn of(alloc: Global, image: Vec<u8>, plan: DiskPlan) -> Result<MemDisk, AllocError>
        requires { length image.items / sector_bytes < 2 ^ 32 }
        ensures reads { IfOk result (λ disk. disk.reads ≡ image_of image.items) }
        ensures synced { IfOk result (λ disk. disk.synced ≡ disk.reads) }
        ensures attempted { IfOk result (λ disk. disk.attempted ≡ disk.reads) }
        ensures in_sync { IfOk result (λ disk. IsSynced disk.dirty) }
        ensures counts { IfOk result (λ disk. disk.counts ≡ started plan) }
    {
        let sectors = Image::of(alloc, &image)?;
        drop(image);
        MemDisk::on(alloc, sectors, plan)
    }

    fn on(alloc: Global, image: Image, plan: DiskPlan) -> Result<MemDisk, AllocError>
        ensures reads { IfOk result (λ disk. disk.reads ≡ image.sectors.items) }
        ensures synced { IfOk result (λ disk. disk.synced ≡ image.sectors.items) }
        ensures attempted { IfOk result (λ disk. disk.attempted ≡ image.sectors.items) }
        ensures dirty { IfOk result (λ disk. disk.dirty ≡ image.dirty.items) }
        ensures counts { IfOk result (λ disk. disk.counts ≡ started plan) }
    {
        let synced = image.sectors.copied(alloc)?;
        let attempted = image.sectors.copied(alloc)?;
        Ok(MemDisk {
            image,
            synced,
            attempted,
            schedule: PlanProgress::new(plan),
            history: History::new(),
        })
    }

    /// Returns the bytes that a crash leaves now, 512 for each sector. Returns `AllocError` if an
    /// allocation fails.
    pub fn crash(&self, alloc: Global, torn: Torn) -> Result<Vec<u8>, AllocError>
        ensures size { IfOk result (λ bytes. length bytes.items ≡ length self.now.reads * sector_bytes) }
        ensures image { IfOk result (λ bytes. IsCrashed torn self.now (image_of bytes.items)) }
        ensures left { IfOk result
            (λ bytes. MayLeave self.now.reads self.now.dirty (image_of bytes.items)) }
    {
        let count = self.image.count() as usize;
        let mut bytes = Vec::with_capacity(alloc, count * SECTOR_BYTES)?;
        for n in 0..count {
            bytes.extend_from_slice(&self.left_in(torn, n))?;
        }
        Ok(bytes)
    }

    /// Returns what a crash leaves in sector `n`.
    fn left_in(&self, torn: Torn, n: usize) -> Sector
        requires { n < length self.now.reads }
        ensures content { result ≡ crash_content torn self.now n }
        ensures whole { IsSector result }
    {
        if !self.image.dirty[n] {
            return self.image.sectors.get(n);
        }
        match torn {
            Torn::Old => self.synced[n],
            Torn::New => self.attempted[n],
            Torn::Fill(byte) => [byte; SECTOR_BYTES],
            Torn::Cut(count) => cut(usize::from(count), &self.attempted[n], &self.synced[n]),
        }
    }
}

/// Returns the first `count` bytes of `one`, followed by the rest of `other`.
fn cut(count: usize, one: &Sector, other: &Sector) -> Sector
    ensures { result ≡ take count one.now ++ drop count other.now }
{
    let count = count.min(SECTOR_BYTES);
    let mut sector = *other;
    sector[..count].copy_from_slice(&one[..count]);
    sector
}
