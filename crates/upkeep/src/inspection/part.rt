// A disk of which memory holds only the sectors that an inspection reads.
ghost use Rattle.std.specs.Prelude.{◌≡◌, ◌≤◌, ◌<◌, ◌↔◌, ◌^◌, ℕ, [], true, false, length};
ghost use Rattle.std.specs.Prelude.{slice_set, slice_index_or, IfSome, IsErrOf, OnOk};
ghost use Rattle.disk.specs.Disk.{Elapses, HasCause, IsSector, IsSynced};
ghost use Rattle.upkeep.specs.Part.{disk_of_part};

use crate::inspection::held::Held;
use crate::inspection::reading::hold_part;
use disk::{DiskFault, DiskPlan, MemDisk, SECTOR_BYTES, Sector, SectorDisk};
use std::alloc::Global;
use std::marker::Model;

/// Where the sectors of a disk are read from.
pub trait SectorSource {
    /// Reads adjacent sectors of 512 bytes, from sector `first` on, as many as `bytes` holds.
    /// Returns `Device` if they cannot be read.
    fn read_at(&mut self, first: u32, bytes: &mut [u8]) -> Result<(), DiskFault>;
}

/// A disk of which memory holds only some sectors, to be inspected.
///
/// A read of another sector fails with `Device`, so nothing that is read of this disk comes from a
/// sector that was not read from its source. It writes nothing: a write fails with `Device`, and so
/// does each sync after it.
///
/// Memory has 512 bytes for each sector that is held, and 5 bytes for each sector of the disk.
pub struct PartDisk {
    held: Held,
    dirty: Vec<bool>,
    is_written: bool,
    /// A disk whose calls fail: it counts the failures.
    failing: MemDisk,
    ghost numbered: { length held.items < 2 ^ 32 },
    ghost each: { length dirty.items ≡ length held.items },
    ghost whole: { (n : ℕ) → n < length held.items → IsSector (slice_index_or held.items n []) },
    ghost in_sync: { is_written ≡ false → IsSynced dirty.items },
    ghost fails: { failing.counts.stopped ≡ true },
}

impl Drop for PartDisk {
    fn drop(self) {
        let PartDisk {
            held: _,
            dirty: _,
            is_written: _,
            failing: _,
        } = self;
    }
}

impl Model for PartDisk {
    ghost use Rattle.upkeep.specs.Part.{PartState};

    ghost Value = { PartState };

    ghost view = { λ disk. record {
      reads = disk.held.items;
      held = disk.held.held;
      dirty = disk.dirty.items;
      sound = record { numbered = disk.numbered; each = disk.each; whole = disk.whole };
      failures = disk.failing.counts.failures;
    } };
}

impl PartDisk {
    /// Reads from the source of a disk with this many sectors what an inspection of it reads: the
    /// header; the gate and the first and last sector of each record; all of the first two records,
    /// of each record of an end, of the records from the last checkpoint on, and of the commit
    /// before the last 64.
    ///
    /// Returns `None` if the log has a seal, which an opening compares with all records before it,
    /// or no checkpoint; if it is damaged; or if the source or an allocation failed. A call reads
    /// three sectors for each record at once, and the whole records in pieces of 64 KiB.
    pub fn of<S: SectorSource>(alloc: Global, source: &mut S, sectors: u32) -> Option<PartDisk>
        ensures size { IfSome result (λ disk. length disk.reads ≡ sectors) }
        ensures in_sync { IfSome result (λ disk. IsSynced disk.dirty) }
    {
        let mut held = none_held(alloc, sectors)?;
        hold_part(alloc, source, &mut held)?;
        let dirty = no_dirty(alloc, held.count())?;
        let failing = failing_disk(alloc)?;
        Some(PartDisk {
            held,
            dirty,
            is_written: false,
            failing,
        })
    }

    /// Fails, and counts the failure.
    fn fail(&mut self) -> DiskFault
        ensures device { result ≡ DiskFault.Device }
        ensures more { self.old.failures < self.new.failures }
        ensures reads { self.new.reads ≡ self.old.reads }
        ensures held { self.new.held ≡ self.old.held }
        ensures dirty { self.new.dirty ≡ self.old.dirty }
    {
        match self.failing.sync() {
            Ok(()) => DiskFault::Device,
            Err(fault) => fault,
        }
    }
}

/// Returns `count` sectors, none of them held.
fn none_held(alloc: Global, count: u32) -> Option<Held>
    ensures { IfSome result (λ held. length held.items ≡ count) }
{
    match Held::none(alloc, count) {
        Ok(held) => Some(held),
        Err(_) => None,
    }
}

/// Returns that none of `count` sectors is dirty.
fn no_dirty(alloc: Global, count: u32) -> Option<Vec<bool>>
    ensures size { IfSome result (λ dirty. length dirty.items ≡ count) }
    ensures in_sync { IfSome result (λ dirty. IsSynced dirty.items) }
{
    match vec![in alloc; false; count as usize] {
        Ok(dirty) => Some(dirty),
        Err(_) => None,
    }
}

/// Returns a disk of one sector whose calls fail.
fn failing_disk(alloc: Global) -> Option<MemDisk>
    ensures stopped { IfSome result (λ disk. disk.counts.stopped ≡ true) }
{
    let bytes = vec![in alloc; 0; SECTOR_BYTES].ok()?;
    let plan = DiskPlan {
        fail: None,
        stop: Some(0),
    };
    let mut disk = MemDisk::of(alloc, bytes, plan).ok()?;
    match disk.write(0, &[0; SECTOR_BYTES]) {
        Ok(()) => None,
        Err(_) => Some(disk),
    }
}

impl SectorDisk for PartDisk {
    ghost use Rattle.upkeep.specs.Part.{disk_of_part};

    ghost state = { disk_of_part };

    ghost sound = { λ disk. disk.sound };

    fn sectors(&self) -> u32 {
        self.held.count()
    }

    #[tactic(auto, unfolding(disk::specs::Disk::left_since, disk::specs::Disk::moment))]
    fn read(&mut self, n: u32, sector: &mut Sector) -> Result<(), DiskFault>
        ensures content { OnOk result (slice_index_or self.old.reads n [] ≡ sector.new) }
        ensures same_reads { self.new.reads ≡ self.old.reads }
        ensures same_dirty { self.new.dirty ≡ self.old.dirty }
        ensures time { Elapses (disk_of_part self.old) (disk_of_part self.new) }
        ensures beyond { IsErrOf result DiskFault.NoSuchSector ↔ (length self.old.reads ≤ n) }
        ensures unchanged { IsErrOf result DiskFault.NoSuchSector → self.new ≡ self.old }
        ensures untouched { IsErrOf result DiskFault.NoSuchSector → sector.new ≡ sector.old }
        ensures cause { HasCause self.old.failures self.new.failures result }

        // only what is held is read
        ensures held { OnOk result (slice_index_or self.old.held n false ≡ true) }
    {
        if n >= self.held.count() {
            return Err(DiskFault::NoSuchSector);
        }
        match self.held.get(n) {
            Some(content) => {
                *sector = *content;
                Ok(())
            }
            None => Err(self.fail()),
        }
    }

    #[tactic(auto, unfolding(disk::specs::Disk::left_since, disk::specs::Disk::moment))]
    fn write(&mut self, n: u32, sector: &Sector) -> Result<(), DiskFault> {
        let _ = sector;
        if n >= self.held.count() {
            return Err(DiskFault::NoSuchSector);
        }
        self.is_written = true;
        self.dirty[n as usize] = true;
        Err(self.fail())
    }

    #[tactic(auto, unfolding(disk::specs::Disk::left_since, disk::specs::Disk::moment))]
    fn sync(&mut self) -> Result<(), DiskFault> {
        if self.is_written {
            return Err(self.fail());
        }
        Ok(())
    }
}
