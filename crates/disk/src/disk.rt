// The trait of a disk of sectors, and its contract.
ghost use Rattle.std.specs.Prelude.{◌≡◌, ◌<◌, ◌≤◌, ◌↔◌, ◌⊎◌, List, ℕ, Bool, true, [], length};
ghost use Rattle.std.specs.Prelude.{slice_set, slice_index_or, OnOk, OnErr, IsErrOf};
ghost use Rattle.disk.specs.Disk.{DiskState, IsDisk, IsSector, IsSynced, MayLeave, Elapses, HasCause};
ghost use Rattle.disk.specs.Disk.{moment, left_since};
ghost use Rattle.disk.specs.Laws.{counts_now as now_counts, only_now as now_only};

use thiserror::Error;

/// The number of bytes of a sector.
pub const SECTOR_BYTES: usize = 512;

/// The content of a sector.
pub type Sector = [u8; SECTOR_BYTES];

/// Why a call of a disk was refused.
#[derive(Clone, Copy, Debug, PartialEq, Eq, Error)]
pub enum DiskFault {
    /// The device failed during this call.
    #[error("Device")]
    Device,
    /// The disk has no sector with this number. The call changed nothing.
    #[error("NoSuchSector")]
    NoSuchSector,
}

/// A disk of sectors of 512 bytes, numbered from 0.
///
/// A sector is dirty (`dirty`) if it was written since the last successful sync: a crash may leave
/// any 512 bytes in it. In every other sector a crash leaves what a read gives.
pub trait SectorDisk {
    /// What a read of each sector gives, which sectors are dirty, both of these at each earlier
    /// moment, and how often the device has failed.
    ghost state: { Self → DiskState };

    /// Returns the number of sectors.
    fn sectors(&self) -> u32
        ensures { result ≡ length (state self.now).reads };

    /// Reads sector `n`. `NoSuchSector` is checked before `Device`.
    fn read(&mut self, n: u32, sector: &mut Sector) -> Result<(), DiskFault>
        ensures content { OnOk result (slice_index_or (state self.old).reads n [] ≡ sector.new) }

        // at every exit
        ensures same_reads { (state self.new).reads ≡ (state self.old).reads }
        ensures same_dirty { (state self.new).dirty ≡ (state self.old).dirty }
        ensures time { Elapses (state self.old) (state self.new) }

        ensures beyond { IsErrOf result DiskFault.NoSuchSector
            ↔ (length (state self.old).reads ≤ n) }
        ensures unchanged { IsErrOf result DiskFault.NoSuchSector → self.new ≡ self.old }
        ensures untouched { IsErrOf result DiskFault.NoSuchSector → sector.new ≡ sector.old }
        ensures cause { HasCause (state self.old).failures (state self.new).failures result };

    /// Writes sector `n`, which is then dirty until a successful sync. A failed write also makes it
    /// dirty; reads then give some 512 bytes, the same ones until its next write. `NoSuchSector` is
    /// checked before `Device`.
    fn write(&mut self, n: u32, sector: &Sector) -> Result<(), DiskFault>
        ensures written { OnOk result
            ((state self.new).reads ≡ slice_set (state self.old).reads n sector.now) }

        // at every exit (setting past the end of a list changes nothing)
        ensures elsewhere { (state self.new).reads ≡ slice_set (state self.old).reads n
            (slice_index_or (state self.new).reads n []) }
        ensures loosened { (state self.new).dirty ≡ slice_set (state self.old).dirty n true }
        ensures time { Elapses (state self.old) (state self.new) }

        ensures beyond { IsErrOf result DiskFault.NoSuchSector
            ↔ (length (state self.old).reads ≤ n) }
        ensures unchanged { IsErrOf result DiskFault.NoSuchSector → self.new ≡ self.old }
        ensures cause { HasCause (state self.old).failures (state self.new).failures result };

    /// Waits until all writes have reached the device. If it fails, the dirty sectors stay dirty.
    fn sync(&mut self) -> Result<(), DiskFault>
        ensures in_sync { OnOk result (IsSynced (state self.new).dirty) }
        ensures err { OnErr result ((state self.new).dirty ≡ (state self.old).dirty) }

        // at every exit; a crash after the call leaves nothing that one before could not leave
        ensures same_reads { (state self.new).reads ≡ (state self.old).reads }
        ensures crash { (image : List (List ℕ)) →
            MayLeave (state self.new).reads (state self.new).dirty image →
            MayLeave (state self.old).reads (state self.old).dirty image }
        ensures time { Elapses (state self.old) (state self.new) }

        ensures there { IsErrOf result DiskFault.NoSuchSector → ⊥ }
        ensures cause { HasCause (state self.old).failures (state self.new).failures result };

    /// There are fewer than 2^32 sectors of 512 bytes, each of them dirty or not.
    ghost sound: { (disk : Self) → IsDisk (state disk).reads (state disk).dirty };

    /// What a crash may leave now counts among what a crash since an earlier moment may leave.
    ghost counts_now: { (disk : Self) (t : ℕ) (image : List (List ℕ)) → t ≤ moment (state disk) →
        MayLeave (state disk).reads (state disk).dirty image →
        left_since (state disk) t image } = { λ disk t image le left.
            now_counts (state disk) t image le left };

    /// A crash since the present moment leaves only what a crash now may leave.
    ghost only_now: { (disk : Self) (image : List (List ℕ)) →
        left_since (state disk) (moment (state disk)) image →
        MayLeave (state disk).reads (state disk).dirty image } = { λ disk image left.
            now_only (state disk) image left };
}

/// Writes sector `n`, and waits until it has reached the device. `NoSuchSector` is checked before
/// `Device`.
///
/// At every exit, a crash at some moment since before the write may have left any 512 bytes in the
/// sector. This holds after a successful sync too, when a crash now leaves exactly what was
/// written.
pub fn write_through<D: SectorDisk>(disk: &mut D, n: u32, sector: &Sector) -> Result<(), DiskFault>
    ensures written { OnOk result
        ((D.state disk.new).reads ≡ slice_set (D.state disk.old).reads n sector.now) }
    ensures in_sync { OnOk result (IsSynced (D.state disk.new).dirty) }
    ensures torn { (bytes : List ℕ) → n < length (D.state disk.old).reads → IsSector bytes →
        left_since (D.state disk.new) (moment (D.state disk.old))
        (slice_set (D.state disk.old).reads n bytes) }

    // at every exit
    ensures elsewhere { (D.state disk.new).reads ≡ slice_set (D.state disk.old).reads n
        (slice_index_or (D.state disk.new).reads n []) }
    ensures beyond { IsErrOf result DiskFault.NoSuchSector ↔ (length (D.state disk.old).reads ≤ n) }
    ensures cause { HasCause (D.state disk.old).failures (D.state disk.new).failures result }
{
    disk.write(n, sector)?;
    disk.sync()
}
