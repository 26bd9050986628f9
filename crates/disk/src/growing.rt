// The trait of disks that grow, and its contract.
ghost use Rattle.std.specs.Prelude.{◌≡◌, ◌-◌, ◌<◌, ◌≤◌, List, ℕ, Bool, false, length, OnOk, OnErr};
ghost use Rattle.std.specs.Prelude.{IfErr};
ghost use Rattle.disk.specs.Disk.{IsSynced, LeavesOnly, moment, left_since};
ghost use Rattle.disk.specs.Growth.{grown_to, MayLeaveGrown, GrowthIsRefused, is_of_device};
ghost use Rattle.disk.specs.declared.growing.GrowthFault.TheVariants.{NoMemory};

use crate::SectorDisk;
use std::alloc::{AllocError, Global};
use thiserror::Error;

/// The minimum number of sectors of a file that is opened as a disk without a given size.
pub const LEAST_SECTORS: u32 = 8;

/// The default maximum number of sectors of a disk: 64 MiB, 512 bytes a sector.
pub const MOST_SECTORS: u32 = 131_072;

/// The maximum number of sectors of a large disk: 8 GiB, 512 bytes a sector.
pub const MOST_SECTORS_OF_LARGE: u32 = 16_777_216;

/// Why a disk did not grow.
#[derive(Clone, Copy, Debug, PartialEq, Eq, Error)]
pub enum GrowthFault {
    /// The disk already has more sectors than requested. It never shrinks.
    #[error("Fewer")]
    Fewer,
    /// The disk may not have this many sectors.
    #[error("TooMany")]
    TooMany,
    /// An allocation failed.
    #[error("NoMemory")]
    NoMemory,
    /// The device failed during this call.
    #[error("Device")]
    Device,
}

impl From<AllocError> for GrowthFault {
    ghost from_gives = { λ _ e. e ≡ NoMemory };

    fn from(_: AllocError) -> GrowthFault {
        GrowthFault::NoMemory
    }
}

/// A disk that can get more sectors.
pub trait GrowingDisk: SectorDisk {
    /// Appends sectors of zeros, of 512 bytes each, until the disk has `sectors` of them, and waits
    /// until these and all writes have reached the device. The disk may have at most `most`
    /// sectors. A crash at any moment of the call leaves what a crash before it could leave, alone
    /// or followed by some or all of the new sectors.
    ///
    /// Returns, in this order: `Fewer` if the disk has more than `sectors` sectors; `TooMany` if
    /// `sectors` is above `most`; `NoMemory`; `Device`. The first three leave the disk unchanged.
    /// After `Device` reads give what they gave before, the dirty sectors stay dirty, and the
    /// number of sectors that a crash leaves is unknown until the next successful sync.
    fn grow(&mut self, alloc: Global, sectors: u32, most: u32) -> Result<(), GrowthFault>
        ensures grown { OnOk result
            ((Self.state self.new).reads ≡ grown_to sectors (Self.state self.old).reads) }
        ensures in_sync { OnOk result (IsSynced (Self.state self.new).dirty) }
        ensures ok { OnOk result ((length (Self.state self.old).reads ≤ sectors)
            × (sectors ≤ most)) }

        // at each other exit
        ensures same_reads { OnErr result
            ((Self.state self.new).reads ≡ (Self.state self.old).reads) }
        ensures same_dirty { OnErr result
            ((Self.state self.new).dirty ≡ (Self.state self.old).dirty) }
        ensures refused { IfErr result (λ fault. GrowthIsRefused fault
            (length (Self.state self.old).reads) sectors most
            ((Self.state self.old).failures < (Self.state self.new).failures)) }
        ensures unchanged { IfErr result (λ fault. is_of_device fault ≡ false →
            self.new ≡ self.old) }

        // at every exit
        ensures any_moment { LeavesOnly (Self.state self.old) (Self.state self.new)
            (MayLeaveGrown (Self.state self.old).reads (Self.state self.old).dirty
            (sectors - length (Self.state self.old).reads)) }
        ensures still { (t : ℕ) (image : List (List ℕ)) → t ≤ moment (Self.state self.old) →
            left_since (Self.state self.old) t image → left_since (Self.state self.new) t image }

        // The device has failed during the call exactly if the call returns that fault.
        ensures failures { (Self.state self.old).failures ≤ (Self.state self.new).failures }
        ensures no_failure { OnOk result
            ((Self.state self.new).failures ≡ (Self.state self.old).failures) };
}
