// Growth: the disk of a model gets more sectors after its log, which stays the same.

ghost use Rattle.std.specs.Prelude.{◌≡◌};

mod disks;
mod laws;

use disk::GrowthFault;
pub use disks::{Grown, grow};
pub use laws::law_of_growth;
use recovery::RecoveryFault;
use thiserror::Error;

/// Why a disk has not grown.
#[derive(Clone, Copy, Debug, PartialEq, Eq, Error)]
pub enum GrowingFault {
    /// The log of the disk could not be read, or is not of this model. Nothing was written.
    #[error("{0}")]
    Recovery(RecoveryFault),
    /// The disk could not grow to this number of sectors.
    #[error("{0}")]
    Growth(GrowthFault),
}
