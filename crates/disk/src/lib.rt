//! A disk of sectors of 512 bytes: what reads give, and what a crash may leave.
#![tactic(auto)]

mod disk;
mod file;
mod growing;
mod history;
mod image;
mod kept;
mod memory;
pub mod parts;
mod plan;
mod returned;
mod storing;
mod system;
mod tally;

pub use disk::{DiskFault, SECTOR_BYTES, Sector, SectorDisk, write_through};
pub use file::{FileDisk, FileError, FileFault, Room};
pub use growing::{GrowingDisk, GrowthFault, LEAST_SECTORS, MOST_SECTORS, MOST_SECTORS_OF_LARGE};
pub use memory::{MemDisk, Torn};
pub use plan::DiskPlan;
pub use returned::{NotOpened, Returned};
pub use system::SystemError;
