// Inspection: what a disk shows of its run, and the text of that.

mod checking;
mod counting;
mod fault;
mod held;
mod inspecting;
mod part;
mod reading;
mod writing;

pub use fault::InspectionFault;
pub use inspecting::{Inspection, Pace, inspect};
pub use part::{PartDisk, SectorSource};
pub use writing::write_inspection;
