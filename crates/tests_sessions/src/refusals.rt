// Sessions and commands with one allocation refused. A setup that meets the refusal is repeated.

mod extending;
mod openings;
mod plain_runner;
mod running;
mod stepping;

use crate::disks::disk_of;
use disk::{DiskPlan, MemDisk, Torn};
use std::alloc::{AllocError, Global};

fn torn_disk(alloc: Global, disk: &MemDisk, torn: Torn) -> Result<MemDisk, AllocError> {
    disk_of(alloc, disk.crash(alloc, torn)?, DiskPlan::default())
}

/// What a crash leaves of a disk.
fn crashed(alloc: Global, disk: &MemDisk, torn: Torn) -> Result<MemDisk, AllocError> {
    match torn_disk(alloc, disk, torn) {
        Err(AllocError) => torn_disk(alloc, disk, torn),
        left => left,
    }
}
