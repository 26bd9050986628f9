// A session of three nodes behind bytes: a straggler, its rollback, an antimessage, and a commit.

use crate::opened::{END, formatted, ring};
use crate::steps::{MADE, steps_of};
use commitlog::Log;
use coordinator::Resumed;
use disk::MemDisk;
use loopback::resume_behind_bytes;
use models::TokenRing;
use recovery::recover;
use std::alloc::Global;
use std::test::Fail;

/// The disk after all the steps, if they are made and commit up to time 3.
fn stepped_disk(alloc: Global, ring: &TokenRing) -> Result<MemDisk, Fail> {
    let disk = formatted(alloc, ring)?;
    let steps = steps_of(alloc, MADE)?;
    match resume_behind_bytes(alloc, ring, 3, disk, END, steps.as_slice()) {
        Ok(
            Resumed {
                disk,
                time: Some(3),
                done: 13,
                fault: None,
            },
        ) => Ok(disk),
        Ok(_) => Err(Fail::from("other steps are made")),
        Err(_) => Err(Fail::from("no memory for the ports")),
    }
}

/// Whether the log on this disk has the front after all the steps.
fn is_committed(alloc: Global, ring: &TokenRing, disk: MemDisk) -> Result<bool, Fail> {
    let Ok(mut log) = Log::open(alloc, disk) else {
        return Err(Fail::from("the log is not opened"));
    };
    let front = recover(alloc, ring, &mut log, END)?;
    let numbers = [2, 2, 0].as_slice();
    Ok(front.g == 3 && front.log.as_slice().len() == 2 && front.numbers.as_slice() == numbers)
}

#[test]
fn three_nodes_behind_bytes_commit(rt: HostRuntime) -> Result<(), Fail> {
    // Three processes that hold each of two tokens for two ticks.
    let ring = ring();
    let disk = stepped_disk(rt.alloc(), &ring)?;
    assert!(rt; is_committed(rt.alloc(), &ring, disk)?);
    Ok(())
}
