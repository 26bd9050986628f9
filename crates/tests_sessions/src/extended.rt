// Disks that go on past the end for which they were made.

use crate::disks::{END, disk_of, left_by, phold, plan, reached, ring};
use crate::histories::after;
use coordinator::{SessionFault, extend};
use disk::{DiskPlan, MemDisk, Returned, Torn};
use std::alloc::Global;
use std::test::Fail;

/// The first end is 60, and the last one 200.
const HISTORIES: &str = "\
    run 2 7 0 all, extend 200, run 5 1 0 all\n\
    extend 61, extend 200, run 1 7 1 3, run 5 7 0 all\n\
    run 3 7 2 4, extend 150, run 2 7 1 all, extend 200, run 1 7 3 all\n\
    run 1 7 1 all, extend 61, run 2 1 1 all, extend 200, run 4 7 0 3, run 2 7 0 all\n\
    extend 200, run 2 7 1 all\n\
";

#[test]
fn each_history_reaches_the_last_end(rt: HostRuntime) -> Result<(), Fail> {
    let model = phold();
    let plain = reached(rt.alloc(), &model, 16_384, 200, plan(1, 7, 0))?;
    assert!(rt; plain.g == 200 && plain.log.as_slice().len() == 562);
    for calls in HISTORIES.lines() {
        let front = after(rt.alloc(), &model, 16_384, (60, 200), calls)?;
        assert!(rt; plain.is_same(&front), "{calls}");
    }
    Ok(())
}

/// The disk that a run of the ring leaves.
fn ended(alloc: Global) -> Result<MemDisk, Fail> {
    let (disk, _fault) = left_by(alloc, &ring(), 14, END, plan(3, 16, 0))?;
    Ok(disk)
}

/// Why this end is refused, if it is. Fails if a refusal writes.
fn refusal(alloc: Global, end: u64) -> Result<Option<SessionFault>, Fail> {
    let image = ended(alloc)?.crash(alloc, Torn::Old)?;
    let disk = disk_of(alloc, image.clone()?, DiskPlan::default())?;
    let Returned { disk, outcome } = extend(alloc, &ring(), disk, end);
    match outcome {
        Ok(_extended) => Ok(None),
        Err(fault) => {
            if disk.crash(alloc, Torn::New)?.as_slice() != image.as_slice() {
                return Err(Fail::from("the disk is changed"));
            }
            Ok(Some(fault))
        }
    }
}

#[test]
fn an_end_that_is_not_later_writes_nothing(rt: HostRuntime) -> Result<(), Fail> {
    for end in [0, 9, 10, (1 << 40) + 1, u64::MAX] {
        assert!(rt;
            refusal(rt.alloc(), end)? == Some(SessionFault::EndRefused),
            "{end}"
        );
    }
    assert!(rt; refusal(rt.alloc(), 1 << 40)?.is_none());
    Ok(())
}
