// A later end on a disk, with one allocation refused.

use crate::disks::{END, TEARINGS, ring};
use crate::refusals::crashed;
use crate::refusals::openings::{is_of_memory, look_at_crashes};
use crate::refusals::running::ran;
use coordinator::{Extended, SessionFault, extend};
use disk::{MemDisk, Returned};
use model::Model as Simulated;
use std::alloc::Global;
use std::process::Abort;
use std::test::Fail;

const LATER: u64 = 20;

/// Puts the later end in force. After an allocation failure the returned disk must be unchanged:
/// each crash of it opens under the end before, and a second call puts the later one in force.
fn carried_on<M: Simulated>(
    rt: &impl Abort,
    alloc: Global,
    model: &M,
    disk: MemDisk,
) -> Result<(Extended, MemDisk), Fail> {
    let Returned { disk, outcome } = extend(alloc, model, disk, LATER);
    let fault = match outcome {
        Ok(extended) => return Ok((extended, disk)),
        Err(fault) => fault,
    };
    assert!(rt; is_of_memory(&fault), "{fault}");
    look_at_crashes(rt, alloc, model, &disk, END)?;
    let Returned { disk, outcome } = extend(alloc, model, disk, LATER);
    match outcome {
        Ok(extended) => Ok((extended, disk)),
        Err(_again) => Err(Fail::from("the disk that was handed back is not extended")),
    }
}

/// Why the later end is refused on a disk, if it is; asked again after an allocation failure.
fn refusal<M: Simulated>(alloc: Global, model: &M, disk: MemDisk) -> Option<SessionFault> {
    let Returned { disk, outcome } = extend(alloc, model, disk, LATER);
    match outcome {
        Err(fault) if is_of_memory(&fault) => extend(alloc, model, disk, LATER).outcome.err(),
        outcome => outcome.err(),
    }
}

#[test]
fn a_disk_is_extended_after_a_refusal(rt: HostRuntime) -> Result<(), Fail> {
    for (sectors, every) in [(64, 0), (32, 3)] {
        let disk = ran(&rt, rt.alloc(), sectors, every)?;
        let model = ring();
        let (Extended { front, before }, disk) = carried_on(&rt, rt.alloc(), &model, disk)?;
        assert!(rt; front.g == END && before == END);
        for torn in TEARINGS {
            // each crash leaves the later end in force, so that it is refused a second time
            let left = crashed(rt.alloc(), &disk, torn)?;
            let refused = refusal(rt.alloc(), &model, left);
            assert!(rt; refused == Some(SessionFault::EndRefused), "{torn:?}");
        }
    }
    Ok(())
}
