// Plain runs that are stopped at each write or operation of their disk.

use crate::disks::{END, TEARINGS, disk_of, formatted, front_of, front_on, phold, ring};
use crate::histories::{Seen, fault_of, plain_plan, ring_run, sequential};
use disk::{DiskPlan, MemDisk, Returned, Torn};
use model::Model as Simulated;
use plain::{PlainFault, PlainPlan, Reached, run_plain};
use recovery::Front;
use std::alloc::Global;
use std::test::Fail;

/// Runs on an image, to at most 1,000 ticks, on a disk that fails by this plan.
fn run_on<M: Simulated>(
    alloc: Global,
    model: &M,
    image: Vec<u8>,
    end: u64,
    plan: PlainPlan,
    failures: DiskPlan,
    seen: &mut Seen,
) -> Result<Returned<MemDisk, Reached, PlainFault>, Fail> {
    let disk = disk_of(alloc, image, failures)?;
    Ok(run_plain(alloc, model, disk, end.clamp(1, 1000), plan, seen))
}

/// Whether an image has what was acknowledged, up to this time, and a run on it reaches this front.
fn is_carried_on<M: Simulated>(
    alloc: Global,
    model: &M,
    image: Vec<u8>,
    end: u64,
    plan: PlainPlan,
    acknowledged: u64,
    last: &Front,
) -> Result<bool, Fail> {
    let front = front_of(alloc, model, image.clone()?, end)?;
    let mut seen = Seen::default();
    let resumed = run_on(
        alloc,
        model,
        image,
        end,
        plan,
        DiskPlan::default(),
        &mut seen,
    )?;
    let is_done = resumed.outcome.is_ok();
    Ok(
        is_done
            && acknowledged <= front.g
            && front.g <= end
            && last.is_same(&front_on(alloc, model, &resumed.disk, end)?),
    )
}

/// Runs on a disk that fails by this plan, crashes it in each way, and runs each image to the end.
/// Returns whether the first run reached its end.
fn survives<M: Simulated>(
    alloc: Global,
    model: &M,
    end: u64,
    plan: PlainPlan,
    failures: DiskPlan,
    last: &Front,
) -> Result<bool, Fail> {
    let image = formatted(alloc, model, 64, end)?.crash(alloc, Torn::Old)?;
    let mut seen = Seen::default();
    let ran = run_on(alloc, model, image, end, plan, failures, &mut seen)?;
    for torn in TEARINGS {
        let left = ran.disk.crash(alloc, torn)?;
        if !is_carried_on(alloc, model, left, end, plan, seen.time, last)? {
            return Err(Fail::from("an acknowledged commit or the end is lost"));
        }
    }
    Ok(ran.outcome.is_ok())
}

/// Stops a run at each of its writes, or lets each of its operations fail. Returns how often.
fn stops<M: Simulated>(
    alloc: Global,
    model: &M,
    end: u64,
    plan: PlainPlan,
    is_failing: bool,
) -> Result<u64, Fail> {
    let last = sequential(alloc, model, end)?;
    for number in 0..1000 {
        let failures = DiskPlan {
            fail: if is_failing { Some(number) } else { None },
            stop: if is_failing { None } else { Some(number) },
        };
        if survives(alloc, model, end, plan, failures, &last)? {
            return Ok(number);
        }
    }
    Ok(1000)
}

#[test]
fn a_stop_at_any_write_loses_nothing_acknowledged(rt: HostRuntime) -> Result<(), Fail> {
    let plan = plain_plan(1, 2, u32::MAX);
    // Five commits of three writes and three checkpoints of three.
    let writes = stops(rt.alloc(), &ring(), END, plan, false)?;
    assert!(rt; writes == 21 && writes < stops(rt.alloc(), &ring(), END, plan, true)?);
    let plan = plain_plan(16, 1, u32::MAX);
    let writes = stops(rt.alloc(), &phold(), 12, plan, false)?;
    assert!(rt; 8 < writes && writes < stops(rt.alloc(), &phold(), 12, plan, true)?);
    Ok(())
}

#[test]
fn a_failed_device_is_named(rt: HostRuntime) -> Result<(), Fail> {
    let image = formatted(rt.alloc(), &ring(), 20, END)?.crash(rt.alloc(), Torn::Old)?;
    let failures = DiskPlan {
        fail: None,
        stop: Some(4),
    };
    let disk = disk_of(rt.alloc(), image, failures)?;
    let ran = ring_run(
        rt.alloc(),
        disk,
        plain_plan(1, 0, u32::MAX),
        &mut Seen::default(),
    );
    assert_eq!(rt; fault_of(ran.outcome)?, Some(PlainFault::Disk));
    Ok(())
}
