use super::*;

// A device that fails once, at each of its operations in turn.

/// The image of a disk with a log of all events.
fn image_of_all(alloc: Global) -> Result<Vec<u8>, Fail> {
    let disk = log_of_all(alloc)?.into_disk();
    Ok(disk.crash(alloc, Torn::Old)?)
}

/// The log of a disk with this image, whose operation number `fail` fails, counted from 0.
fn failing_log(alloc: Global, image: &[u8], fail: u64) -> Result<Log<MemDisk>, RecoveryFault> {
    if image.len() > 1 << 20 {
        return Err(RecoveryFault::Log(LogFault::TooLong));
    }
    let plan = DiskPlan {
        fail: Some(fail),
        stop: None,
    };
    let disk = MemDisk::of(alloc, image.to_vec(alloc)?, plan)?;
    Ok(open(alloc, disk)?)
}

/// The effect of one failed operation.
#[derive(Clone, Copy, PartialEq, Eq)]
enum Met {
    /// The log is not opened.
    Unopened,
    /// The recovery is refused, and then the log is spent.
    Spent,
    /// The recovery does not reach that operation.
    Nothing,
    /// Anything else, which must not happen.
    Other,
}

const DEVICE: Option<RecoveryFault> = Some(RecoveryFault::Log(LogFault::Disk(DiskFault::Device)));

/// What a recovery meets, and a second one.
fn met_in(alloc: Global, log: &mut Log<MemDisk>) -> Result<Met, RecoveryFault> {
    let first = fault_of(recover(alloc, &ring(), log, END))?;
    if first.is_none() {
        return Ok(Met::Nothing);
    }
    let second = fault_of(recover(alloc, &ring(), log, END))?;
    let is_spent = first == DEVICE && second == Some(RecoveryFault::Log(LogFault::Spent));
    Ok(if is_spent { Met::Spent } else { Met::Other })
}

fn met_at(alloc: Global, image: &[u8], fail: u64) -> Result<Met, RecoveryFault> {
    match failing_log(alloc, image, fail) {
        Ok(mut log) => met_in(alloc, &mut log),
        Err(fault) if Some(fault) == DEVICE => Ok(Met::Unopened),
        Err(fault) => Err(fault),
    }
}

/// Whether each failure is met as it must be. Each of the three records takes at least one read,
/// and nothing after the last one is read.
fn are_met(alloc: Global, image: &[u8]) -> Result<bool, RecoveryFault> {
    let mut spending: u32 = 0;
    let mut recovers = false;
    for fail in 0..40 {
        match met_at(alloc, image, fail)? {
            Met::Unopened => (),
            Met::Spent => spending = spending.saturating_add(1),
            Met::Nothing => recovers = true,
            Met::Other => return Ok(false),
        }
    }
    Ok(spending >= 3 && recovers)
}

#[test]
fn a_device_failure_spends_the_log(rt: HostRuntime) -> Result<(), Fail> {
    assert!(rt; are_met(rt.alloc(), &image_of_all(rt.alloc())?)?);
    Ok(())
}
