use super::*;
use recovery::{Stop, behind_checkpoints, front_of, replay_log};

/// Where the replay of a log stops that has a record of this kind without a body after three
/// commits. An allocation failure ends the test.
fn stop_at(alloc: Global, kind: u8) -> Result<Option<Stop>, Fail> {
    let mut log = log_of_all(alloc)?;
    add(&mut log, kind, &[])?;
    if log.is_spent() {
        return Err(Fail::new("the log is spent"));
    }
    match replay_log(alloc, &ring(), &mut log, END) {
        Err(stop) if is_of_memory(&stop.fault) => Err(Fail::from(stop.fault)),
        other => Ok(other.err()),
    }
}

fn replayed(alloc: Global) -> Result<Front, Fail> {
    let mut log = log_of_all(alloc)?;
    if log.is_spent() {
        return Err(Fail::new("the log is spent"));
    }
    match replay_log(alloc, &ring(), &mut log, END) {
        Ok((world, time)) => Ok(front_of(alloc, world, time)?),
        Err(stop) => Err(Fail::from(stop.fault)),
    }
}

#[test]
fn a_replay_reaches_the_last_record(rt: HostRuntime) -> Result<(), Fail> {
    assert!(rt; replayed(rt.alloc())?.is_same(&front_at_the_end(rt.alloc())?));
    Ok(())
}

/// Whether the replay stops there with this fault.
fn stops(alloc: Global, kind: u8, fault: RecoveryFault) -> Result<bool, Fail> {
    Ok(stop_at(alloc, kind)? == Some(Stop { number: 3, fault }))
}

#[test]
fn a_replay_stops_at_the_record_at_fault(rt: HostRuntime) -> Result<(), Fail> {
    assert!(rt; stops(rt.alloc(), 1, RecoveryFault::BadRecord)?);
    assert!(rt; stops(rt.alloc(), 2, RecoveryFault::BadCheckpoint)?);
    Ok(())
}

/// Whether the place after the last checkpoint is this one once another checkpoint is appended.
fn is_behind(log: &mut Log<MemDisk>, place: usize) -> Result<bool, LogFault> {
    log.append(2, &[])?;
    Ok(!log.is_spent() && behind_checkpoints(log) == place)
}

fn is_found(alloc: Global) -> Result<bool, Fail> {
    let mut log = log_of_all(alloc)?;
    let is_none = !log.is_spent() && behind_checkpoints(&log) == 0;
    Ok(is_none && is_behind(&mut log, 4)? && is_behind(&mut log, 5)?)
}

#[test]
fn the_last_checkpoint_is_found(rt: HostRuntime) -> Result<(), Fail> {
    assert!(rt; is_found(rt.alloc())?);
    Ok(())
}
