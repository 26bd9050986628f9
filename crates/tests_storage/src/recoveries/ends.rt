use super::*;
use recovery::{END as END_KIND, encode_end, end_of};

const LATER: u64 = 20;

const LATER_BODY: [u8; 8] = [0, 0, 0, 0, 0, 0, 0, 20];

/// A log with all events before the end, followed by these ends.
fn extended(alloc: Global, ends: &[u64]) -> Result<Log<MemDisk>, Fail> {
    let mut log = log_of_all(alloc)?;
    for end in ends {
        let body = encode_end(alloc, *end)?;
        log.append(END_KIND, body.as_slice())?;
    }
    Ok(log)
}

/// The fault of the recovery for the end that the records give, if there is one.
fn fault_under_its_end(
    alloc: Global,
    mut log: Log<MemDisk>,
) -> Result<Option<RecoveryFault>, RecoveryFault> {
    let end = end_of(alloc, &ring(), &mut log)?;
    fault_of(recover(alloc, &ring(), &mut log, end))
}

#[test]
fn an_end_has_eight_bytes(rt: HostRuntime) -> Result<(), Fail> {
    assert!(rt; encode_end(rt.alloc(), LATER)?.as_slice() == LATER_BODY.as_slice());
    Ok(())
}

/// Whether the end in force is this one once a record of an end with this body is appended.
fn is_in_force(
    alloc: Global,
    log: &mut Log<MemDisk>,
    body: &[u8],
    end: u64,
) -> Result<bool, RecoveryFault> {
    log.append(END_KIND, body)?;
    Ok(end_of(alloc, &ring(), log)? == end)
}

// A body of another length gives no end. A lower end counts here too.
fn are_in_force(alloc: Global) -> Result<bool, Fail> {
    let mut log = log_of_all(alloc)?;
    Ok(
        end_of(alloc, &ring(), &mut log)? == END
            && is_in_force(alloc, &mut log, &LATER_BODY, LATER)?
            && is_in_force(alloc, &mut log, &[0; 7], LATER)?
            && is_in_force(alloc, &mut log, &[0, 0, 0, 0, 0, 0, 0, 3], 3)?,
    )
}

#[test]
fn the_last_record_of_an_end_gives_the_end_in_force(rt: HostRuntime) -> Result<(), Fail> {
    assert!(rt; are_in_force(rt.alloc())?);
    Ok(())
}

fn is_not_read(alloc: Global) -> Result<bool, Fail> {
    let mut log = extended(alloc, &[LATER])?;
    let stated = end_of(alloc, &TokenRing::new(3, 2, 2), &mut log);
    Ok(fault_of(stated)? == Some(RecoveryFault::OtherModel))
}

#[test]
fn the_end_of_another_model_is_not_read(rt: HostRuntime) -> Result<(), Fail> {
    assert!(rt; is_not_read(rt.alloc())?);
    Ok(())
}

/// Whether a log for the later end recovers to the same front, and not for the earlier end.
fn is_of_the_later(alloc: Global) -> Result<bool, Fail> {
    let mut log = extended(alloc, &[LATER])?;
    let front = recover(alloc, &ring(), &mut log, LATER)?;
    let refused = fault_of(recover(alloc, &ring(), &mut log, END))?;
    Ok(refused == Some(RecoveryFault::OtherModel) && front.is_same(&front_at_the_end(alloc)?))
}

#[test]
fn a_later_end_does_not_change_the_world(rt: HostRuntime) -> Result<(), Fail> {
    assert!(rt; is_of_the_later(rt.alloc())?);
    Ok(())
}

/// The fault of events up to time 12 without a later end.
fn fault_of_late_events(alloc: Global) -> Result<Option<RecoveryFault>, Fail> {
    let log = log_of(alloc, &[(1, 0, 0), (7, 0, 3), (END, 3, 5), (12, 5, 6)])?;
    Ok(fault_in(alloc, log)?)
}

/// The front after events up to time 12 that follow a later end.
fn front_of_late_events(alloc: Global) -> Result<Front, Fail> {
    let mut log = extended(alloc, &[LATER])?;
    commit(alloc, &mut log, 12, &EVENTS[5..])?;
    Ok(recover(alloc, &ring(), &mut log, LATER)?)
}

/// Whether all six events are committed, and the seventh message is pending.
fn is_late(front: &Front) -> bool {
    let [message] = front.pending.as_slice() else {
        return false;
    };
    front.g == 12
        && front.log.as_slice().len() == 6
        && front.numbers.as_slice() == [3, 2, 2].as_slice()
        && message.time() == 13
}

#[test]
fn events_continue_after_a_later_end(rt: HostRuntime) -> Result<(), Fail> {
    assert!(rt; fault_of_late_events(rt.alloc())? == Some(RecoveryFault::GoesBack));
    assert!(rt; is_late(&front_of_late_events(rt.alloc())?));
    Ok(())
}

/// Whether a log with these ends is recovered, or has a bad end.
fn is_judged(alloc: Global, ends: &[u64], is_bad: bool) -> Result<bool, Fail> {
    let fault = fault_under_its_end(alloc, extended(alloc, ends)?)?;
    Ok(
        fault
            == if is_bad {
                Some(RecoveryFault::BadEnd)
            } else {
                None
            },
    )
}

/// Ends, and whether they are bad.
const ENDS: [(u64, bool); 6] = [
    (0, true),
    (9, true),
    (END, true),
    ((1 << 40) + 1, true),
    (END + 1, false),
    (1 << 40, false),
];

fn are_judged(alloc: Global) -> Result<bool, Fail> {
    for (end, is_bad) in ENDS {
        if !is_judged(alloc, &[end], is_bad)? {
            return Ok(false);
        }
    }
    is_judged(alloc, &[LATER, LATER], true)
}

#[test]
fn ends_increase_up_to_the_limit(rt: HostRuntime) -> Result<(), Fail> {
    assert!(rt; are_judged(rt.alloc())?);
    Ok(())
}

/// Whether a record of an end with this body is a bad record.
fn is_bad_record(alloc: Global, body: &[u8]) -> Result<bool, Fail> {
    let mut log = log_of_all(alloc)?;
    log.append(END_KIND, body)?;
    Ok(fault_under_its_end(alloc, log)? == Some(RecoveryFault::BadRecord))
}

#[test]
fn an_end_of_another_length_is_a_bad_record(rt: HostRuntime) -> Result<(), Fail> {
    assert!(rt; is_bad_record(rt.alloc(), &[])?);
    assert!(rt; is_bad_record(rt.alloc(), &[0; 7])? && is_bad_record(rt.alloc(), &[0; 9])?);
    Ok(())
}
