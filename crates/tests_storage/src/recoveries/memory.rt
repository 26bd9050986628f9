use super::*;

// An allocation failure leaves the log unchanged, and a second call succeeds. With enough memory
// the first call succeeds; `rt try --test --fail-alloc N` refuses each allocation in turn.

/// Recovers the ring; a second time after an allocation failure that did not spend the log.
fn recovered_again(alloc: Global, log: &mut Log<MemDisk>) -> Result<Front, RecoveryFault> {
    match recover(alloc, &ring(), log, END) {
        Err(fault) if is_of_memory(&fault) && !log.is_spent() => recover(alloc, &ring(), log, END),
        other => other,
    }
}

fn encoded_again(alloc: Global, g: u64, events: &[Message]) -> Result<Vec<u8>, AllocError> {
    if events.len() > 100 {
        return Err(AllocError);
    }
    match encode_events(alloc, g, events) {
        Err(AllocError) => encode_events(alloc, g, events),
        body => body,
    }
}

fn is_recovered(alloc: Global) -> Result<bool, Fail> {
    let mut log = log_of_all(alloc)?;
    let front = recovered_again(alloc, &mut log)?;
    let is_same = front.is_same(&front_at_the_end(alloc)?);
    Ok(is_same && log.len() == 3 && !log.is_spent())
}

#[test]
fn a_recovery_succeeds_after_an_allocation_failure(rt: HostRuntime) -> Result<(), Fail> {
    assert!(rt; is_recovered(rt.alloc())?);
    Ok(())
}

fn is_encoded(alloc: Global) -> Result<bool, Fail> {
    let events = messages(alloc, &EVENTS[..3])?;
    let body = encoded_again(alloc, 7, events.as_slice())?;
    Ok(body.len() == 180 && body.starts_with(&[0, 0, 0, 0, 0, 0, 0, 7, 0, 0, 0, 3]))
}

#[test]
fn a_body_is_encoded_after_an_allocation_failure(rt: HostRuntime) -> Result<(), Fail> {
    assert!(rt; is_encoded(rt.alloc())?);
    Ok(())
}
