use super::*;

const NINE: [[u64; 8]; 9] = [[1, 2, 3, 4, 5, 6, 7, 8]; 9];

/// The image of a log with two records: one of these events, and one without events.
fn sectors_of(alloc: Global, events: &[[u64; 8]]) -> Result<Vec<u8>, Fail> {
    let mut log = log_of(alloc, &[])?;
    commit(alloc, &mut log, 2, events)?;
    commit(alloc, &mut log, 2, &[])?;
    Ok(log.into_disk().crash(alloc, Torn::Old)?)
}

fn are_zeros(bytes: Option<&[u8]>) -> bool {
    bytes.is_some_and(|bytes| bytes.iter().all(|byte| *byte == 0))
}

/// Whether the record of these events has its last byte at this place, zeros from there to the next
/// gate, and whether that gate is open and the one after it is closed.
fn ends_at(alloc: Global, events: &[[u64; 8]], last: usize, gate: usize) -> Result<bool, Fail> {
    let image = sectors_of(alloc, events)?;
    let gate = gate.min(64) * 512;
    Ok(
        image.get(last) == Some(&8)
            && are_zeros(image.get(last.saturating_add(1)..gate))
            && image.get(gate) == Some(&1)
            && image.get(gate + 2 * 512) == Some(&0),
    )
}

#[test]
fn nine_events_take_two_sectors(rt: HostRuntime) -> Result<(), Fail> {
    assert!(rt; events_length(8) == 460 && events_length(9) == 516);
    assert!(rt; ends_at(rt.alloc(), &NINE[..8], 3 * 512 + 464, 4)?);
    assert!(rt; ends_at(rt.alloc(), &NINE, 3 * 512 + 520, 5)?);
    Ok(())
}
