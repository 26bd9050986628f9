use super::*;

// The image of a log with a record, a seal, a record, a seal, and a record. Each has one sector of
// data: sectors 3, 5, 7, 9 and 11.
fn sealed(alloc: Global) -> Result<Vec<u8>, LogFault> {
    let mut log = new_log(alloc, MemDisk::blank(alloc, 16)?)?;
    for (kind, body) in SEALED {
        add(&mut log, kind, body)?;
    }
    Ok(log.into_disk().crash(alloc, Torn::Old)?)
}

const SEALED: [(u8, &[u8]); 5] = [
    (1, b"one"),
    (SEAL, b""),
    (2, b"two"),
    (SEAL, b""),
    (3, b"three"),
];

// The log of that image, opened with the byte at this place changed.
fn damaged(alloc: Global, place: usize) -> Result<Log<MemDisk>, LogFault> {
    let mut image = sealed(alloc)?;
    if let Some(byte) = image.get_mut(place) {
        *byte ^= 1;
    }
    log_of(alloc, image)
}

// The SHA-256 of the first seal and the second record, computed by another program.
const SECOND_SEAL: [u8; 32] = [
    0xa7, 0x33, 0x3a, 0xc9, 0xa0, 0x4f, 0x8f, 0x1b, 0xae, 0x56, 0xfb, 0xd1, 0x3f, 0x24, 0xc5, 0x2d,
    0x7f, 0xc5, 0x5d, 0x39, 0x7f, 0x1e, 0x3e, 0xb3, 0x7b, 0x40, 0x9d, 0x2c, 0xec, 0xfa, 0x40, 0xb7,
];

// Whether the undamaged log has its records and seals.
fn has_seals(log: &mut Log<MemDisk>) -> Result<bool, LogFault> {
    Ok(
        log.len() == 5
            && log.kind(1) == Some(SEAL)
            && has(log, 2, 2, b"two")?
            && has(log, 3, SEAL, &SECOND_SEAL)?,
    )
}

// places in a sector of data: the kind, the first byte of the body, and the last byte of a seal
const KIND: usize = 0;

const BODY: usize = 5;

const END: usize = 5 + 31;

// Places of bytes that a seal covers.
const SEALED_BYTES: [usize; 5] = [
    3 * 512 + BODY,
    5 * 512 + BODY,
    7 * 512 + KIND,
    7 * 512 + BODY,
    9 * 512 + END,
];

// Whether damage of each of these bytes is found.
fn are_found(alloc: Global) -> Result<bool, LogFault> {
    for place in SEALED_BYTES {
        if !fails_so(damaged(alloc, place), LogFault::Corrupt)? {
            return Ok(false);
        }
    }
    Ok(true)
}

#[test]
fn damage_before_the_last_seal_is_found(rt: HostRuntime) -> Result<(), Fail> {
    assert!(rt; has_seals(&mut log_of(rt.alloc(), sealed(rt.alloc())?)?)?);
    assert!(rt; are_found(rt.alloc())?);
    // no seal covers the last record
    assert!(rt; damaged(rt.alloc(), 11 * 512 + BODY)?.len() == 5);
    Ok(())
}
