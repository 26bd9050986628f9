// Streams, whole and in pieces: the written text, the result, and the unread rest.

use crate::frames_of_ring::{BELOW_FLOOR, LATE, LOAD, NEXT_DOOR, PARCEL, REPLY};
use crate::in_memory::{MANY, NEVER, Pieces, Taking, serve_ring};
use std::alloc::{AllocError, Global};
use std::test::Fail;
use wire::WireFault;

/// A length above 2^24.
const TOO_LONG: &[u8] = &[255, 255, 255, 255];

/// The parcel with a trailing byte, which its length includes.
const LONGER: &[u8] = &[
    0, 0, 0, 17, 2, 0, 0, 0, 0, 0, 0, 0, 16, 0, 0, 0, 0, 0, 0, 0, 1, 0,
];

/// Frames of a fault and of a reply; a node accepts neither.
const FAULT: &[u8] = &[0, 0, 0, 1, 4, 7];

const OTHER_REPLY: &[u8] = &[0, 0, 0, 1, 3, 7];

/// The refusal of what is for another node.
const NOT_MINE: &[u8] = &[0, 0, 0, 1, 4, 1];

/// The load of node 0 with the number of node 1.
const FOREIGN: &[u8] = &[
    0, 0, 0, 109, 1, 0, 0, 0, 1, 0, 0, 0, 3, 0, 0, 0, 0, 0, 0, 0, 10, 0, 0, 0, 0, 0, 0, 0, 0, 0, 0,
    0, 1, 0, 0, 0, 0, 0, 0, 0, 0, 0, 0, 0, 1, 1, 0, 0, 0, 0, 0, 0, 0, 0, 0, 0, 0, 1, 0, 0, 0, 0, 0,
    0, 0, 1, 0, 0, 0, 0, 0, 0, 0, 0, 0, 0, 0, 0, 0, 0, 0, 0, 0, 0, 0, 0, 0, 0, 0, 0, 0, 0, 0, 0, 0,
    0, 0, 0, 0, 0, 0, 0, 0, 0, 0, 0, 0, 0, 0, 0, 0, 0, 0, 0,
];

/// A frame that claims a body of 2^24 bytes, with only one there. `tools/largest-blocks` checks how
/// much memory is allocated for it.
const CLAIMED: &[u8] = &[1, 0, 0, 0, 2, 9];

/// The frames that the rows name.
const NAMED: [(&str, &[u8]); 13] = [
    ("load", LOAD),
    ("parcel", PARCEL),
    ("reply", REPLY),
    ("late", LATE),
    ("below_floor", BELOW_FLOOR),
    ("fault", FAULT),
    ("other_reply", OTHER_REPLY),
    ("too_long", TOO_LONG),
    ("longer", LONGER),
    ("claimed", CLAIMED),
    ("next_door", NEXT_DOOR),
    ("not_mine", NOT_MINE),
    ("foreign", FOREIGN),
];

/// The bytes of the frames that a text names.
fn named(alloc: Global, text: &str) -> Result<Vec<u8>, AllocError> {
    let mut bytes = Vec::new(alloc);
    for word in text.split(' ') {
        for (name, frame) in NAMED {
            if word == name {
                bytes.extend_from_slice(frame)?;
            }
        }
    }
    Ok(bytes)
}

/// A stream, whether it is served up to 0, 1 or many replies, what is written, the result, and the
/// unread rest.
const ROWS: &str = "\
    load parcel|many|reply|Ok(1)|\n\
    load parcel late parcel|many|reply below_floor|Ok(1)|parcel\n\
    load parcel late parcel|1|reply|Ok(1)|late parcel\n\
    load parcel|0||Ok(0)|parcel\n\
    load load parcel|many||Err(BadKind)|parcel\n\
    parcel load|many||Err(BadKind)|load\n\
    load parcel fault parcel|many|reply|Err(BadKind)|parcel\n\
    load parcel other_reply parcel|many|reply|Err(BadKind)|parcel\n\
    load parcel too_long parcel|many|reply|Err(TooLong)|parcel\n\
    load longer parcel|many||Err(BadBody)|parcel\n\
    load parcel claimed|many|reply|Err(Truncated)|\n\
    load next_door parcel|many|not_mine|Ok(0)|parcel\n\
    foreign parcel|many|not_mine|Ok(0)|parcel\n\
    load|many||Ok(0)|\n\
    |many||Ok(0)|\n\
";

/// The parts of a row.
fn parts_of(row: &str) -> Option<(&str, &str, &str, &str, &str)> {
    let (stream, row) = row.split_once('|')?;
    let (limit, row) = row.split_once('|')?;
    let (text, row) = row.split_once('|')?;
    let (answer, rest) = row.split_once('|')?;
    Some((stream, limit, text, answer, rest))
}

fn limit_of(word: &str) -> u64 {
    if word == "many" {
        MANY
    } else {
        u64::from(word == "1")
    }
}

/// Whether these bytes are the frames that a text names.
fn are_frames(alloc: Global, bytes: &[u8], text: &str) -> Result<bool, AllocError> {
    Ok(named(alloc, text)?.as_slice() == bytes)
}

/// Whether a stream in pieces of this size is served as its row says.
fn is_served(alloc: Global, row: &str, size: usize) -> Result<bool, AllocError> {
    let Some((stream, limit, text, answer, rest)) = parts_of(row) else {
        return Ok(false);
    };
    let stream = named(alloc, stream)?;
    let mut reader = Pieces::of(stream.as_slice(), size, NEVER);
    let mut writer = Taking::of(alloc, usize::MAX, NEVER);
    let served = serve_ring(alloc, &mut reader, &mut writer, limit_of(limit));
    let served = format!(in alloc; "{served:?}")?;
    Ok(
        served.as_str() == answer
            && are_frames(alloc, writer.taken.as_slice(), text)?
            && are_frames(alloc, reader.rest, rest)?
            && writer.flushes == 0,
    )
}

#[test]
fn streams_are_served_up_to_their_unread_rest(rt: HostRuntime) -> Result<(), Fail> {
    for row in ROWS.lines() {
        for size in [1, 7, usize::MAX] {
            assert!(rt; is_served(rt.alloc(), row, size)?, "{row} {size}");
        }
    }
    Ok(())
}

/// Whether a parcel of which only this many bytes come, in pieces of this size, is truncated.
fn is_truncated(alloc: Global, count: usize, size: usize) -> Result<bool, AllocError> {
    let stream = [LOAD, PARCEL.split_at(PARCEL.len().min(count)).0].concat(alloc)?;
    let mut reader = Pieces::of(stream.as_slice(), size, NEVER);
    let mut text = Vec::new(alloc);
    let answer = serve_ring(alloc, &mut reader, &mut text, MANY);
    Ok(answer == Err(WireFault::Truncated) && text.is_empty() && reader.rest.is_empty())
}

#[test]
fn a_parcel_that_is_cut_short_is_truncated(rt: HostRuntime) -> Result<(), Fail> {
    for count in 1..PARCEL.len() {
        for size in [1, 7, usize::MAX] {
            assert!(rt; is_truncated(rt.alloc(), count, size)?, "{count} {size}");
        }
    }
    Ok(())
}
