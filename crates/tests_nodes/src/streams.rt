// Worked frames, byte for byte, and bytes that are no frames.

use crate::frames_of_ring::{BELOW_FLOOR, LATE, LOAD, LOAD_1, PARCEL, REPLY};
use crate::in_memory::{NEVER, Pieces, Refusal, bytes_of};
use crate::loads::{load_of, parcel, tokens};
use eventkey::{KeyFault, Listed, Message, Sign, Signed};
use frames::{
    Frame, FrameKind, encode_fault, encode_load, encode_parcel, encode_reply, read_frame, read_raw,
    read_whole_frame, read_whole_raw,
};
use model::{Sent, State, append_words, read_words};
use node::{NodeFault, Parcel, Reply};
use process::{Done, Reports};
use std::alloc::{AllocError, Global};
use std::io::ErrorKind;
use std::test::Fail;
use wire::WireFault;

mod hostile;

/// A reply with one antimessage, the low 9, one fossil that sent a message, and 3 handled messages.
const LADEN: [u8; 213] = [
    0, 0, 0, 208, 3, 0, 0, 0, 1, 1, 0, 0, 0, 0, 0, 0, 0, 3, 0, 0, 0, 0, 0, 0, 0, 0, 0, 0, 0, 1, 0,
    0, 0, 1, 0, 0, 0, 0, 0, 0, 0, 0, 0, 0, 0, 0, 0, 0, 0, 1, 0, 0, 0, 0, 0, 0, 0, 0, 0, 0, 0, 0, 0,
    0, 0, 0, 1, 0, 0, 0, 0, 0, 0, 0, 9, 0, 0, 0, 1, 0, 0, 0, 0, 0, 0, 0, 1, 0, 0, 0, 0, 0, 0, 0, 0,
    0, 0, 0, 0, 0, 0, 0, 0, 0, 0, 0, 0, 0, 0, 0, 0, 0, 0, 0, 0, 0, 0, 0, 0, 0, 0, 0, 0, 0, 0, 0, 6,
    0, 0, 0, 0, 0, 0, 0, 7, 1, 0, 0, 0, 0, 0, 0, 0, 3, 0, 0, 0, 0, 0, 0, 0, 0, 0, 0, 0, 1, 0, 0, 0,
    1, 0, 0, 0, 0, 0, 0, 0, 0, 0, 0, 0, 0, 0, 0, 0, 1, 0, 0, 0, 0, 0, 0, 0, 0, 0, 0, 0, 0, 0, 0, 0,
    0, 1, 0, 0, 0, 0, 0, 0, 0, 1, 0, 0, 0, 0, 0, 0, 0, 2, 0, 0, 0, 3,
];

const FRAMES: [(&[u8], FrameKind); 7] = [
    (LOAD_1, FrameKind::Load),
    (LOAD, FrameKind::Load),
    (PARCEL, FrameKind::Parcel),
    (LATE, FrameKind::Parcel),
    (REPLY, FrameKind::Reply),
    (&LADEN, FrameKind::Reply),
    (BELOW_FLOOR, FrameKind::Fault),
];

/// The message that node 0 handles, with words that no model makes.
fn handled() -> Result<Message, KeyFault> {
    Message::new(1, 0, 0, 0, 0, 0, 6, 7)
}

/// The message that node 0 sends to node 1.
fn sent() -> Result<Message, KeyFault> {
    Message::new(3, 0, 1, 1, 0, 1, 0, 0)
}

/// The parcel of `LATE`.
fn late(alloc: Global) -> Result<Parcel, Fail> {
    let sign = Sign::Plus;
    let message = Message::new(0, 0, 0, 0, 0, 0, 0, 0)?;
    let deliver = [Signed { sign, message }].to_vec(alloc)?;
    Ok(parcel(deliver, 0, 1))
}

/// The reply of `REPLY`.
fn reply(alloc: Global) -> Result<Reply, Fail> {
    let sign = Sign::Plus;
    let message = sent()?;
    Ok(Reply {
        out: Listed::from_vec([Signed { sign, message }].to_vec(alloc)?),
        low: None,
        fossils: Reports::new(alloc),
        ran: 1,
    })
}

fn done(alloc: Global, message: Message, sent: Message) -> Result<Reports, AllocError> {
    let handling = Done {
        message,
        sent: Sent::from_slice(alloc, &[sent])?,
        after: State::from_slice(alloc, &[1])?,
        number_after: 2,
    };
    Ok(Reports::from_slice(alloc, &[handling])?.unwrap_or(Reports::new(alloc)))
}

/// The reply of `LADEN`.
fn laden(alloc: Global) -> Result<Reply, Fail> {
    let sign = Sign::Minus;
    let message = sent()?;
    let fossils = done(alloc, handled()?, message)?;
    Ok(Reply {
        out: Listed::from_vec([Signed { sign, message }].to_vec(alloc)?),
        low: Some(9),
        fossils,
        ran: 3,
    })
}

/// The frame with the bytes of this place in `FRAMES`.
fn frame(alloc: Global, place: usize) -> Result<Frame, Fail> {
    Ok(match place {
        0 => Frame::Load(load_of(alloc, 1, 1, 0, Vec::new(alloc))?),
        1 => Frame::Load(load_of(alloc, 0, 0, 1, tokens(alloc, 0, &[1])?)?),
        2 => Frame::Parcel(parcel(Vec::new(alloc), 16, 1)),
        3 => Frame::Parcel(late(alloc)?),
        4 => Frame::Reply(reply(alloc)?),
        5 => Frame::Reply(laden(alloc)?),
        _ => Frame::Fault(NodeFault::BelowFloor),
    })
}

#[test]
fn frames_are_encoded(rt: HostRuntime) -> Result<(), Fail> {
    for (place, (bytes, _kind)) in FRAMES.iter().enumerate() {
        let frame = frame(rt.alloc(), place)?;
        let encoded = encoded(rt.alloc(), &frame)?;
        assert!(rt; encoded.as_slice() == *bytes, "{place}");
    }
    Ok(())
}

/// An empty state, and then one of two words.
const WORDS: [u8; 18] = [0, 2, 0, 0, 0, 0, 0, 0, 1, 2, 128, 0, 0, 0, 0, 0, 0, 0];

#[test]
fn state_words_are_encoded(rt: HostRuntime) -> Result<(), Fail> {
    let mut bytes = Vec::new(rt.alloc());
    append_words(&mut bytes, &[])?;
    append_words(&mut bytes, &[258, 1 << 63])?;
    assert_eq!(rt; bytes.as_slice(), WORDS.as_slice());
    Ok(())
}

/// The number of words that are read, the first and the last of them, and the number of bytes after
/// them.
fn words_in(alloc: Global, bytes: &[u8]) -> Result<Option<(usize, [u64; 2], usize)>, AllocError> {
    let Some((state, rest)) = read_words(alloc, bytes)? else {
        return Ok(None);
    };
    let words = state.as_slice();
    let ends = [words.first(), words.last()].map(|word| word.copied().unwrap_or(0));
    Ok(Some((words.len(), ends, rest.len())))
}

#[test]
fn state_words_are_read(rt: HostRuntime) -> Result<(), Fail> {
    let rows: [(&[u8], Option<(usize, [u64; 2], usize)>); 6] = [
        (&WORDS, Some((0, [0, 0], 17))),
        (&WORDS[1..], Some((2, [258, 1 << 63], 0))),
        (&[], None),
        (&WORDS[1..17], None),
        (&[16; 129], Some((16, [0x1010_1010_1010_1010; 2], 0))),
        (&[17; 137], None),
    ];
    for (bytes, expected) in rows {
        assert_eq!(rt; words_in(rt.alloc(), bytes)?, expected);
    }
    Ok(())
}

/// Each fault of a node, and its number in a frame.
const FAULTS: [(NodeFault, u8); 6] = [
    (NodeFault::NotMine, 1),
    (NodeFault::BelowFloor, 2),
    (NodeFault::NoMemory, 3),
    (NodeFault::NumberLimit, 4),
    (NodeFault::Spent, 5),
    (NodeFault::FloorFell, 6),
];

#[test]
fn each_fault_of_a_node_has_its_number(rt: HostRuntime) -> Result<(), Fail> {
    for (fault, number) in FAULTS {
        let frame = [0, 0, 0, 1, 4, number];
        let encoded = encode_fault(rt.alloc(), fault)?;
        assert_eq!(rt; encoded.as_slice(), frame.as_slice());
        assert!(rt; is_read_twice(rt.alloc(), &frame, 4)?, "{number}");
    }
    Ok(())
}

/// The bytes of a frame.
fn encoded(alloc: Global, frame: &Frame) -> Result<Vec<u8>, WireFault> {
    match frame {
        Frame::Load(load) => encode_load(alloc, load),
        Frame::Parcel(parcel) => encode_parcel(alloc, parcel),
        Frame::Reply(reply) => encode_reply(alloc, reply),
        Frame::Fault(fault) => encode_fault(alloc, *fault),
    }
}

/// Whether the next frame has these bytes.
fn reads(alloc: Global, reader: &mut Pieces<'_>, frame: &[u8]) -> Result<bool, WireFault> {
    match read_frame(alloc, reader)? {
        Some(read) => Ok(encoded(alloc, &read)?.as_slice() == frame),
        None => Ok(false),
    }
}

/// Whether a frame is read twice from two copies of its bytes, each to its last byte, in pieces of at
/// most `size` bytes.
fn is_read_twice(alloc: Global, frame: &[u8], size: usize) -> Result<bool, Fail> {
    let bytes = [frame, frame].concat(alloc)?;
    let mut reader = Pieces::of(bytes.as_slice(), size, NEVER);
    for left in [frame.len(), 0] {
        if !reads(alloc, &mut reader, frame)? || reader.rest.len() != left {
            return Ok(false);
        }
    }
    Ok(read_frame(alloc, &mut reader)?.is_none())
}

#[test]
fn frames_are_read_to_their_last_byte(rt: HostRuntime) -> Result<(), Fail> {
    for (frame, _kind) in FRAMES {
        for size in [1, 7, 4096] {
            assert!(rt; is_read_twice(rt.alloc(), frame, size)?, "{size}");
        }
    }
    Ok(())
}

/// Whether these bytes are one whole frame of this kind, and read as such.
fn is_whole(alloc: Global, frame: &[u8], kind: FrameKind) -> Result<bool, Fail> {
    let is_raw = match read_whole_raw(alloc, frame)? {
        Some(raw) => raw.kind == kind && Some(raw.body.as_slice()) == frame.get(5..),
        None => false,
    };
    Ok(match read_whole_frame(alloc, frame)? {
        Some(read) => is_raw && encoded(alloc, &read)?.as_slice() == frame,
        None => false,
    })
}

/// Whether these bytes are neither read as one whole frame nor as a raw one.
fn is_no_whole(alloc: Global, bytes: &[u8]) -> Result<bool, Fail> {
    Ok(read_whole_raw(alloc, bytes)?.is_none() && read_whole_frame(alloc, bytes)?.is_none())
}

/// Whether these bytes are one whole frame of this kind, and none without their last byte or with one
/// more.
fn is_just_whole(alloc: Global, frame: &[u8], kind: FrameKind) -> Result<bool, Fail> {
    let longer = [frame, &[0]].concat(alloc)?;
    let shorter = frame.split_at(frame.len().saturating_sub(1)).0;
    Ok(
        is_whole(alloc, frame, kind)?
            && is_no_whole(alloc, shorter)?
            && is_no_whole(alloc, longer.as_slice())?,
    )
}

#[test]
fn a_whole_frame_has_exactly_its_bytes(rt: HostRuntime) -> Result<(), Fail> {
    for (frame, kind) in FRAMES {
        assert!(rt; is_just_whole(rt.alloc(), frame, kind)?, "{kind:?}");
    }
    Ok(())
}

/// The fault of reading a frame from these bytes, and the number of unread bytes.
fn refused(alloc: Global, bytes: &[u8]) -> (Option<WireFault>, usize) {
    let mut reader = Pieces::of(bytes, 7, NEVER);
    let read = read_frame(alloc, &mut reader);
    (read.err(), reader.rest.len())
}

/// Bytes, the fault of reading a frame from them, and the number of unread bytes.
const REFUSED: &str = "\
    00000010 02 => Some(Truncated) 0\n\
    01000001 => Some(TooLong) 0\n\
    01000001 09 => Some(TooLong) 1\n\
    00000000 05 => Some(BadKind) 0\n\
    00000002 00 0909 => Some(BadKind) 2\n\
    00000001 04 07 => Some(BadBody) 0\n\
    000000 => Some(Truncated) 0\n\
    - => None 0\n\
";

/// Whether the bytes of a row are refused as it says.
fn is_refused(alloc: Global, row: &str) -> Result<bool, AllocError> {
    let Some((bytes, expected)) = row.split_once(" => ") else {
        return Ok(false);
    };
    let bytes = bytes_of(alloc, bytes)?;
    let (fault, left) = refused(alloc, bytes.as_slice());
    let told = format!(in alloc; "{fault:?} {left}")?;
    Ok(told.as_str() == expected)
}

#[test]
fn bytes_that_are_no_frame_are_refused(rt: HostRuntime) -> Result<(), Fail> {
    for row in REFUSED.lines() {
        assert!(rt; is_refused(rt.alloc(), row)?, "{row}");
    }
    Ok(())
}

// `tools/largest-blocks` checks how much memory this test allocates.
#[test]
fn a_claimed_length_takes_no_memory(rt: HostRuntime) {
    for kind in 1..5u8 {
        // A body of 2^24 bytes is claimed, and two come.
        let bytes = [1, 0, 0, 0, kind, 9, 9];
        assert_eq!(rt;
            refused(rt.alloc(), &bytes),
            (Some(WireFault::Truncated), 0)
        );
        let read = read_raw(rt.alloc(), &mut Pieces::of(&bytes, 7, NEVER));
        assert_eq!(rt; read.err(), Some(WireFault::Truncated));
    }
}

/// Reads a parcel, with this error at one call of the reader.
fn read_with_error(
    alloc: Global,
    call: usize,
    kind: ErrorKind,
) -> Result<Option<Frame>, WireFault> {
    let refusal = Refusal {
        call,
        times: 1,
        kind: Some(kind),
    };
    read_frame(alloc, &mut Pieces::of(PARCEL, 3, refusal))
}

#[test]
fn an_error_of_the_reader_is_returned(rt: HostRuntime) -> Result<(), Fail> {
    for call in 0..8 {
        let read = read_with_error(rt.alloc(), call, ErrorKind::BrokenPipe);
        assert_eq!(rt; read.err(), Some(WireFault::Io));
        let read = read_with_error(rt.alloc(), call, ErrorKind::Interrupted)?;
        assert!(rt; read.is_some());
    }
    Ok(())
}
