// Reads and writes that fail. An interrupted call is repeated; after any other failure there is no
// further call. Earlier parcels are answered.

use crate::frames_of_ring::RUN_0;
use crate::in_memory::{MANY, NEVER, Pieces, Refusal, Taking, serve_ring};
use std::alloc::{AllocError, Global};
use std::io::ErrorKind;
use std::test::Fail;
use wire::WireFault;

/// Errors that end the loop at once.
const KINDS: [ErrorKind; 16] = [
    ErrorKind::WouldBlock,
    ErrorKind::TimedOut,
    ErrorKind::UnexpectedEof,
    ErrorKind::BrokenPipe,
    ErrorKind::ConnectionReset,
    ErrorKind::ConnectionAborted,
    ErrorKind::NotConnected,
    ErrorKind::OutOfMemory,
    ErrorKind::InvalidData,
    ErrorKind::InvalidInput,
    ErrorKind::WriteZero,
    ErrorKind::StorageFull,
    ErrorKind::ResourceBusy,
    ErrorKind::InProgress,
    ErrorKind::Unsupported,
    ErrorKind::Other,
];

/// A run of node 0: the result, and the state of the reader and the writer after it.
#[derive(Drop)]
struct Talk {
    answer: Result<u64, WireFault>,
    reads: usize,
    unread: usize,
    writes: usize,
    text: Vec<u8>,
}

/// Serves node 0 by reads of at most 7 bytes and writes of at most 10, with these refusals.
fn serve_refused(alloc: Global, read: Refusal, write: Refusal) -> Result<Talk, AllocError> {
    let stream = RUN_0.frames.as_slice().concat(alloc)?;
    let mut reader = Pieces::of(stream.as_slice(), 7, read);
    let mut writer = Taking::of(alloc, 10, write);
    let answer = serve_ring(alloc, &mut reader, &mut writer, MANY);
    Ok(Talk {
        answer,
        reads: reader.calls,
        unread: reader.rest.len(),
        writes: writer.calls,
        text: writer.taken,
    })
}

/// How many of these frames are complete within the first `bytes` bytes, and whether the last of
/// them ends exactly there.
fn ended(frames: &[&[u8]], bytes: usize) -> (usize, bool) {
    let mut rest = bytes;
    for (count, frame) in frames.iter().enumerate() {
        if rest < frame.len() {
            return (count, rest == 0);
        }
        rest -= frame.len();
    }
    (frames.len(), true)
}

/// The number of bytes in these frames from number `first` on.
fn length_from(frames: &[&[u8]], first: usize) -> usize {
    frames
        .iter()
        .skip(first)
        .fold(0usize, |sum, frame| sum.saturating_add(frame.len()))
}

/// Whether a run whose read number `call` failed, or returned nothing, ended there.
fn ended_at_read(talk: &Talk, call: usize, kind: Option<ErrorKind>) -> bool {
    let read = length_from(&RUN_0.frames, 0).saturating_sub(talk.unread);
    let (frames, is_between) = ended(&RUN_0.frames, read);
    let replies = frames.saturating_sub(1);
    let answer = match kind {
        Some(_) => Err(WireFault::Io),
        None if is_between => Ok(replies as u64),
        None => Err(WireFault::Truncated),
    };
    talk.reads == call.saturating_add(1)
        && talk.answer == answer
        && ended(&RUN_0.replies, talk.text.len()) == (replies, true)
}

/// Whether a run whose write number `call` failed, or wrote nothing, ended there. These are the bytes
/// of all replies.
fn ended_at_write(talk: &Talk, call: usize, replies: &[u8]) -> bool {
    // The node has read the load, the parcels of the complete replies, and that of this reply.
    let (before, _) = ended(&RUN_0.replies, talk.text.len());
    let unread = length_from(&RUN_0.frames, before.saturating_add(2));
    talk.writes == call.saturating_add(1)
        && talk.answer == Err(WireFault::Io)
        && replies.starts_with(talk.text.as_slice())
        && talk.unread == unread
}

/// The number of reads of a run, less than 100, if the run ends at each of them that fails so, or
/// returns nothing.
fn reads_that_end(alloc: Global, kind: Option<ErrorKind>) -> Result<Option<usize>, AllocError> {
    let times = 1;
    for call in 0..100 {
        let talk = serve_refused(alloc, Refusal { call, times, kind }, NEVER)?;
        if talk.reads <= call {
            return Ok(Some(call));
        }
        if !ended_at_read(&talk, call, kind) {
            return Ok(None);
        }
    }
    Ok(None)
}

/// The number of writes of a run, less than 100, if the run ends at each of them that fails so, or
/// writes nothing.
fn writes_that_end(alloc: Global, kind: Option<ErrorKind>) -> Result<Option<usize>, AllocError> {
    let replies = RUN_0.replies.as_slice().concat(alloc)?;
    let times = 1;
    for call in 0..100 {
        let talk = serve_refused(alloc, NEVER, Refusal { call, times, kind })?;
        if talk.writes <= call {
            return Ok(Some(call));
        }
        if !ended_at_write(&talk, call, replies.as_slice()) {
            return Ok(None);
        }
    }
    Ok(None)
}

// Behind the last error, a call that reads or writes nothing.

#[test]
fn a_failed_read_is_the_last(rt: HostRuntime) -> Result<(), Fail> {
    for place in 0..=KINDS.len() {
        let reads = reads_that_end(rt.alloc(), KINDS.get(place).copied())?;
        assert!(rt; reads.unwrap_or(0) > 30, "{place}");
    }
    Ok(())
}

#[test]
fn a_failed_write_is_the_last(rt: HostRuntime) -> Result<(), Fail> {
    for place in 0..=KINDS.len() {
        let writes = writes_that_end(rt.alloc(), KINDS.get(place).copied())?;
        assert!(rt; writes.unwrap_or(0) > 30, "{place}");
    }
    Ok(())
}

/// Whether a run with these refusals gives all replies, which are these bytes.
fn is_whole(
    alloc: Global,
    read: Refusal,
    write: Refusal,
    replies: &[u8],
) -> Result<bool, AllocError> {
    let talk = serve_refused(alloc, read, write)?;
    Ok(talk.answer == Ok(3) && talk.text.as_slice() == replies && talk.unread == 0)
}

#[test]
fn an_interrupted_call_is_repeated(rt: HostRuntime) -> Result<(), Fail> {
    let replies = RUN_0.replies.as_slice().concat(rt.alloc())?;
    for call in 0..50 {
        let refusal = Refusal {
            call,
            times: 3,
            kind: Some(ErrorKind::Interrupted),
        };
        assert!(rt;
            is_whole(rt.alloc(), refusal, NEVER, replies.as_slice())?,
            "{call}"
        );
        assert!(rt;
            is_whole(rt.alloc(), NEVER, refusal, replies.as_slice())?,
            "{call}"
        );
    }
    Ok(())
}
