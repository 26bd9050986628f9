// Reads frames from a stream.

ghost use Rattle.std.specs.Prelude.{◌≡◌, ◌<◌, ◌≤◌, ◌++◌, ◌^◌, IfOk, OnErr, length, take, Option};
ghost use Rattle.std.specs.Prelude.{Ok, Err, Some, None, List, ℕ};
ghost use Rattle.std.specs.Io.KnownBytes.{Consumes, IsAtEnd};
ghost use Rattle.frames.specs.Bodies.{kind_of};
ghost use Rattle.frames.specs.Cutting.{cut, frame_cut};
ghost use Rattle.frames.specs.Streams.{Comes, GivesUpTo, IsCutBy, OnBytes};

use crate::reading::read_body;
use crate::{Frame, FrameKind};
use byteorder::{BigEndian, ByteOrder};
use eventkey::Listed;
use std::alloc::Global;
use std::io::{self, ErrorKind, Read};
use wire::WireFault;

/// The maximum number of bytes in a frame's body.
pub const MOST_BYTES: u32 = 1 << 24;

/// The number of bytes in the first piece of a body.
const PIECE: usize = 4096;

/// A frame whose body is not decoded yet.
#[derive(Drop)]
pub struct Raw {
    pub kind: FrameKind,
    pub body: Listed<u8>,
}

/// Reads until the buffer is full or the input has ended. Returns the number of bytes read.
pub(crate) fn fill<R: Read>(reader: &mut R, buffer: &mut [u8]) -> io::Result<usize>
    ensures bound { IfOk result (λ n. n ≤ length buffer.new) }
    ensures bytes { IfOk result (λ n. Consumes (R.remaining reader.old) (R.remaining reader.new)
        (take n buffer.new)) }
    ensures end { IfOk result (λ n. n < length buffer.new → IsAtEnd (R.remaining reader.new)) }
    ensures err { OnErr result (GivesUpTo (length buffer.new) (R.remaining reader.old)
        (R.remaining reader.new)) }
{
    let mut filled = 0;
    for _ in 0..u64::MAX {
        if filled >= buffer.len() {
            return Ok(filled);
        }
        match reader.read(&mut buffer[filled..]) {
            Ok(0) => return Ok(filled),
            Ok(count) => filled += count,
            Err(error) => {
                if error.kind() != ErrorKind::Interrupted {
                    return Err(error);
                }
            }
        }
    }
    Err(io::Error::from(ErrorKind::TimedOut))
}

/// Reads `count` bytes; `None` if the input ends before. The memory that it takes grows with the
/// bytes that arrive: each piece is as long as what came before it, so that few calls read a long
/// body.
pub(crate) fn read_bytes<R: Read>(
    alloc: Global,
    reader: &mut R,
    count: usize,
) -> Result<Option<Vec<u8>>, WireFault>
    ensures { Comes (λ v. v.items) count (R.remaining reader.old) (R.remaining reader.new) result }
{
    let mut body = Vec::new(alloc);
    while body.len() < count {
        let start = body.len();
        let room = start.max(PIECE).min(count - start);
        body.resize(start + room, 0)?;
        let came = fill(reader, &mut body[start..])?;
        if came < room {
            return Ok(None);
        }
    }
    Ok(Some(body))
}

/// The kind with this number.
pub(crate) fn kind_of(number: u8) -> Option<FrameKind>
    ensures { result ≡ kind_of number }
{
    match number {
        1 => Some(FrameKind::Load),
        2 => Some(FrameKind::Parcel),
        3 => Some(FrameKind::Reply),
        4 => Some(FrameKind::Fault),
        _ => None,
    }
}

/// Reads one frame and not a byte more, and does not decode its body. `None` if the input has
/// ended.
///
/// `TooLong` for a body of more than 2^24 bytes, before the kind is read; else `BadKind` for an
/// unknown kind, before the body is read; else `Truncated` if the input ends within the frame. `Io`
/// and `NoMemory` as for `read_frame`.
pub fn read_raw<R: Read>(alloc: Global, reader: &mut R) -> Result<Option<Raw>, WireFault>
    ensures { OnBytes (R.remaining reader.old) (R.remaining reader.new) (IsCutBy cut result) }
{
    let mut head = [0; 4];
    let came = fill(reader, &mut head)?;
    if came == 0 {
        return Ok(None);
    }
    if came < 4 {
        return Err(WireFault::Truncated);
    }
    let length = BigEndian::read_u32(&head);
    if length > MOST_BYTES {
        return Err(WireFault::TooLong);
    }
    let mut number = [0; 1];
    let came = fill(reader, &mut number)?;
    if came == 0 {
        return Err(WireFault::Truncated);
    }
    let Some(kind) = kind_of(number[0]) else {
        return Err(WireFault::BadKind);
    };
    let Some(body) = read_bytes(alloc, reader, length as usize)? else {
        return Err(WireFault::Truncated);
    };
    Ok(Some(Raw {
        kind,
        body: Listed::from_vec(body),
    }))
}

/// Reads one frame and not a byte more. `None` if the input has ended.
///
/// `TooLong` for a body of more than 2^24 bytes, before the kind is read; else `BadKind` for an
/// unknown kind, before the body is read; else `Truncated` if the input ends within the frame; else
/// `BadBody` if the body is not an encoding of its kind. `Io` if the reader fails, `NoMemory` if an
/// allocation fails: some bytes of the frame may then have been read, and none after it. The
/// memory for a body grows with the bytes that arrive, not with the stated length.
pub fn read_frame<R: Read>(alloc: Global, reader: &mut R) -> Result<Option<Frame>, WireFault>
    ensures { OnBytes (R.remaining reader.old) (R.remaining reader.new) (IsCutBy frame_cut result) }
{
    let Some(raw) = read_raw(alloc, reader)? else {
        return Ok(None);
    };
    match read_body(alloc, raw.kind, raw.body.as_slice())? {
        Some(frame) => Ok(Some(frame)),
        None => Err(WireFault::BadBody),
    }
}
