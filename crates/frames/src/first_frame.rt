// Whether a stream begins with a hello.

ghost use Rattle.std.specs.Prelude.{◌≡◌, ◌≤◌, IfOk, length, take};
ghost use Rattle.frames.specs.Greeted.{IsBodyRead, IsFirst, IsHeard, IsShort};
ghost use Rattle.frames.specs.Hellos.{no_hello};
ghost use Rattle.frames.specs.Streams.{OnBytes};

use crate::greeting::{HELLO, Hello, read_hello};
use crate::stream::{MOST_BYTES, fill, read_bytes};
use byteorder::{BigEndian, ByteOrder};
use std::alloc::Global;
use std::io::Read;
use wire::WireFault;

/// What is first in a stream.
#[derive(Drop)]
pub enum First {
    /// A hello.
    Hello(Hello),
    /// The first `came` bytes of `head`, and no hello. Fewer than five come at the end of a stream.
    Other {
        /// The bytes that were read.
        head: [u8; 5],
        /// How many they are.
        came: usize,
    },
}

/// Reads a hello and not a byte more, or as few bytes as show that there is none.
///
/// Of a hello, `Truncated` if the stream ends within it, else `BadBody` if its body encodes none;
/// `Io` if the reader fails, `NoMemory` if an allocation fails. The memory for a body grows with
/// the bytes that arrive, not with the stated length.
pub fn read_first<R: Read>(alloc: Global, reader: &mut R) -> Result<First, WireFault>
    ensures known { OnBytes (R.remaining reader.old) (R.remaining reader.new) (IsFirst result) }
    ensures short { IfOk result IsShort }
{
    let mut head = [0; 5];
    let came = fill(reader, &mut head)?;
    let length = BigEndian::read_u32(&head);
    if came < 5 || head[4] != HELLO || length > MOST_BYTES {
        return Ok(First::Other { head, came });
    }
    Ok(First::Hello(read_body(alloc, reader, length as usize)?))
}

/// Reads the body of a hello, of `count` bytes.
fn read_body<R: Read>(alloc: Global, reader: &mut R, count: usize) -> Result<Hello, WireFault>
    ensures { OnBytes (R.remaining reader.old) (R.remaining reader.new) (IsBodyRead count result) }
{
    let Some(body) = read_bytes(alloc, reader, count)? else {
        return Err(WireFault::Truncated);
    };
    match read_hello(alloc, body.as_slice())? {
        Some(hello) => Ok(hello),
        None => Err(WireFault::BadBody),
    }
}

/// Reads a hello, with which the stream must go on. `None` if it has ended.
///
/// `TooLong` for a frame of another kind whose body has more than 2^24 bytes, else `BadKind` for
/// one of another kind, each after five bytes; else as for `read_first`.
pub fn read_hello_frame<R: Read>(alloc: Global, reader: &mut R) -> Result<Option<Hello>, WireFault>
    ensures { OnBytes (R.remaining reader.old) (R.remaining reader.new) (IsHeard result) }
{
    match read_first(alloc, reader)? {
        First::Hello(hello) => Ok(Some(hello)),
        First::Other { head, came } => no_hello(&head, came),
    }
}

/// What is wrong with a stream that begins with these bytes, and no hello.
fn no_hello(head: &[u8; 5], came: usize) -> Result<Option<Hello>, WireFault>
    ensures { result ≡ no_hello (take came head.now) }
{
    if came == 0 {
        return Ok(None);
    }
    if came < 5 {
        return Err(WireFault::Truncated);
    }
    if BigEndian::read_u32(head) > MOST_BYTES {
        return Err(WireFault::TooLong);
    }
    Err(WireFault::BadKind)
}
