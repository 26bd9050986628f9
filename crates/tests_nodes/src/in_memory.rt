// Readers and writers in memory, a node of a ring served through them, and bytes from texts.

ghost use Rattle.std.specs.Prelude.{◌≡◌, IfOk};

use frames::serve;
use models::TokenRing;
use std::alloc::{AllocError, Global};
use std::io::{self, Error, ErrorKind, Read, Write};
use wire::WireFault;

/// More replies than any of these streams needs.
pub const MANY: u64 = 4_294_967_295;

/// Refused calls: the first one, how many, and the error; without an error they read or write
/// nothing.
#[derive(Clone, Copy)]
pub struct Refusal {
    pub call: usize,
    pub times: usize,
    pub kind: Option<ErrorKind>,
}

/// No call is refused.
pub const NEVER: Refusal = Refusal {
    call: 0,
    times: 0,
    kind: None,
};

impl Refusal {
    /// Whether the call of this number is refused.
    fn meets(&self, call: usize) -> bool {
        call >= self.call && call - self.call < self.times
    }

    /// The result of a refused call.
    fn answer(&self) -> io::Result<usize>
        ensures { IfOk result (λ count. count ≡ 0) }
    {
        match self.kind {
            Some(kind) => Err(Error::from(kind)),
            None => Ok(0),
        }
    }
}

/// A reader that returns at most `size` bytes per call, and counts its calls.
#[derive(Drop)]
pub struct Pieces<'a> {
    pub rest: &'a [u8],
    pub size: usize,
    pub calls: usize,
    pub refusal: Refusal,
}

impl<'a> Pieces<'a> {
    pub fn of(rest: &'a [u8], size: usize, refusal: Refusal) -> Pieces<'a> {
        Pieces {
            rest,
            size,
            calls: 0,
            refusal,
        }
    }
}

impl<'a> Read for Pieces<'a> {
    fn read(&mut self, buf: &mut [u8]) -> io::Result<usize> {
        let call = self.calls;
        self.calls = self.calls.saturating_add(1);
        if self.refusal.meets(call) {
            return self.refusal.answer();
        }
        let count = buf.len().min(self.size).min(self.rest.len());
        let (front, rest) = self.rest.split_at(count);
        buf[..count].copy_from_slice(front);
        self.rest = rest;
        Ok(count)
    }
}

/// A writer that accepts at most `size` bytes per call, and counts its calls and flushes.
#[derive(Drop)]
pub struct Taking {
    pub taken: Vec<u8>,
    pub size: usize,
    pub calls: usize,
    pub flushes: usize,
    pub refusal: Refusal,
}

impl Taking {
    pub fn of(alloc: Global, size: usize, refusal: Refusal) -> Taking {
        Taking {
            taken: Vec::new(alloc),
            size,
            calls: 0,
            flushes: 0,
            refusal,
        }
    }
}

impl Write for Taking {
    fn write(&mut self, buf: &[u8]) -> io::Result<usize> {
        let call = self.calls;
        self.calls = self.calls.saturating_add(1);
        if self.refusal.meets(call) {
            return self.refusal.answer();
        }
        let count = buf.len().min(self.size);
        self.taken.extend_from_slice(&buf[..count])?;
        Ok(count)
    }

    fn flush(&mut self) -> io::Result<()> {
        self.flushes = self.flushes.saturating_add(1);
        Ok(())
    }
}

/// Serves a node of a ring of three processes, with one token that each holds for two ticks.
pub fn serve_ring<R: Read, W: Write>(
    alloc: Global,
    reader: &mut R,
    writer: &mut W,
    limit: u64,
) -> Result<u64, WireFault> {
    serve(alloc, &TokenRing::new(3, 2, 1), reader, writer, limit)
}

/// The bytes of a text in hexadecimal, between whose digits spaces may stand.
pub fn bytes_of(alloc: Global, text: &str) -> Result<Vec<u8>, AllocError> {
    let mut bytes = Vec::new(alloc);
    let mut first: Option<u8> = None;
    for digit in text.as_bytes() {
        let value = match *digit {
            b'0'..=b'9' => *digit - b'0',
            b'a'..=b'f' => *digit - b'a' + 10,
            _ => continue,
        };
        first = match first {
            None => Some(value),
            Some(high) => {
                bytes.push(high.wrapping_mul(16).wrapping_add(value))?;
                None
            }
        };
    }
    Ok(bytes)
}
