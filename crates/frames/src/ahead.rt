// A stream with a read buffer.

ghost use Rattle.std.specs.Io.Buffered.{reader_buffer, reader_capacity, reader_inner};
ghost use Rattle.std.specs.IoError.{error_kind};
ghost use Rattle.std.specs.Prelude.{◌≡◌, [], IfErr, IfOk};

use std::alloc::Global;
use std::io::{self, BufReader, ErrorKind, Read, Write};

/// A stream with a read buffer of 8,192 bytes: a frame that has arrived whole takes one system call
/// to read, not three. Writes are not buffered: what `write` takes has gone to the stream when it
/// returns. Code that reads the stream by other means misses the bytes in the buffer.
#[derive(Drop)]
pub struct ReadAhead<S> {
    reader: BufReader<S>,
}

impl<S: Read + Write + Drop> ReadAhead<S> {
    /// Wraps a stream, with an empty buffer. The only error is `OutOfMemory`, if an allocation
    /// failed; the stream is then dropped.
    pub fn new(alloc: Global, stream: S) -> io::Result<ReadAhead<S>>
        ensures stream { IfOk result (λ ahead. reader_inner ahead.reader ≡ stream) }
        ensures unread { IfOk result (λ ahead. reader_buffer ahead.reader ≡ []) }
        ensures room { IfOk result (λ ahead. reader_capacity ahead.reader ≡ 8192) }
        ensures err { IfErr result (λ e. error_kind e ≡ ErrorKind.OutOfMemory) }
    {
        let reader = BufReader::new(alloc, stream)?;
        Ok(ReadAhead { reader })
    }
}

impl<S: Read + Write> Read for ReadAhead<S> {
    ghost use Rattle.std.specs.Io.Buffered.{reader_remaining};

    ghost remaining = { λ s. reader_remaining S.remaining s.reader };

    fn read(&mut self, buf: &mut [u8]) -> io::Result<usize> {
        self.reader.read(buf)
    }
}

impl<S: Read + Write> Write for ReadAhead<S> {
    ghost use Rattle.std.specs.Io.Buffered.{reader_inner};

    ghost contents = { λ s. S.contents (reader_inner s.reader) };

    fn write(&mut self, buf: &[u8]) -> io::Result<usize> {
        self.reader.get_mut().write(buf)
    }

    fn flush(&mut self) -> io::Result<()> {
        self.reader.get_mut().flush()
    }
}
