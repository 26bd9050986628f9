// The texts of logs and worlds, and writers that fail.

use eventkey::Message;
use smallvec::SmallVec;
use std::alloc::Global;
use std::io::{Error, ErrorKind, Result, Write};
use std::test::Fail;
use texts::{write_log, write_world};

type Tested<T> = std::result::Result<T, Fail>;

/// A writer that accepts at most `count` bytes per call, and refuses the call number `fail`.
#[derive(Drop)]
struct Faulty {
    taken: Vec<u8>,
    count: usize,
    calls: usize,
    fail: usize,
    kind: ErrorKind,
}

impl Write for Faulty {
    fn write(&mut self, buf: &[u8]) -> Result<usize> {
        let call = self.calls;
        self.calls = self.calls.saturating_add(1);
        if call == self.fail {
            return Err(Error::from(self.kind));
        }
        let count = buf.len().min(self.count);
        self.taken.extend_from_slice(&buf[..count])?;
        Ok(count)
    }

    fn flush(&mut self) -> Result<()> {
        Ok(())
    }
}

const LOG: &str =
    "1 0 0 0 0 0 0 0\n2199023255551 4294967295 18446744073709551615 7 3 18446744073709551614 8 18446744073709551613\n";

const WORLD: &str = "\
virtual time 9
lp 0 sent 0 state
lp 1 sent 9223372036854775808 state 5 0 18446744073709551615
pending 1 0 0 0 0 0 0 0
pending 2199023255551 4294967295 18446744073709551615 7 3 18446744073709551614 8 18446744073709551613
";

fn log() -> Option<[Message; 2]> {
    let first = Message::new(1, 0, 0, 0, 0, 0, 0, 0).ok()?;
    let last = Message::new(
        (1 << 41) - 1,
        u32::MAX,
        u64::MAX,
        7,
        3,
        u64::MAX - 1,
        8,
        u64::MAX - 2,
    )
    .ok()?;
    Some([first, last])
}

/// A writer that has taken nothing.
fn writer(alloc: Global, count: usize, fail: usize, kind: ErrorKind) -> Faulty {
    Faulty {
        taken: Vec::new(alloc),
        count,
        calls: 0,
        fail,
        kind,
    }
}

/// Writes a world of two processes.
fn write_two<W: Write>(alloc: Global, out: &mut W) -> Tested<Result<()>> {
    let mut states = Vec::new(alloc);
    states.push(SmallVec::new(alloc))?;
    states.push(SmallVec::from_slice(alloc, &[5, 0, u64::MAX])?)?;
    let log = log().ok_or("log")?;
    Ok(write_world(9, states.as_slice(), &[0, 1 << 63], &log, out))
}

#[test]
fn a_log_has_a_line_for_each_event(rt: HostRuntime) -> Tested<()> {
    let mut out = Vec::new(rt.alloc());
    write_log(&[], &mut out)?;
    assert_eq!(rt; out.len(), 0);
    let log = log().ok_or("log")?;
    write_log(&log, &mut out)?;
    assert_eq!(rt; out.as_slice(), LOG.as_bytes());
    Ok(())
}

#[test]
fn a_world_has_its_processes_and_pending_messages(rt: HostRuntime) -> Tested<()> {
    let mut out = Vec::new(rt.alloc());
    write_two(rt.alloc(), &mut out)??;
    assert_eq!(rt; out.as_slice(), WORLD.as_bytes());
    Ok(())
}

/// Whether a world is written to a writer that refuses this call. `None` is that what the writer has
/// then is wrong.
fn is_written(alloc: Global, fail: usize) -> Tested<Option<bool>> {
    let mut out = writer(alloc, 2, fail, ErrorKind::BrokenPipe);
    let done = write_two(alloc, &mut out)?.is_ok();
    let right = WORLD.as_bytes().starts_with(out.taken.as_slice())
        && done == (out.calls <= fail)
        && done == (out.taken.len() == WORLD.len());
    Ok(if right { Some(done) } else { None })
}

#[test]
fn a_failing_writer_gets_a_prefix_of_a_world(rt: HostRuntime) -> Tested<()> {
    let mut done = false;
    for fail in 0..200 {
        let written = is_written(rt.alloc(), fail)?;
        assert!(rt; written.is_some(), "{fail}");
        done = done || written == Some(true);
    }
    assert!(rt; done);
    Ok(())
}

/// Errors of a writer after which the write is not repeated.
const KINDS: [ErrorKind; 4] = [
    ErrorKind::BrokenPipe,
    ErrorKind::WouldBlock,
    ErrorKind::TimedOut,
    ErrorKind::StorageFull,
];

#[test]
fn an_error_of_the_writer_is_returned_unchanged(rt: HostRuntime) -> Tested<()> {
    let log = log().ok_or("log")?;
    for kind in KINDS {
        let mut out = writer(rt.alloc(), 2, 3, kind);
        assert!(rt; write_log(&log, &mut out).is_err_and(|error| error.kind() == kind));
        assert_eq!(rt; out.calls, 4);
    }
    Ok(())
}

#[test]
fn an_interrupted_write_is_repeated(rt: HostRuntime) -> Tested<()> {
    let log = log().ok_or("log")?;
    let mut out = writer(rt.alloc(), 1, 2, ErrorKind::Interrupted);
    write_log(&log, &mut out)?;
    assert_eq!(rt; out.taken.as_slice(), LOG.as_bytes());
    Ok(())
}

#[test]
fn a_writer_that_accepts_nothing_is_an_error(rt: HostRuntime) -> Tested<()> {
    let log = log().ok_or("log")?;
    let mut out = writer(rt.alloc(), 0, 9, ErrorKind::Other);
    assert!(rt; write_log(&log, &mut out).is_err_and(|error| error.kind() == ErrorKind::WriteZero));
    Ok(())
}
