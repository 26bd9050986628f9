// A disk in a program whose caller has closed a standard stream.

use crate::shared::{on_file, opened};
use std::alloc::Global;
use std::io::{Error, ErrorKind};
use std::path::PathBuf;
use std::process::Command;
use std::test::Fail;
use std::{env, fs, io};

/// The environment variable that has the number of the closed stream, for a test that starts itself
/// again.
const CLOSED: &str = "TIMEWARP_CLOSED_STREAM";

/// Whether the stream that was closed is so once a new disk is open, so that nothing that is printed
/// goes to the disk.
fn stays_closed(rt: &HostRuntime, path: &PathBuf) -> Result<bool, Fail> {
    let Ok(stream) = env::var(rt, CLOSED) else {
        return Ok(false);
    };
    let link = format!(in rt.alloc(); "/proc/self/fd/{stream}")?;
    let _disk = opened(rt, path, Some(8))?;
    Ok(fs::read_link(rt, link.as_str()).is_err())
}

/// A shell that runs this line with these words as `$0` and `$1`.
fn shell(alloc: Global, line: &str, program: &str, test: &str) -> io::Result<Command> {
    let mut shell = Command::new(alloc, "/bin/sh")?;
    shell.args(["-c", line, program, test])?;
    Ok(shell)
}

/// Starts this program again, with the same words and without the stream of this number. Returns
/// whether it succeeds.
fn succeeds_without(rt: &HostRuntime, stream: &str) -> io::Result<bool> {
    let mut words = env::args(rt)?;
    let (Some(program), Some(test)) = (words.next(), words.next()) else {
        return Err(Error::from(ErrorKind::NotFound));
    };
    let line = format!(in rt.alloc();
        "export {CLOSED}={stream}; exec \"$0\" \"$1\" </dev/null >/dev/null 2>&1 {stream}>&-"
    )?;
    let mut shell = shell(rt.alloc(), line.as_str(), program.as_str(), test.as_str())?;
    Ok(shell.status(rt)?.success())
}

/// Whether this program succeeds without each of the standard streams.
fn succeeds_without_each(rt: &HostRuntime) -> io::Result<bool> {
    Ok(succeeds_without(rt, "0")? && succeeds_without(rt, "1")? && succeeds_without(rt, "2")?)
}

#[test]
fn a_disk_does_not_take_the_place_of_a_closed_stream(rt: HostRuntime) -> Result<(), Fail> {
    let holds = match env::var(&rt, CLOSED) {
        Ok(_) => on_file(&rt, "stream", stays_closed)?,
        Err(_) => succeeds_without_each(&rt)?,
    };
    assert!(rt; holds);
    Ok(())
}
