// The processors on which this program may run, for node programs that have one each.

use node::MOST_NODES;
use std::alloc::{AllocError, Global};
use std::fs::{self, File};
use std::io::{self, Error as IoError, ErrorKind};
use std::process::Command;
use std::rt::Files;

/// The maximum number of processors that are listed: a run has at most this many nodes.
const MOST: usize = MOST_NODES as usize;

/// The processors on which the system lets this program run, at most 64 of them.
///
/// Fails if the system does not say so, or an allocation failed.
pub(crate) fn processors<R>(rt: &R) -> io::Result<Vec<u32>>
where
    R: Files<File = File> + AllocGlobal,
{
    let status = fs::read_to_string(rt, "/proc/self/status")?;
    for line in status.as_str().split('\n') {
        if let Some(list) = line.strip_prefix("Cpus_allowed_list:") {
            return listed(rt.alloc(), list.trim());
        }
    }
    Err(IoError::from(ErrorKind::InvalidData))
}

/// How many processors the system lets this program run on, at most 64; 1 if the system does not
/// say, or an allocation failed.
pub fn count_processors<R>(rt: &R) -> u32
where
    R: Files<File = File> + AllocGlobal,
{
    match processors(rt) {
        Ok(processors) => u32::try_from(processors.len()).unwrap_or(1).max(1),
        Err(_) => 1,
    }
}

/// The numbers of a list such as `0-3,8`, at most 64 of them. Fails if it is none.
fn listed(alloc: Global, list: &str) -> io::Result<Vec<u32>> {
    let mut processors = Vec::with_capacity(alloc, MOST)?;
    for part in list.split(',') {
        let Some((first, last)) = span_of(part) else {
            return Err(IoError::from(ErrorKind::InvalidData));
        };
        append_span(first, last, &mut processors)?;
    }
    Ok(processors)
}

/// The first and the last number of a text such as `0-3` or `8`.
fn span_of(text: &str) -> Option<(u32, u32)> {
    let (first, last) = match text.split_once('-') {
        Some(parts) => parts,
        None => (text, text),
    };
    Some((first.parse::<u32>().ok()?, last.parse::<u32>().ok()?))
}

/// Appends the numbers from the first to the last, until there are 64.
fn append_span(first: u32, last: u32, processors: &mut Vec<u32>) -> io::Result<()> {
    for processor in first..=last {
        if processors.len() >= MOST {
            return Ok(());
        }
        processors.push(processor)?;
    }
    Ok(())
}

/// The processor of a node: its own if there are as many as nodes, and otherwise they are shared in
/// turn.
pub(crate) fn processor_of(processors: &[u32], node: usize) -> Option<u32> {
    if processors.is_empty() {
        return None;
    }
    processors.get(node % processors.len()).copied()
}

/// The command that starts a program on a processor.
pub(crate) fn command_on(
    alloc: Global,
    processor: u32,
    program: &str,
) -> Result<Command, AllocError> {
    let number = format!(in alloc; "{processor}")?;
    let mut command = Command::new(alloc, "taskset")?;
    command.arg("-c")?.arg(number.as_str())?.arg(program)?;
    Ok(command)
}
