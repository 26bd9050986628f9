// Recovery of a token ring of three processes that hold the token for two ticks, up to time 10.

use crate::logs::{add, open};
use commitlog::{Log, LogFault, format};
use disk::{DiskFault, DiskPlan, MemDisk, Torn};
use eventkey::{Listed, Message};
use model::{State, WorldFault};
use models::TokenRing;
use recovery::{Front, RecoveryFault, encode_events, events_length, header, recover};
use std::alloc::{AllocError, Global};
use std::test::Fail;

mod bytes;
mod device;
mod ends;
mod faults;
mod grown;
mod memory;
mod mended;
mod old_disks;
mod parts;
mod stops;

fn ring() -> TokenRing {
    TokenRing::new(3, 2, 1)
}

const END: u64 = 10;

/// The events of the sequential simulation, and the pending message at the end.
const EVENTS: [[u64; 8]; 6] = [
    [1, 0, 0, 0, 0, 0, 0, 0],
    [3, 0, 1, 1, 0, 1, 0, 0],
    [5, 1, 0, 2, 0, 2, 0, 0],
    [7, 2, 0, 0, 0, 3, 0, 0],
    [9, 0, 2, 1, 0, 4, 0, 0],
    [11, 1, 1, 2, 0, 5, 0, 0],
];

fn messages(alloc: Global, numbers: &[[u64; 8]]) -> Result<Vec<Message>, Fail> {
    let mut messages = Vec::new(alloc);
    for [time, from, number, to, a, b, c, d] in numbers {
        messages.push(Message::new(
            *time,
            u32::try_from(*from)?,
            *number,
            u32::try_from(*to)?,
            *a,
            *b,
            *c,
            *d,
        )?)?;
    }
    Ok(messages)
}

fn body(alloc: Global, g: u64, numbers: &[[u64; 8]]) -> Result<Vec<u8>, Fail> {
    let messages = messages(alloc, numbers)?;
    if messages.len() > 100 {
        return Ok(Vec::new(alloc));
    }
    Ok(encode_events(alloc, g, messages.as_slice())?)
}

/// A log without records under this header.
fn log_under(alloc: Global, sector: &[u8; 512]) -> Result<Log<MemDisk>, LogFault> {
    let mut disk = MemDisk::blank(alloc, 64)?;
    format(&mut disk, sector)?;
    open(alloc, disk)
}

/// Appends the record of a commit.
fn commit(alloc: Global, log: &mut Log<MemDisk>, g: u64, numbers: &[[u64; 8]]) -> Result<(), Fail> {
    let body = body(alloc, g, numbers)?;
    Ok(log.append(1, body.as_slice())?)
}

/// A commit: its time, and the places in `EVENTS` of its first event and of the one after its last.
type Commit = (u64, usize, usize);

/// All events before the end.
const ALL: [Commit; 3] = [(1, 0, 0), (7, 0, 3), (END, 3, 5)];

/// A formatted log with the records of these commits.
fn log_of(alloc: Global, commits: &[Commit]) -> Result<Log<MemDisk>, Fail> {
    let mut log = log_under(alloc, &header(alloc, &ring(), END))?;
    let events: &[[u64; 8]] = &EVENTS;
    for (g, first, end) in commits {
        let Some(numbers) = events.get(*first..*end) else {
            return Err(Fail::new("no such events"));
        };
        commit(alloc, &mut log, *g, numbers)?;
    }
    Ok(open(alloc, log.into_disk())?)
}

/// A log of three commits with all events before the end.
fn log_of_all(alloc: Global) -> Result<Log<MemDisk>, Fail> {
    log_of(alloc, &ALL)
}

/// The front of the ring at the end.
fn front_at_the_end(alloc: Global) -> Result<Front, Fail> {
    let mut states = Vec::new(alloc);
    for count in [2, 2, 1] {
        states.push(State::from_slice(alloc, &[count])?)?;
    }
    Ok(Front {
        g: END,
        states: Listed::from_vec(states),
        numbers: Listed::from_vec([3, 2, 1].to_vec(alloc)?),
        pending: Listed::from_vec(messages(alloc, &EVENTS[5..])?),
        log: Listed::from_vec(messages(alloc, &EVENTS[..5])?),
    })
}

fn is_of_memory(fault: &RecoveryFault) -> bool {
    matches!(
        fault,
        RecoveryFault::NoMemory | RecoveryFault::Log(LogFault::NoMemory)
    )
}

/// The fault of a call, if there is one. An allocation failure is in no table: it ends the test.
fn fault_of<T: Drop>(
    made: Result<T, RecoveryFault>,
) -> Result<Option<RecoveryFault>, RecoveryFault> {
    match made {
        Err(fault) if is_of_memory(&fault) => Err(fault),
        Err(fault) => Ok(Some(fault)),
        Ok(_) => Ok(None),
    }
}

/// The fault of the recovery of a log that is opened again, if there is one.
fn fault_in(alloc: Global, log: Log<MemDisk>) -> Result<Option<RecoveryFault>, RecoveryFault> {
    let mut log = open(alloc, log.into_disk())?;
    fault_of(recover(alloc, &ring(), &mut log, END))
}
