// Calls with one allocation refused: a run, and what is printed of the disk that it leaves.

ghost use Rattle.std.specs.Prelude.{◌≡◌};

use crate::disks::{END, TEARINGS, formatted, plan, ring};
use crate::refusals::crashed;
use crate::refusals::openings::{is_of_memory, look_at_crashes};
use commitlog::LogFault;
use disk::{MemDisk, Returned};
use model::Words;
use models::TokenRing;
use recovery::RecoveryFault;
use runs::commands::{CommandFault, Simulated, committed, run};
use runs::{Plan, Watch};
use std::alloc::Global;
use std::process::Abort;
use std::test::Fail;
use texts::{write_log, write_world};

/// The log and then the world after a whole run.
const LOG: &str =
    "1 0 0 0 0 0 0 0\n3 0 1 1 0 1 0 0\n5 1 0 2 0 2 0 0\n7 2 0 0 0 3 0 0\n9 0 2 1 0 4 0 0\n";

const WORLD: &str = "\
virtual time 10
lp 0 sent 3 state 2
lp 1 sent 2 state 2
lp 2 sent 1 state 1
pending 11 1 1 2 0 5 0 0
";

const RAN: &str = "node 0 ran 2\nnode 1 ran 2\nnode 2 ran 1\ncommitted 10 events 5\n";

/// The last line of a run that goes on after one that ran out of memory.
const COMMITTED: &str = "committed 10 events 5\n";

/// The ring of one token up to time 10.
fn one_token() -> Simulated<TokenRing>
    ensures { result.end ≡ 10 }
{
    Simulated {
        model: ring(),
        end: END,
    }
}

/// The last commit that a run reported: its time and the number of events in the log. And the
/// greatest number of events that one commit added.
#[derive(Drop, Default)]
struct Last {
    time: u64,
    events: usize,
    most: usize,
}

impl Watch for Last {
    fn committed(&mut self, time: u64, events: usize) {
        self.time = time;
        self.most = self.most.max(events.saturating_sub(self.events));
        self.events = events;
    }
}

/// Whether a fault is an allocation failure, of any layer.
fn is_allocation_failure(fault: &CommandFault) -> bool {
    match fault {
        CommandFault::NoMemory
        | CommandFault::Log(LogFault::NoMemory)
        | CommandFault::Recovery(RecoveryFault::NoMemory)
        | CommandFault::Recovery(RecoveryFault::Log(LogFault::NoMemory)) => true,
        CommandFault::Session(fault) => is_of_memory(fault),
        _ => false,
    }
}

/// A text with room for everything that is printed here.
fn room(alloc: Global) -> Result<Vec<u8>, Fail> {
    match Vec::with_capacity(alloc, 512) {
        Ok(text) => Ok(text),
        Err(_refused) => Ok(Vec::with_capacity(alloc, 512)?),
    }
}

/// Runs over three nodes, with a checkpoint after each `every` rounds.
fn run_once(
    alloc: Global,
    disk: MemDisk,
    every: u32,
    last: &mut Last,
    out: &mut Vec<u8>,
) -> Returned<MemDisk, (), CommandFault> {
    run(alloc, &one_token(), disk, plan(3, 16, every), last, out)
}

/// The disk that a whole run leaves. After an allocation failure the run must have printed nothing,
/// and its disk must have what it reported; a second run goes on to the end.
pub fn ran(rt: &impl Abort, alloc: Global, sectors: u32, every: u32) -> Result<MemDisk, Fail> {
    let disk = formatted(alloc, &ring(), sectors, END)?;
    let mut out = room(alloc)?;
    let mut last = Last::default();
    let Returned { disk, outcome } = run_once(alloc, disk, every, &mut last, &mut out);
    let Err(fault) = outcome else {
        assert!(rt; last.time == END && out.as_slice() == RAN.as_bytes());
        return Ok(disk);
    };
    assert!(rt; is_allocation_failure(&fault), "{fault}");
    assert!(rt; out.is_empty());
    look_at_crashes(rt, alloc, &ring(), &disk, last.time)?;
    let Returned { disk, outcome } = run_once(alloc, disk, every, &mut last, &mut out);
    assert!(rt; outcome.is_ok() && out.as_slice().ends_with(COMMITTED.as_bytes()));
    Ok(disk)
}

/// What is printed of a disk.
#[derive(Clone, Copy)]
enum Printed {
    Log,
    World,
}

fn print(
    alloc: Global,
    printed: Printed,
    disk: MemDisk,
    out: &mut Vec<u8>,
) -> Result<(), CommandFault> {
    let front = committed(alloc, &one_token(), disk)?;
    let (states, numbers) = (front.states.as_slice(), front.numbers.as_slice());
    let mut words = Vec::with_capacity(alloc, states.len())?;
    'states: for state in states {
        words.push(Words::from_slice(alloc, state.as_slice())?)?;
    }
    match printed {
        Printed::Log => write_log(front.log.as_slice(), out)?,
        Printed::World if words.len() == numbers.len() => {
            write_world(
                front.g,
                words.as_slice(),
                numbers,
                front.pending.as_slice(),
                out,
            )?;
        }
        Printed::World => {}
    }
    Ok(())
}

/// Prints a disk. After an allocation failure nothing must be printed, and a second call prints it
/// all.
fn look_at_text(
    rt: &impl Abort,
    alloc: Global,
    disk: &MemDisk,
    printed: Printed,
    text: &str,
) -> Result<(), Fail> {
    let mut out = room(alloc)?;
    if let Err(fault) = print(alloc, printed, crashed(alloc, disk, TEARINGS[0])?, &mut out) {
        assert!(rt; is_allocation_failure(&fault), "{fault}");
        assert!(rt; out.is_empty());
        print(alloc, printed, crashed(alloc, disk, TEARINGS[0])?, &mut out)?;
    }
    assert!(rt; out.as_slice() == text.as_bytes());
    Ok(())
}

#[test]
fn a_run_prints_everything_after_a_refusal(rt: HostRuntime) -> Result<(), Fail> {
    for (sectors, every) in [(64, 0), (11, 3)] {
        let disk = ran(&rt, rt.alloc(), sectors, every)?;
        look_at_text(&rt, rt.alloc(), &disk, Printed::Log, LOG)?;
        look_at_text(&rt, rt.alloc(), &disk, Printed::World, WORLD)?;
    }
    Ok(())
}

/// 64 tokens that go round eight processes, a tick at each, up to time 10.
fn many_tokens() -> Simulated<TokenRing>
    ensures { result.end ≡ 10 }
{
    Simulated {
        model: TokenRing::new(8, 1, 64),
        end: END,
    }
}

/// The last line of their run.
const ALL_COMMITTED: &str = "committed 10 events 576\n";

/// Runs them over one node. A commit takes at least 100 events, which are sorted by keys of their
/// own.
fn run_many(
    alloc: Global,
    disk: MemDisk,
    last: &mut Last,
    out: &mut Vec<u8>,
) -> Returned<MemDisk, (), CommandFault> {
    let plan = Plan {
        commit_every: 100,
        ..plan(1, 200, 0)
    };
    run(alloc, &many_tokens(), disk, plan, last, out)
}

#[test]
fn a_refused_commit_of_many_events_keeps_what_was_reported(rt: HostRuntime) -> Result<(), Fail> {
    let model = many_tokens().model;
    let disk = formatted(rt.alloc(), &model, 128, END)?;
    let mut out = room(rt.alloc())?;
    let mut last = Last::default();
    let Returned { disk, outcome } = run_many(rt.alloc(), disk, &mut last, &mut out);
    let Err(fault) = outcome else {
        assert!(rt; last.most > 64 && out.as_slice().ends_with(ALL_COMMITTED.as_bytes()));
        return Ok(());
    };
    assert!(rt; is_allocation_failure(&fault), "{fault}");
    assert!(rt; out.is_empty());
    look_at_crashes(&rt, rt.alloc(), &model, &disk, last.time)?;
    let Returned { disk: _, outcome } = run_many(rt.alloc(), disk, &mut last, &mut out);
    assert!(rt; outcome.is_ok() && out.as_slice().ends_with(ALL_COMMITTED.as_bytes()));
    Ok(())
}
