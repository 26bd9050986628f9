// Disks that are run plainly and over nodes, in any order.

use crate::disks::{END, Nobody, disk_of, formatted, front_of, front_on, phold, plan, ring};
use commitlog::LogFault;
use coordinator::{Extended, extend};
use disk::{DiskPlan, MemDisk, Returned, Torn};
use model::Model as Simulated;
use plain::{PlainFault, PlainPlan, PlainWatch, Reached, run_plain};
use recovery::{Front, RecoveryFault, front_of as front_of_world};
use runs::{Plan as RunPlan, RunFault, run_local};
use std::alloc::Global;
use std::test::Fail;

/// The progress of a run: the time of its last commit, the number of commits, and the sectors that
/// the log took last.
#[derive(Clone, Copy, Default)]
pub(crate) struct Seen {
    pub(crate) time: u64,
    pub(crate) events: usize,
    pub(crate) commits: u32,
    pub(crate) used: u32,
}

impl PlainWatch for Seen {
    fn committed(&mut self, time: u64, events: usize) {
        self.time = time;
        self.events = events;
        self.commits = self.commits.saturating_add(1);
    }

    fn stored(&mut self, used: u32, _sectors: u32) {
        self.used = used;
    }
}

/// A plan of a plain run without seals, of at most this number of commits.
pub(crate) fn plain_plan(commit_every: u32, checkpoint_every: u32, commits: u32) -> PlainPlan {
    PlainPlan {
        commit_every,
        checkpoint_every,
        seals: false,
        commits,
    }
}

/// The front of the plain loop at this end, at most 1,000 ticks, without a disk.
pub(crate) fn sequential<M: Simulated>(alloc: Global, model: &M, end: u64) -> Result<Front, Fail> {
    let end = end.clamp(1, 1000);
    let world = runs::sequential(alloc, model, end)?;
    Ok(front_of_world(alloc, world, end)?)
}

/// More rounds and commits than a run has.
const ALL: u32 = 1_000_000;

/// The numbers of a call; a word that is none stands for all.
fn numbers(words: &str) -> [u32; 5] {
    let mut numbers = [0; 5];
    for (place, word) in words.split(' ').enumerate() {
        if let Some(number) = numbers.get_mut(place) {
            *number = word.parse().unwrap_or(ALL);
        }
    }
    numbers
}

/// The disk that a plain run with seals leaves, if it reaches the end or makes all its commits.
fn run_plainly<M: Simulated>(
    alloc: Global,
    model: &M,
    disk: MemDisk,
    end: u64,
    plan: PlainPlan,
) -> Option<MemDisk> {
    let mut seen = Seen::default();
    let sealing = PlainPlan {
        seals: true,
        ..plan
    };
    let ran = run_plain(alloc, model, disk, end.clamp(1, 1000), sealing, &mut seen);
    let is_right = match ran.outcome {
        Ok(done) => done.time == end && seen.commits <= plan.commits,
        Err(PlainFault::Commits) => seen.commits == plan.commits && seen.time < end,
        Err(_) => false,
    };
    if is_right { Some(ran.disk) } else { None }
}

/// The disk that a run over nodes leaves, if it reaches the end or makes all its rounds.
fn run_over_nodes<M: Simulated>(
    alloc: Global,
    model: &M,
    disk: MemDisk,
    end: u64,
    numbers: [u32; 5],
) -> Option<MemDisk> {
    let [nodes, batch, every, rounds, seals] = numbers;
    let plan = RunPlan {
        rounds,
        seals: seals == 1,
        ..plan(nodes, batch, every)
    };
    let ran = run_local(alloc, model, disk, end.clamp(1, 1000), plan, &mut Nobody);
    match ran.outcome {
        Ok(_) | Err(RunFault::Rounds) => Some(ran.disk),
        Err(_) => None,
    }
}

/// The disk on which a later end is put in force after this one.
fn with_end<M: Simulated>(
    alloc: Global,
    model: &M,
    disk: MemDisk,
    end: u64,
    later: u64,
) -> Option<MemDisk> {
    let Returned { disk, outcome } = extend(alloc, model, disk, later);
    match outcome {
        Ok(Extended { before, .. }) if before == end => Some(disk),
        _ => None,
    }
}

/// The disk that a call leaves, if it ends as it may, and the end in force then.
fn called<M: Simulated>(
    alloc: Global,
    model: &M,
    disk: MemDisk,
    end: u64,
    call: &str,
) -> (Option<MemDisk>, u64) {
    let (name, words) = call.split_once(' ').unwrap_or((call, ""));
    let numbers = numbers(words);
    match name {
        "extend" => {
            let later = u64::from(numbers[0]);
            (with_end(alloc, model, disk, end, later), later)
        }
        "plain" => {
            let plan = plain_plan(numbers[0], numbers[1], numbers[2]);
            (run_plainly(alloc, model, disk, end, plan), end)
        }
        _ => (run_over_nodes(alloc, model, disk, end, numbers), end),
    }
}

/// The front for the last end after these calls on a disk that is made for the first one. Each call
/// opens the disk, after a crash: `run` over this number of nodes, with this batch, this number of
/// rounds between checkpoints (0 for none), this limit of rounds, and 1 for a seal after each
/// checkpoint; `plain` with this number of events between commits, this number of commits between
/// checkpoints, and this limit of commits, and with seals; `extend` puts this end in force.
pub(crate) fn after<M: Simulated>(
    alloc: Global,
    model: &M,
    sectors: u32,
    ends: (u64, u64),
    calls: &str,
) -> Result<Front, Fail> {
    let (first, last) = ends;
    let mut image = formatted(alloc, model, sectors, first)?.crash(alloc, Torn::Old)?;
    let mut end = first;
    for call in calls.split(", ") {
        let disk = disk_of(alloc, image, DiskPlan::default())?;
        let (left, now) = called(alloc, model, disk, end, call);
        let Some(left) = left else {
            return Err(Fail::from("a call does not end as it may"));
        };
        image = left.crash(alloc, Torn::Old)?;
        end = now;
    }
    front_of(alloc, model, image, last)
}

/// The first end is 20, and the last one 60.
const HISTORIES: &str = "\
    extend 60, plain 1 0 all\n\
    extend 60, plain 60 2 all\n\
    plain 0 1 all, extend 60, plain 7 3 all\n\
    plain 20 0 2, plain 20 1 all, extend 60, run 2 7 2 3 1, plain all 0 all\n\
    run 3 7 2 2 1, plain 9 2 3, run 2 7 2 all 1, extend 60, plain 50 0 2, run 1 7 2 all 1\n\
    plain 5 0 3, extend 21, run 2 7 2 1 1, extend 60, plain 30 4 all\n\
    plain 1 0 all, extend 60, run 4 7 2 all 1\n\
";

#[test]
fn each_history_is_the_plain_loop(rt: HostRuntime) -> Result<(), Fail> {
    let model = phold();
    let loop_front = sequential(rt.alloc(), &model, 60)?;
    assert!(rt; 100 < loop_front.log.as_slice().len());
    for calls in HISTORIES.lines() {
        let front = after(rt.alloc(), &model, 512, (20, 60), calls)?;
        assert!(rt; loop_front.is_same(&front), "{calls}");
    }
    Ok(())
}

/// Runs the ring plainly to time 10, on a disk for this end.
pub(crate) fn ring_run<W: PlainWatch>(
    alloc: Global,
    disk: MemDisk,
    plan: PlainPlan,
    watch: &mut W,
) -> Returned<MemDisk, Reached, PlainFault> {
    run_plain(alloc, &ring(), disk, END, plan, watch)
}

fn is_of_memory(fault: &PlainFault) -> bool {
    matches!(
        fault,
        PlainFault::NoMemory
            | PlainFault::Recovery(RecoveryFault::NoMemory)
            | PlainFault::Recovery(RecoveryFault::Log(LogFault::NoMemory))
    )
}

/// The fault of a run, which a table has. An allocation failure is in no table: it ends the test.
pub(crate) fn fault_of<T: Drop>(
    outcome: Result<T, PlainFault>,
) -> Result<Option<PlainFault>, PlainFault> {
    match outcome.err() {
        Some(fault) if is_of_memory(&fault) => Err(fault),
        other => Ok(other),
    }
}

/// Runs of the ring, which has events at 1, 3, 5, 7 and 9: events between commits, commits between
/// checkpoints, seals (1 for some), the most commits, and the sectors of the disk; then the fault,
/// the commits, the time of the last one, its events, and the sectors in use. A commit of one or two
/// events takes two sectors, and so do a checkpoint and a seal. A seal without room is left out.
const ROWS: &str = "\
    0 0 0 9 20 => None 5 10 5 12\n\
    1 0 0 9 20 => None 5 10 5 12\n\
    2 0 0 9 20 => None 3 10 5 8\n\
    2 2 0 9 20 => None 3 10 5 10\n\
    2 3 1 9 13 => None 3 10 5 12\n\
    2 3 1 9 11 => None 3 10 5 10\n\
    9 1 0 1 20 => None 1 10 5 6\n\
    2 1 0 2 20 => Some(Commits) 2 9 4 10\n\
    1 0 0 0 20 => Some(Commits) 0 0 0 2\n\
    2 0 0 9 7 => Some(Full) 2 9 4 6\n\
    2 1 0 9 5 => Some(Full) 1 5 2 2\n\
";

/// What such a run shows. The front of its disk must be that of its last commit.
fn ran(alloc: Global, words: &str) -> Result<String, Fail> {
    let [commit_every, checkpoint_every, seals, commits, sectors] = numbers(words);
    let plan = PlainPlan {
        seals: seals == 1,
        ..plain_plan(commit_every, checkpoint_every, commits)
    };
    let mut seen = Seen::default();
    let ran = ring_run(
        alloc,
        formatted(alloc, &ring(), sectors, END)?,
        plan,
        &mut seen,
    );
    let fault = fault_of(ran.outcome)?;
    let front = front_on(alloc, &ring(), &ran.disk, END)?;
    let Seen {
        time,
        events,
        commits,
        used,
    } = seen;
    if (front.g, front.log.as_slice().len()) != (time, events) {
        return Err(Fail::from("the front is not that of the last commit"));
    }
    Ok(format!(in alloc; "{fault:?} {commits} {time} {events} {used}")?)
}

#[test]
fn a_plan_is_kept(rt: HostRuntime) -> Result<(), Fail> {
    for row in ROWS.lines() {
        let (words, shown) = row.split_once(" => ").unwrap_or((row, ""));
        assert!(rt; ran(rt.alloc(), words)?.as_str() == shown, "{row}");
    }
    Ok(())
}

#[test]
fn a_disk_of_another_end_is_refused(rt: HostRuntime) -> Result<(), Fail> {
    let disk = formatted(rt.alloc(), &ring(), 20, 11)?;
    let ran = ring_run(
        rt.alloc(),
        disk,
        plain_plan(1, 0, u32::MAX),
        &mut Seen::default(),
    );
    assert_eq!(rt;
        fault_of(ran.outcome)?,
        Some(PlainFault::Recovery(RecoveryFault::OtherModel))
    );
    Ok(())
}

/// Asks a run to stop before each commit from the one of the number `before` on.
#[derive(Clone, Copy)]
struct Asking {
    before: u32,
    opened: (u64, usize),
    commits: u32,
}

impl PlainWatch for Asking {
    fn opened(&mut self, time: u64, events: usize) {
        self.opened = (time, events);
    }

    fn committed(&mut self, _time: u64, _events: usize) {
        self.commits = self.commits.saturating_add(1);
    }

    fn is_stopped(&mut self) -> bool {
        self.before <= self.commits.saturating_add(1)
    }
}

/// Before which commit a run of the ring is asked to stop, by commits of two events, and the most
/// commits; why it stops, and what is then committed: the time and the events. The end is reached by
/// the third commit.
const STOPS: &str = "\
    1 9 => Some(Stopped { time: 5, events: 2 }) 5 2\n\
    2 9 => Some(Stopped { time: 9, events: 4 }) 9 4\n\
    2 3 => Some(Stopped { time: 9, events: 4 }) 9 4\n\
    2 2 => Some(Commits) 9 4\n\
    3 9 => None 10 5\n\
";

/// How such a run ends. It must open an empty log, and a second run what is then committed.
fn stopped(alloc: Global, words: &str) -> Result<String, Fail> {
    let [before, commits, ..] = numbers(words);
    let mut asking = Asking {
        before,
        opened: (1, 1),
        commits: 0,
    };
    let plan = plain_plan(2, 0, commits);
    let ran = ring_run(
        alloc,
        formatted(alloc, &ring(), 20, END)?,
        plan,
        &mut asking,
    );
    let fault = fault_of(ran.outcome)?;
    let is_first = asking.opened == (0, 0);
    let left = ran.disk.crash(alloc, Torn::Old)?;
    let front = front_of(alloc, &ring(), left.clone()?, END)?;
    let (time, events) = (front.g, front.log.as_slice().len());
    let disk = disk_of(alloc, left, DiskPlan::default())?;
    let resumed = ring_run(alloc, disk, plan, &mut asking);
    let _fault = fault_of(resumed.outcome)?;
    if !is_first || asking.opened != (time, events) {
        return Err(Fail::from("a run does not open what is committed"));
    }
    Ok(format!(in alloc; "{fault:?} {time} {events}")?)
}

#[test]
fn a_run_stops_after_the_next_commit(rt: HostRuntime) -> Result<(), Fail> {
    for row in STOPS.lines() {
        let (words, shown) = row.split_once(" => ").unwrap_or((row, ""));
        assert!(rt; stopped(rt.alloc(), words)?.as_str() == shown, "{row}");
    }
    Ok(())
}
