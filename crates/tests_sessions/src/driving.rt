// Whole runs on disks in memory.

ghost use Rattle.std.specs.Prelude.{◌<◌, ◌≤◌};
ghost use Rattle.node.specs.Node.{most_nodes};

use crate::disks::{END, Near, formatted, opened, plan, ring};
use crate::steps::stepped;
use commitlog::LogFault;
use coordinator::{SessionFault, Step};
use models::TokenRing;
use runs::{Finished, Plan, RunFault, Schedule, Turn, Watch, run_local, run_session};
use std::alloc::Global;
use std::test::Fail;

/// The commits that a run reported: their number, and the time and the event count of the last one.
/// Asks for a stop before the round of this number and each later one; 0 for no stop.
#[derive(Drop, Default)]
struct Seen {
    commits: u32,
    time: u64,
    events: usize,
    rounds: u32,
    stop_before: u32,
}

impl Watch for Seen {
    fn committed(&mut self, time: u64, events: usize) {
        self.commits = self.commits.saturating_add(1);
        self.time = time;
        self.events = events;
    }

    fn is_stopped(&mut self) -> bool {
        self.rounds = self.rounds.saturating_add(1);
        self.stop_before > 0 && self.rounds >= self.stop_before
    }
}

/// A plan of three nodes.
fn scheduled(schedule: Schedule, commit_every: u32, rounds: u32) -> Plan
    ensures some { 0 < result.nodes }
    ensures few { result.nodes ≤ most_nodes }
{
    Plan {
        schedule,
        commit_every,
        rounds,
        ..plan(3, 16, 0)
    }
}

/// Runs one token round three processes, two ticks at each, up to time 10.
fn run_on(
    alloc: Global,
    plan: Plan,
    seen: &mut Seen,
) -> Result<Result<Finished, RunFault>, LogFault>
    requires some { 0 < plan.nodes }
    requires few { plan.nodes ≤ most_nodes }
{
    let ring = ring();
    let disk = formatted(alloc, &ring, 64, END)?;
    Ok(run_local(alloc, &ring, disk, END, plan, seen).outcome)
}

/// Whether a run to the end makes this number of commits.
fn commits(
    alloc: Global,
    schedule: Schedule,
    commit_every: u32,
    commits: u32,
) -> Result<bool, Fail> {
    let mut seen = Seen::default();
    let Finished { ran, time, events } = run_on(
        alloc,
        scheduled(schedule, commit_every, 100),
        &mut seen,
    )??;
    Ok(
        ran.as_slice() == [2, 2, 1].as_slice()
            && (time, events) == (END, 5)
            && (seen.time, seen.events, seen.commits) == (END, 5, commits),
    )
}

/// A commit comes once this many events are gathered, and at the end. One turn after another: three
/// are reported in the second round, and the other two in the third, which reaches the end. With
/// overlap: one in the second, third, fourth, sixth and seventh round each, and the eighth reaches
/// the end.
#[test]
fn a_run_commits_after_a_number_of_events(rt: HostRuntime) -> Result<(), Fail> {
    for (schedule, commit_every, number) in [
        (Schedule::InTurn, 0, 3),
        (Schedule::InTurn, 1, 2),
        (Schedule::InTurn, 3, 2),
        (Schedule::InTurn, 4, 1),
        (Schedule::InTurn, 5, 1),
        (Schedule::InTurn, 400_000, 1),
        (Schedule::Overlapped, 0, 8),
        (Schedule::Overlapped, 1, 6),
        (Schedule::Overlapped, 3, 2),
        (Schedule::Overlapped, 5, 2),
        (Schedule::Overlapped, 400_000, 1),
    ] {
        let is_so = commits(rt.alloc(), schedule, commit_every, number)?;
        assert!(rt; is_so, "{schedule:?} {commit_every}");
    }
    Ok(())
}

/// Whether a run that is asked to stop before this round stops at this time with these events.
fn stops(
    alloc: Global,
    schedule: Schedule,
    stop_before: u32,
    commit_every: u32,
    time: u64,
    events: usize,
) -> Result<bool, Fail> {
    let mut seen = Seen {
        stop_before,
        ..Seen::default()
    };
    let ended = run_on(alloc, scheduled(schedule, commit_every, 100), &mut seen)?;
    Ok(
        ended.err() == Some(RunFault::Stopped { time, events })
            && (seen.time, seen.events, seen.rounds) == (time, events, stop_before),
    )
}

/// The outcome of a run of at most this number of rounds that is asked to stop before one of them.
fn asked(
    alloc: Global,
    stop_before: u32,
    rounds: u32,
) -> Result<Result<Finished, RunFault>, LogFault> {
    let mut seen = Seen {
        stop_before,
        ..Seen::default()
    };
    run_on(alloc, scheduled(Schedule::InTurn, 0, rounds), &mut seen)
}

/// A run that is asked to stop makes the next round as its last one. It is over if that reaches the
/// end, which the third one does.
#[test]
fn a_run_stops_when_it_is_asked_to(rt: HostRuntime) -> Result<(), Fail> {
    for (schedule, stop_before, commit_every, time, events) in [
        (Schedule::InTurn, 1, 0, 1, 0),
        (Schedule::InTurn, 1, 400_000, 0, 0),
        (Schedule::InTurn, 2, 0, 7, 3),
        (Schedule::InTurn, 2, 400_000, 7, 3),
        (Schedule::Overlapped, 1, 400_000, 0, 0),
        (Schedule::Overlapped, 2, 400_000, 3, 1),
        (Schedule::Overlapped, 7, 400_000, 9, 4),
    ] {
        let is_so = stops(
            rt.alloc(),
            schedule,
            stop_before,
            commit_every,
            time,
            events,
        )?;
        assert!(rt; is_so, "{schedule:?} {stop_before} {commit_every}");
    }
    let ended = asked(rt.alloc(), 3, 100)?;
    assert!(rt;
        matches!(
            ended,
            Ok(Finished {
                time: 10,
                events: 5,
                ..
            })
        )
    );
    let ended = asked(rt.alloc(), 2, 2)?;
    assert!(rt; ended.err() == Some(RunFault::Rounds));
    Ok(())
}

/// The takes of a run, each by its node and the floor of the parcel that was answered, and between
/// them its commits, each by `COMMIT` and its time.
#[derive(Drop)]
struct Order {
    steps: Vec<(u32, u64)>,
    is_complete: bool,
}

const COMMIT: u32 = 64;

impl Order {
    fn add(&mut self, what: u32, time: u64) {
        if self.steps.push((what, time)).is_err() {
            self.is_complete = false;
        }
    }
}

impl Watch for Order {
    fn committed(&mut self, time: u64, _events: usize) {
        self.add(COMMIT, time);
    }

    fn turned(&mut self, turn: &Turn) {
        self.add(turn.node, turn.floor);
    }
}

/// The steps of the ring's run with overlap. The token is at node 0 at times 1 and 7, at node 1 at 3
/// and 9, and at node 2 at 5. A floor is that of the time at which its parcel was posted: right after
/// the take before it, and after the takes of the nodes before. A node that has answered the end,
/// 10, has no more turns.
const OVERLAPPED: [(u32, u64); 30] = [
    (0, 1),
    (1, 1),
    (2, 1),
    (COMMIT, 1),
    (0, 3),
    (1, 3),
    (2, 3),
    (COMMIT, 3),
    (0, 3),
    (1, 5),
    (2, 5),
    (COMMIT, 3),
    (0, 5),
    (1, 5),
    (2, 7),
    (COMMIT, 5),
    (0, 7),
    (1, 7),
    (2, 7),
    (COMMIT, 7),
    (0, 9),
    (1, 9),
    (2, 9),
    (COMMIT, 9),
    (0, 9),
    (1, 10),
    (2, 10),
    (COMMIT, 9),
    (0, 10),
    (COMMIT, 10),
];

/// The steps of rounds with overlap, at most this many, and why they ended; none if they reached the
/// end.
fn overlapped(
    alloc: Global,
    session: &mut Near<'_, TokenRing>,
    rounds: u32,
) -> Result<(Vec<(u32, u64)>, Option<RunFault>), Fail> {
    let mut order = Order {
        steps: Vec::new(alloc),
        is_complete: true,
    };
    let plan = scheduled(Schedule::Overlapped, 0, rounds);
    let fault = run_session(alloc, session, END, plan, &mut order).err();
    let Order { steps, is_complete } = order;
    if is_complete {
        Ok((steps, fault))
    } else {
        Err(Fail::from("the steps are not recorded"))
    }
}

/// Whether no parcel is outstanding at any of the three nodes.
fn is_idle(session: &mut Near<'_, TokenRing>) -> bool {
    for node in 0..3 {
        if stepped(session, &Step::Take { node }) != Err(SessionFault::Idle) {
            return false;
        }
    }
    true
}

/// Whether a session is idle at the end, with the ring's five events.
fn is_over(session: &mut Near<'_, TokenRing>) -> bool {
    is_idle(session) && session.front().time == END && session.front().log.len() == 5
}

#[test]
fn nodes_overlap(rt: HostRuntime) -> Result<(), Fail> {
    let ring = ring();
    let mut session = opened(rt.alloc(), &ring, formatted(rt.alloc(), &ring, 64, END)?)?;
    let (steps, fault) = overlapped(rt.alloc(), &mut session, 8)?;
    assert!(rt; fault.is_none());
    assert!(rt; steps.as_slice() == OVERLAPPED.as_slice());
    assert!(rt; is_over(&mut session));
    Ok(())
}

/// Whether this number of rounds makes the first `made` steps and leaves no parcel, and the session
/// then reaches the end.
fn leaves_no_parcel(alloc: Global, rounds: u32, made: usize) -> Result<bool, Fail> {
    let ring = ring();
    let mut session = opened(alloc, &ring, formatted(alloc, &ring, 64, END)?)?;
    let (steps, fault) = overlapped(alloc, &mut session, rounds)?;
    let is_left = fault == Some(RunFault::Rounds)
        && Some(steps.as_slice()) == OVERLAPPED.get(..made)
        && is_idle(&mut session);
    let (_more, fault) = overlapped(alloc, &mut session, 8)?;
    Ok(is_left && fault.is_none() && is_over(&mut session))
}

/// After its rounds no parcel is outstanding, so the session goes on with another plan.
#[test]
fn rounds_with_overlap_leave_no_parcel(rt: HostRuntime) -> Result<(), Fail> {
    for (rounds, made) in [(1, 4), (2, 8), (7, 28)] {
        assert!(rt;
            leaves_no_parcel(rt.alloc(), rounds, made)?,
            "{rounds} rounds"
        );
    }
    Ok(())
}
