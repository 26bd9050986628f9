// Sessions over ports that judge, with nodes of the session's model and of another one, and one such
// port over a node that reports what it did not do.

ghost use Rattle.std.specs.Prelude.{◌≤◌, false};
ghost use Rattle.frames.specs.Judged.{judged_state};

use crate::loads::{load, round};
use crate::opened::{END, formatted, ring};
use crate::steps::{MADE, MIXED, judged_steps_of, steps_of};
use commitlog::LogFault;
use coordinator::{Answer, Session, SessionFault, Step};
use disk::{MemDisk, NotOpened};
use frames::judging::{Differences, Judged, ReportDifference, judged_ports};
use loopback::{LoopPort, loop_ports};
use models::TokenRing;
use node::{Load, NodeFault, Parcel, Reply};
use process::{Done, Reports};
use recovery::RecoveryFault;
use runs::{Batch, Plan, RunFault, Schedule, Watch, run_session};
use std::alloc::{AllocError, Global};
use std::mem::swap;
use std::test::Fail;
use wire::{Port, PortFault, WireFault};

type Judging<'m> = Session<'m, TokenRing, Judged<'m, TokenRing, LoopPort<'m, TokenRing>>, MemDisk>;

/// A session of this ring over three nodes that run `other`, judged one report in `every`. Of which
/// event the first refused report is, `differences` gets.
fn judged<'m>(
    alloc: Global,
    ring: &'m TokenRing,
    other: &'m TokenRing,
    every: u32,
    differences: Option<&'m Differences>,
) -> Result<Judging<'m>, Fail> {
    let disk = formatted(alloc, ring)?;
    let ports = judged_ports(
        alloc,
        ring,
        every,
        differences,
        loop_ports(alloc, other, 3)?,
    )?;
    match Session::open(alloc, ring, ports, disk, END) {
        Ok(session) => Ok(session),
        Err(NotOpened { fault, disk: _ }) => Err(Fail::from(fault)),
    }
}

/// Whether a fault is an allocation failure, of any layer.
fn is_of_memory(fault: &SessionFault) -> bool {
    matches!(
        fault,
        SessionFault::NoMemory
            | SessionFault::Port(PortFault::Wire(WireFault::NoMemory))
            | SessionFault::Port(PortFault::Peer(NodeFault::NoMemory))
            | SessionFault::Recovery(RecoveryFault::Log(LogFault::NoMemory))
    )
}

/// Makes a step, for its answer. An allocation failure is none: it ends the test.
fn stepped(
    session: &mut Judging<'_>,
    step: &Step,
) -> Result<Result<Answer, SessionFault>, SessionFault> {
    match session.step(step) {
        Err(fault) if is_of_memory(&fault) => Err(fault),
        answer => Ok(answer),
    }
}

/// Whether two sessions give the same answers to these steps, and have the same log after them.
fn are_alike(
    one: &mut Judging<'_>,
    other: &mut Judging<'_>,
    steps: &[Step],
) -> Result<bool, SessionFault> {
    for step in steps {
        if stepped(one, step)? != stepped(other, step)? {
            return Ok(false);
        }
    }
    Ok(one.front().log == other.front().log)
}

/// Whether a session that is judged and one that is not do the same in these steps, over nodes of the
/// same ring.
fn do_alike(alloc: Global, every: u32, rows: &str) -> Result<bool, Fail> {
    let ring = ring();
    let steps = steps_of(alloc, rows)?;
    let mut one = judged(alloc, &ring, &ring, every, None)?;
    let mut other = judged(alloc, &ring, &ring, 0, None)?;
    Ok(are_alike(&mut one, &mut other, steps.as_slice())?)
}

#[test]
fn nodes_of_the_model_pass_also_after_rollbacks(rt: HostRuntime) -> Result<(), Fail> {
    for every in [1, 2, 64] {
        for rows in [MADE, MIXED] {
            assert!(rt; do_alike(rt.alloc(), every, rows)?, "{every}");
        }
    }
    Ok(())
}

/// Whether two sessions give the same answers, one to steps with judged commits and the other to the
/// same steps with plain ones, and have the same log after them.
fn commit_alike(
    one: &mut Judging<'_>,
    other: &mut Judging<'_>,
    judged: &[Step],
    plain: &[Step],
) -> Result<bool, SessionFault> {
    for (step, same) in judged.iter().zip(plain) {
        if stepped(one, step)? != stepped(other, same)? {
            return Ok(false);
        }
    }
    Ok(one.front().log == other.front().log)
}

/// Whether judged commits over nodes of the same ring do what plain ones do.
fn judged_as_plain(alloc: Global, rows: &str) -> Result<bool, Fail> {
    let ring = ring();
    let judging = judged_steps_of(alloc, rows)?;
    let trusting = steps_of(alloc, rows)?;
    let mut one = judged(alloc, &ring, &ring, 0, None)?;
    let mut other = judged(alloc, &ring, &ring, 0, None)?;
    Ok(commit_alike(
        &mut one,
        &mut other,
        judging.as_slice(),
        trusting.as_slice(),
    )?)
}

#[test]
fn judged_commits_over_nodes_of_the_model_are_plain_ones(rt: HostRuntime) -> Result<(), Fail> {
    for rows in [MADE, MIXED] {
        assert!(rt; judged_as_plain(rt.alloc(), rows)?);
    }
    Ok(())
}

/// Watches nothing.
#[derive(Drop)]
struct Nobody;

impl Watch for Nobody {
    fn committed(&mut self, _time: u64, _events: usize) {}
}

type Outcome = (Option<RunFault>, usize, Option<ReportDifference>);

const PLAN: Plan = Plan {
    nodes: 3,
    batch: Batch::Fixed(16),
    rounds: 100,
    schedule: Schedule::InTurn,
    checkpoint_every: 0,
    seals: false,
    commit_every: 0,
    judged: false,
};

/// Runs the ring over nodes that hold the tokens for `hold` ticks instead of 2. Returns the fault,
/// the number of committed events, and the event that differs. An allocation failure ends the test.
fn run_over(alloc: Global, hold: u32, every: u32) -> Result<Outcome, Fail>
    requires { 1 ≤ hold }
{
    let differences = Differences::none();
    let ring = ring();
    let other = TokenRing::new(3, hold, 2);
    let mut session = judged(alloc, &ring, &other, every, Some(&differences))?;
    let fault = run_session(alloc, &mut session, END, PLAN, &mut Nobody).err();
    match fault {
        Some(RunFault::NoMemory) => Err(Fail::from(RunFault::NoMemory)),
        Some(RunFault::Session(fault)) if is_of_memory(&fault) => Err(Fail::from(fault)),
        _ => Ok((fault, session.front().log.len(), differences.first())),
    }
}

#[test]
fn nodes_of_another_model_are_found_out_before_a_commit(rt: HostRuntime) -> Result<(), Fail> {
    let found = Some(RunFault::Session(SessionFault::Port(PortFault::BadReply)));
    // The first event that `seq` prints is the first that a node handles otherwise.
    let first = Some(ReportDifference {
        process: 0,
        time: 1,
    });
    for every in [1, 64] {
        assert!(rt; run_over(rt.alloc(), 2, every)? == (None, 10, None));
        assert!(rt; run_over(rt.alloc(), 3, every)? == (found, 0, first));
    }
    assert!(rt; run_over(rt.alloc(), 3, 0)? == (None, 6, None));
    Ok(())
}

/// What two reports have of each other.
#[derive(Clone, Copy, Debug)]
enum Swapped {
    /// The states after their events.
    States,
    /// The messages that were sent.
    Sends,
}

/// A port to a node that swaps this of two reports in each reply, of that at `place` and of the next.
#[derive(Drop)]
struct Faulty<P: Port + Drop> {
    alloc: Global,
    port: P,
    swapped: Swapped,
    place: usize,
}

impl<P: Port + Drop> Port for Faulty<P> {
    ghost state = { λ f. judged_state false (P.state f.port) };

    fn load(&mut self, load: Load) -> Result<(), PortFault> {
        self.port.load(load)
    }

    fn post(&mut self, parcel: Parcel) -> Result<(), PortFault> {
        self.port.post(parcel)
    }

    fn take(&mut self) -> Result<Reply, PortFault> {
        let Reply {
            out,
            low,
            fossils,
            ran,
        } = self.port.take()?;
        // refused memory swaps nothing: a port that has replied may not fail any more
        let fossils = match swapped_in(self.alloc, &fossils, self.swapped, self.place) {
            Ok(Some(swapped)) => swapped,
            _ => fossils,
        };
        Ok(Reply {
            out,
            low,
            fossils,
            ran,
        })
    }
}

fn swapped_in(
    alloc: Global,
    fossils: &Reports,
    swapped: Swapped,
    place: usize,
) -> Result<Option<Reports>, AllocError> {
    let mut reports = fossils.to_vec(alloc)?;
    swap_reports(reports.as_mut_slice(), swapped, place);
    Reports::from_slice(alloc, reports.as_slice())
}

fn swap_reports(reports: &mut [Done], swapped: Swapped, place: usize) {
    if place >= reports.len().saturating_sub(1) {
        return;
    }
    let (front, rest) = reports.split_at_mut(place + 1);
    let (one, next) = (&mut front[place], &mut rest[0]);
    match swapped {
        Swapped::States => swap(&mut one.after, &mut next.after),
        Swapped::Sends => swap(&mut one.sent, &mut next.sent),
    }
}

/// The times of the events of process 0, which the node reports in one reply.
const TIMES: [u64; 4] = [1, 3, 5, 7];

/// Judges one report in `every` of such a node. Returns the fault of the reply, and the time and the
/// process of the event that the port then keeps. An allocation failure ends the test.
fn reported(
    alloc: Global,
    every: u32,
    swapped: Swapped,
    place: usize,
) -> Result<(Option<PortFault>, Option<ReportDifference>), Fail> {
    let ring = TokenRing::new(3, 2, 1);
    let port = LoopPort::new(alloc, &ring);
    let node = Faulty {
        alloc,
        port,
        swapped,
        place,
    };
    let mut judge = Judged::new(alloc, &ring, node, every);
    judge.load(load(alloc, 0, 2, &TIMES)?)?;
    let nothing = round(&mut judge, alloc, 1)?;
    if nothing.fossils.len() > 0 || judge.refused().is_some() {
        return Err(Fail::from("an event is reported or refused too early"));
    }
    let fault = match round(&mut judge, alloc, 9) {
        Err(fault) if is_of_memory(&SessionFault::Port(fault)) => return Err(Fail::from(fault)),
        answer => answer.err(),
    };
    Ok((fault, judge.refused()))
}

/// How often reports are judged, what is swapped from which place on, and the time of the first event
/// whose report is refused, or 0. Two reports in a row are wrong; one that is not judged is believed.
const REPORTED: [(u32, Swapped, usize, u64); 11] = [
    (1, Swapped::States, 0, 1),
    (1, Swapped::States, 1, 3),
    (1, Swapped::States, 2, 5),
    (1, Swapped::Sends, 0, 1),
    (1, Swapped::Sends, 2, 5),
    (1, Swapped::States, 3, 0),
    (2, Swapped::States, 1, 5),
    (2, Swapped::Sends, 1, 5),
    (64, Swapped::Sends, 0, 1),
    (64, Swapped::States, 1, 0),
    (0, Swapped::States, 0, 0),
];

/// What is found of a report of process 0 that is refused, or that none is if this time is 0.
fn found_at(time: u64) -> (Option<PortFault>, Option<ReportDifference>) {
    match time {
        0 => (None, None),
        _ => (
            Some(PortFault::BadReply),
            Some(ReportDifference { process: 0, time }),
        ),
    }
}

#[test]
fn a_port_keeps_the_event_of_the_first_refused_report(rt: HostRuntime) -> Result<(), Fail> {
    for (every, swapped, place, time) in REPORTED {
        let found = reported(rt.alloc(), every, swapped, place)?;
        assert!(rt; found == found_at(time), "{every} {swapped:?} {place}");
    }
    Ok(())
}
