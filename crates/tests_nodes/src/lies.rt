// Runs whose commits are judged, over nodes that lie. Whatever a node says, a run commits what the
// sequential simulation does, or it commits nothing more.

ghost use Rattle.std.specs.Prelude.{◌≡◌, ◌≤◌, IfOk, false, length, map, replicate};
ghost use Rattle.frames.specs.Judged.{judged_state};
ghost use Rattle.loopback.specs.Loop.{state_of};
ghost use Rattle.loopback.specs.declared.port.Held.TheVariants.{Fresh};

use commitlog::format;
use coordinator::{FrontView, Session, SessionFault};
use disk::{MemDisk, NotOpened, Returned};
use eventkey::{Listed, Message, Sign, Signed};
use loopback::LoopPort;
use model::{Model as Simulated, Sent, State, Words};
use models::{Phold, TokenRing};
use node::{Load, NodeFault, Parcel, Reply};
use process::{Done, Reports};
use recovery::{RecoveryFault, header};
use runs::{
    Batch, Plan, RunFault, Schedule, SimulationFault, Watch, committed, run_session, sequential,
};
use std::alloc::{AllocError, AllocFailed, Global};
use std::cell::Cell;
use std::test::Fail;
use wire::{Port, PortFault, WireFault};

const END: u64 = 20;

/// What a node says that is not so.
#[derive(Clone, Copy, Debug, PartialEq, Eq)]
enum Lie {
    /// Nothing.
    Nothing,
    /// Another state after its first event.
    State,
    /// A send number after its first event that is one more.
    Number,
    /// That its first event sent nothing.
    Unsent,
    /// That its first event sent to another process.
    Receiver,
    /// That its first event sent for a tick later.
    Later,
    /// That its first event was a tick before.
    Sooner,
    /// Its first event twice.
    Twice,
    /// Its first event not at all.
    LeftOut,
    /// All its events in the opposite order.
    Backwards,
    /// The first event of a ring in its first reply, and then no more.
    Early,
    /// That nothing waits.
    NoLow,
    /// That what waits is a tick later than it is.
    HighLow,
    /// That something waits at tick 0.
    LowLow,
    /// No antimessage.
    Kept,
    /// No message.
    Unposted,
}

/// Which node lies, how, and from which of its replies on.
#[derive(Clone, Copy, Debug)]
struct Liar {
    lie: Lie,
    node: u32,
    from: u32,
}

/// A port to a node, which lies if it is the liar. `failed` notes that an allocation failed for it.
struct Lying<'m, M: Simulated> {
    alloc: Global,
    port: LoopPort<'m, M>,
    liar: Liar,
    failed: &'m Cell<bool>,
    node: u32,
    replies: u32,
}

// Not derived: the proof of each caller that drops a port would have to go through its parts.
impl<M: Simulated> Drop for Lying<'_, M> {
    fn drop(self) {
        let Lying {
            alloc: _,
            port: _,
            liar: _,
            failed: _,
            node: _,
            replies: _,
        } = self;
    }
}

impl<'m, M: Simulated> Port for Lying<'m, M> {
    ghost state = { λ p. judged_state false (state_of (M.meaning p.port.model) p.port.held) };

    fn load(&mut self, load: Load) -> Result<(), PortFault> {
        self.node = load.node;
        self.port.load(load)
    }

    fn post(&mut self, parcel: Parcel) -> Result<(), PortFault> {
        self.port.post(parcel)
    }

    fn take(&mut self) -> Result<Reply, PortFault> {
        let reply = self.port.take()?;
        let number = self.replies;
        self.replies = number.saturating_add(1);
        if self.node != self.liar.node || number < self.liar.from {
            return Ok(reply);
        }
        match said(self.alloc, self.liar.lie, number == self.liar.from, reply) {
            Ok(lie) => Ok(lie),
            Err(_) => {
                self.failed.set(true);
                Ok(silence(self.alloc))
            }
        }
    }
}

/// A reply that says nothing.
fn silence(alloc: Global) -> Reply {
    Reply {
        out: Listed::from_vec(Vec::new(alloc)),
        low: None,
        fossils: Reports::new(alloc),
        ran: 0,
    }
}

/// What a node says that lies so, in place of this reply, which is the first one or not.
fn said(alloc: Global, lie: Lie, is_first: bool, reply: Reply) -> Result<Reply, AllocError> {
    let Reply {
        out,
        low,
        fossils,
        ran,
    } = reply;
    let mut reports = fossils.to_vec(alloc)?;
    if lie == Lie::Early {
        tell_early(alloc, is_first, &mut reports)?;
    } else if reports.len() > 0 {
        rewrite(alloc, lie, &mut reports)?;
    }
    Ok(Reply {
        out: Listed::from_vec(sent_by(alloc, lie, out.into_vec())?),
        low: low_of(lie, low),
        fossils: Reports::from_slice(alloc, reports.as_slice())?.unwrap_or(fossils),
        ran,
    })
}

/// The messages and antimessages that a node sends that lies so, in place of these.
fn sent_by(alloc: Global, lie: Lie, out: Vec<Signed>) -> Result<Vec<Signed>, AllocError> {
    match lie {
        Lie::Kept => without_antimessages(alloc, out.as_slice()),
        Lie::Unposted => Ok(Vec::new(alloc)),
        _ => Ok(out),
    }
}

/// These without the antimessages.
fn without_antimessages(alloc: Global, out: &[Signed]) -> Result<Vec<Signed>, AllocError> {
    let mut kept = Vec::new(alloc);
    for signed in out {
        if signed.sign == Sign::Plus {
            kept.push(*signed)?;
        }
    }
    Ok(kept)
}

/// The least time of what waits, as a node says that lies so.
fn low_of(lie: Lie, low: Option<u64>) -> Option<u64> {
    match lie {
        Lie::NoLow => None,
        Lie::HighLow => low.map(|time| time.saturating_add(1)),
        Lie::LowLow => Some(0),
        _ => low,
    }
}

/// Puts the first event of process 1 of a ring with two tokens, each held for two ticks, into the
/// first reply, and takes it away from the one that has it.
fn tell_early(alloc: Global, is_first: bool, reports: &mut Vec<Done>) -> Result<(), AllocError> {
    let (Ok(message), Ok(next)) = (
        Message::new(1, 1, 0, 1, 1, 0, 0, 0),
        Message::new(3, 1, 1, 2, 1, 1, 0, 0),
    ) else {
        return Ok(());
    };
    if is_first {
        reports.push(Done {
            message,
            sent: Sent::from_slice(alloc, &[next])?,
            after: State::from_slice(alloc, &[1])?,
            number_after: 2,
        })?;
    } else if reports.len() > 0 && reports[0].message == message {
        let _ = reports.remove(0);
    }
    Ok(())
}

/// Rewrites reports, of which there is one at least, so that they lie so.
fn rewrite(alloc: Global, lie: Lie, reports: &mut Vec<Done>) -> Result<(), AllocError>
    requires { 1 ≤ length reports.old.items }
{
    match lie {
        Lie::LeftOut => {
            let _ = reports.remove(0);
            Ok(())
        }
        Lie::Twice => {
            let copy = copy_of(alloc, &reports[0])?;
            Ok(reports.push(copy)?)
        }
        Lie::Backwards => {
            reports.reverse();
            Ok(())
        }
        _ => alter(alloc, lie, &mut reports[0]),
    }
}

/// The same report.
fn copy_of(alloc: Global, done: &Done) -> Result<Done, AllocError> {
    Ok(Done {
        message: done.message,
        sent: Sent::from_slice(alloc, done.sent.as_slice())?,
        after: State::from_slice(alloc, done.after.as_slice())?,
        number_after: done.number_after,
    })
}

/// Alters one report.
fn alter(alloc: Global, lie: Lie, done: &mut Done) -> Result<(), AllocError> {
    match lie {
        // a word that no state has
        Lie::State => done.after = State::from_slice(alloc, &[987_654_321])?,
        Lie::Number => done.number_after = done.number_after.saturating_add(1),
        Lie::Unsent => done.sent = Sent::from_slice(alloc, &[])?,
        Lie::Receiver | Lie::Later => done.sent = moved_all(alloc, lie, done.sent.as_slice())?,
        Lie::Sooner => done.message = moved(&done.message, lie),
        _ => {}
    }
    Ok(())
}

/// These messages, each moved as this lie says.
fn moved_all(alloc: Global, lie: Lie, messages: &[Message]) -> Result<Sent, AllocError> {
    let mut all = Vec::new(alloc);
    for message in messages {
        all.push(moved(message, lie))?;
    }
    Sent::from_slice(alloc, all.as_slice())
}

/// A message for its sender, for a tick later or for a tick before.
fn moved(message: &Message, lie: Lie) -> Message {
    let (time, to) = match lie {
        Lie::Receiver => (message.time(), message.from()),
        Lie::Later => (message.time().saturating_add(1), message.to()),
        _ => (message.time().saturating_sub(1), message.to()),
    };
    Message::new(
        time,
        message.from(),
        message.number(),
        to,
        message.a(),
        message.b(),
        message.c(),
        message.d(),
    )
    .unwrap_or(*message)
}

/// Three ports to nodes that run this model and are not loaded yet, of which one lies.
fn lying_ports<'m, M: Simulated>(
    alloc: Global,
    model: &'m M,
    liar: Liar,
    failed: &'m Cell<bool>,
) -> Result<Vec<Lying<'m, M>>, AllocFailed<Lying<'m, M>>>
    ensures { IfOk result (λ ports. map (λ p.
        judged_state false (state_of (M.meaning p.port.model) p.port.held)) ports.items
        ≡ replicate 3 (judged_state false (state_of (M.meaning model.now) Fresh))) }
{
    let mut ports = Vec::new(alloc);
    'ports: for _ in 0..3u32 {
        ports.push(Lying {
            alloc,
            port: LoopPort::new(alloc, model),
            liar,
            failed,
            node: 0,
            replies: 0,
        })?;
    }
    Ok(ports)
}

/// Watches nothing.
#[derive(Drop)]
struct Nobody;

impl Watch for Nobody {
    fn committed(&mut self, _time: u64, _events: usize) {}
}

const PLAN: Plan = Plan {
    nodes: 3,
    batch: Batch::Fixed(4),
    rounds: 200,
    schedule: Schedule::Together,
    checkpoint_every: 0,
    seals: false,
    commit_every: 0,
    judged: true,
};

/// Whether a fault is an allocation failure, of any layer.
fn is_of_memory(fault: &RunFault) -> bool {
    matches!(
        fault,
        RunFault::NoMemory
            | RunFault::Session(SessionFault::NoMemory)
            | RunFault::Session(SessionFault::Port(PortFault::Wire(WireFault::NoMemory)))
            | RunFault::Session(SessionFault::Port(PortFault::Peer(NodeFault::NoMemory)))
    )
}

/// Whether these states are the same.
fn same_states(states: &[State], plain: &[Words]) -> bool {
    if states.len() != plain.len() {
        return false;
    }
    for (state, words) in states.iter().zip(plain.iter()) {
        if state.as_slice() != words.as_slice() {
            return false;
        }
    }
    true
}

/// Whether what a session has committed is the sequential simulation up to its time.
fn is_simulated<M: Simulated>(
    alloc: Global,
    model: &M,
    front: FrontView<'_>,
) -> Result<bool, Fail> {
    // Nothing is before tick 1.
    let world = sequential(alloc, model, front.time.clamp(1, END))?;
    Ok(
        front.log == world.log()
            && front.numbers == world.numbers()
            && same_states(front.states, world.states()),
    )
}

/// Whether this log is on a disk, up to this time.
fn is_on_disk<M: Simulated>(
    alloc: Global,
    model: &M,
    disk: MemDisk,
    time: u64,
    log: &[Message],
) -> Result<bool, Fail> {
    let Returned {
        disk: _left,
        outcome,
    } = committed(alloc, model, END, disk);
    match outcome {
        Ok(front) => Ok(front.g == time && front.log.as_slice() == log),
        Err(SimulationFault::Recovery(RecoveryFault::NotTheLeast)) => Ok(false),
        Err(fault) => Err(Fail::from(fault)),
    }
}

/// How a run ended: its fault, the number of committed events, and whether they, the states and the
/// disk are those of the sequential simulation.
type Outcome = (Option<RunFault>, usize, bool);

/// Runs a model over three nodes, of which one lies. An allocation failure ends the test.
fn run_over<M: Simulated>(
    alloc: Global,
    model: &M,
    liar: Liar,
    batch: u32,
    judged: bool,
) -> Result<Outcome, Fail> {
    let failed = Cell::new(false);
    let mut disk = MemDisk::blank(alloc, 512)?;
    format(&mut disk, &header(alloc, model, END))?;
    let ports = lying_ports(alloc, model, liar, &failed)?;
    let mut session = match Session::open(alloc, model, ports, disk, END) {
        Ok(session) => session,
        Err(NotOpened { fault, disk: _ }) => return Err(Fail::from(fault)),
    };
    let plan = Plan {
        batch: Batch::Fixed(batch),
        judged,
        ..PLAN
    };
    let fault = run_session(alloc, &mut session, END, plan, &mut Nobody).err();
    if failed.get() {
        return Err(Fail::from(RunFault::NoMemory));
    }
    if let Some(fault) = fault {
        if is_of_memory(&fault) {
            return Err(Fail::from(fault));
        }
    }
    let front = session.front();
    let is_right = is_simulated(alloc, model, front)?;
    let (time, log) = (front.time, front.log.to_vec(alloc)?);
    let is_stored = is_on_disk(alloc, model, session.into_disk(), time, log.as_slice())?;
    Ok((fault, log.len(), is_right && is_stored))
}

/// Runs a ring in which node 1 lies so.
fn ring_over(alloc: Global, lie: Lie, from: u32, judged: bool) -> Result<Outcome, Fail> {
    let liar = Liar { lie, node: 1, from };
    run_over(alloc, &TokenRing::new(3, 2, 2), liar, 4, judged)
}

/// Runs a PHOLD in which node 1 lies so, by judged commits. With a batch of 1 messages wait at the
/// nodes, and with one of 4 the nodes roll back.
fn phold_over(alloc: Global, lie: Lie, from: u32, batch: u32) -> Result<Outcome, Fail> {
    let liar = Liar { lie, node: 1, from };
    run_over(alloc, &Phold::new(6, 2, 8, 1), liar, batch, true)
}

const FOUND: Option<RunFault> = Some(RunFault::Session(SessionFault::Reports));

const REFUSED: Option<RunFault> = Some(RunFault::Session(SessionFault::Port(PortFault::Peer(
    NodeFault::FloorFell,
))));

/// Lies about what is reported, from which reply on, and how many events are committed before a
/// judged commit finds it.
const REPORTED: [(Lie, u32, usize); 12] = [
    (Lie::State, 0, 0),
    (Lie::State, 3, 6),
    (Lie::Number, 2, 2),
    (Lie::Unsent, 1, 0),
    (Lie::Receiver, 5, 8),
    (Lie::Later, 3, 6),
    (Lie::Sooner, 6, 12),
    (Lie::Twice, 1, 0),
    (Lie::Twice, 5, 8),
    (Lie::LeftOut, 2, 2),
    (Lie::LeftOut, 7, 12),
    (Lie::Unposted, 4, 10),
];

#[test]
fn a_lie_is_found_by_the_commit_that_would_take_it(rt: HostRuntime) -> Result<(), Fail> {
    for (lie, from, events) in REPORTED {
        let outcome = ring_over(rt.alloc(), lie, from, true)?;
        assert!(rt; outcome == (FOUND, events, true), "{lie:?} {from}");
    }
    Ok(())
}

#[test]
fn plain_commits_take_lies_and_come_to_another_world(rt: HostRuntime) -> Result<(), Fail> {
    for lie in [
        Lie::State,
        Lie::Number,
        Lie::Sooner,
        Lie::Twice,
        Lie::LeftOut,
        Lie::Unposted,
    ] {
        let (fault, _, is_right) = ring_over(rt.alloc(), lie, 2, false)?;
        assert!(rt; fault.is_none() && !is_right, "{lie:?}");
    }
    Ok(())
}

#[test]
fn judged_runs_over_nodes_of_the_model_reach_their_end(rt: HostRuntime) -> Result<(), Fail> {
    for lie in [Lie::Nothing, Lie::Early] {
        for judged in [false, true] {
            let outcome = ring_over(rt.alloc(), lie, 0, judged)?;
            assert!(rt; outcome == (None, 20, true), "{lie:?} {judged}");
        }
    }
    Ok(())
}

/// Lies of a node of a PHOLD, from which reply on, with which batch, and how the run ends. A floor
/// that falls is refused by the other nodes; what waits or is undone needs no truth where nothing
/// does.
const OF_A_PHOLD: [(Lie, u32, u32, Option<RunFault>, usize); 18] = [
    (Lie::Nothing, 0, 1, None, 53),
    (Lie::Nothing, 0, 4, None, 53),
    (Lie::State, 4, 1, FOUND, 9),
    (Lie::Number, 9, 1, FOUND, 17),
    (Lie::Unsent, 4, 1, FOUND, 9),
    (Lie::Receiver, 0, 1, FOUND, 3),
    (Lie::Later, 9, 1, FOUND, 17),
    (Lie::Sooner, 4, 1, FOUND, 9),
    (Lie::Twice, 4, 1, FOUND, 9),
    (Lie::LeftOut, 9, 1, FOUND, 17),
    (Lie::Backwards, 0, 1, FOUND, 9),
    (Lie::NoLow, 0, 1, FOUND, 8),
    (Lie::NoLow, 9, 1, None, 53),
    (Lie::HighLow, 4, 1, FOUND, 13),
    (Lie::LowLow, 4, 1, REFUSED, 9),
    (Lie::Kept, 0, 4, FOUND, 8),
    (Lie::Kept, 0, 1, None, 53),
    (Lie::Unposted, 4, 1, FOUND, 17),
];

#[test]
fn no_lie_makes_a_judged_run_commit_another_world(rt: HostRuntime) -> Result<(), Fail> {
    for (lie, from, batch, fault, events) in OF_A_PHOLD {
        let outcome = phold_over(rt.alloc(), lie, from, batch)?;
        assert!(rt; outcome == (fault, events, true), "{lie:?} {from} {batch}");
    }
    Ok(())
}
