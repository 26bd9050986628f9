// Rounds of steps.

ghost use Rattle.std.specs.Prelude.{◌≡◌, ◌<◌, ◌≤◌, ◌+◌, ◌-◌, ◌^◌, [], ◌∷◌, ℕ, IfErr, IfOk, OnOk};
ghost use Rattle.std.specs.Prelude.{IsErrOf, None, Option, false, get_or, length, if◌then◌else◌};
ghost use Rattle.runs.specs.Driver.{AreAsked, AreFirst, AreNext, ArePosts};
ghost use Rattle.runs.specs.Driver.{AreTurns, DrivingHasCause, IsDrivenBy, IsDrivenToEnd, IsNext, IsPost};
ghost use Rattle.runs.specs.Driver.{IsPostIf, IsRefusedIn, IsRound, IsTurn, closing_of, goes_on, is_kept};
ghost use Rattle.runs.specs.Driver.{Keeps, checkpoint_by, commit_by, kept_after, moves_of, steps_of};
ghost use Rattle.runs.specs.Driver.{takes_of, trusts_by};
ghost use Rattle.runs.specs.Tallies.{CountsNothing, IsSized, IsTallied, Tallied};
ghost use Rattle.gvt.specs.Moves.Move.{Checkpoint as CheckpointMove, Commit as CommitMove};
ghost use Rattle.gvt.specs.Moves.Move.{Take as TakeMove};
ghost use Rattle.coordinator.specs.Steps.{move_of, trusts};
ghost use Rattle.coordinator.specs.declared.SessionFault.{SessionFault};

use crate::picks::places;
use crate::tally::{Tally, Turn, antimessages};
use coordinator::{Session, SessionFault, Step};
use disk::SectorDisk;
use eventkey::Listed;
use model::Model as Simulated;
use std::alloc::{AllocError, AllocFailed, Global};
use thiserror::Error;
use wire::Port;

/// How many messages a node may handle in one turn.
#[derive(Clone, Copy, Debug, PartialEq, Eq)]
pub enum Batch {
    /// The same number for every node.
    Fixed(u32),
    /// Each node has its own budget. After each of its takes it is set from how many messages the
    /// node handled and how many handlings it reported, so it follows how far the model lets a node
    /// work ahead before most of its work is rolled back.
    Adjusting {
        /// The largest budget, in messages; 0 counts as 1, and anything above 65,536 as 65,536.
        most: u32,
        /// Whether a round costs less than the work that is rolled back. If so, budgets are so
        /// small that almost nothing is rolled back; otherwise they are so large that few rounds
        /// are needed.
        rounds_are_cheap: bool,
    },
}

/// The order in which the nodes are posted to and their replies taken.
#[derive(Clone, Copy, Debug, PartialEq, Eq)]
pub enum Schedule {
    /// One turn after another: a node is posted to and its reply taken, then the next node has its
    /// turn.
    InTurn,
    /// All nodes are posted to before the first reply is taken, so that nodes that are programs of
    /// their own work at the same time.
    Together,
    /// The reply of a node is taken and its next parcel posted before the next reply is taken, so
    /// that each of the other nodes works meanwhile, and during a commit all of them do. The first
    /// round begins with a post to each node; the last one posts nothing.
    Overlapped,
}

/// How a session is driven.
#[derive(Clone, Copy, Debug, PartialEq, Eq)]
pub struct Plan {
    /// The number of nodes of the session, which is that of its ports: 1 to 64.
    pub nodes: u32,
    /// How many messages a node may handle in one turn.
    pub batch: Batch,
    /// The most rounds that are made.
    pub rounds: u32,
    /// The order in which the nodes are posted to and their replies taken.
    pub schedule: Schedule,
    /// The number of commits after which a checkpoint follows; 0 for no checkpoints.
    pub checkpoint_every: u32,
    /// Whether a seal follows each checkpoint: a record of the SHA-256 of the records since the last
    /// seal, which an opening compares. It is left out where the disk has no room for it.
    pub seals: bool,
    /// The number of events that have to be reported since the last commit before a round ends with
    /// the next one; 0 for a commit in each round. A round that reaches the end commits in any
    /// case, and the last round of a run commits if any event was reported. A record holds at most
    /// 299,592 events, including those of the round that ends with the commit.
    pub commit_every: u32,
    /// Whether commits trust no node: each then replays by the model what the nodes reported, and
    /// fails with `Reports` if that is not what the sequential simulation does next. A judged
    /// commit costs a handling for each event that it takes, beside the nodes' own, and a sort of
    /// their sends; a run with many events reported between commits does this in long pauses.
    pub judged: bool,
}

/// A round of a run.
#[derive(Clone, Copy)]
pub(crate) struct Round {
    /// How the session is driven.
    plan: Plan,
    /// The tick at which the run ends.
    end: u64,
    /// Whether it is the first one of its run.
    first: bool,
    /// Whether it is the last one of its run.
    last: bool,
}

/// Why a run stopped before its end.
#[derive(Clone, Copy, Debug, PartialEq, Eq, Error)]
pub enum RunFault {
    /// The session refused its opening or a step.
    #[error("Session {0}")]
    Session(SessionFault),
    /// All rounds were made before everything was committed.
    #[error("Rounds")]
    Rounds,
    /// The run was asked to stop, and stopped before its end with rounds left.
    #[error("Stopped")]
    Stopped {
        /// The virtual time before which everything is committed, in ticks.
        time: u64,
        /// The number of committed events.
        events: usize,
    },
    /// An allocation failed.
    #[error("NoMemory")]
    NoMemory,
}

/// Why a round was not made to its end.
#[derive(Clone, Copy)]
pub(crate) enum RoundFault {
    /// The session refused a step.
    Session(SessionFault),
    /// An allocation failed.
    NoMemory,
}

/// Observes the progress of a run, and may end it.
pub trait Watch {
    /// Called at the beginning of a run: everything before this virtual time, in ticks, is committed
    /// on the disk, `events` events in all.
    fn opened(&mut self, _time: u64, _events: usize) {}

    /// Called after each commit, before the checkpoint that may follow it: everything before this
    /// virtual time, in ticks, is committed, `events` events in all.
    fn committed(&mut self, time: u64, events: usize);

    /// Called at the beginning of a run, and after each commit and the checkpoint that may follow
    /// it, with the number of sectors that hold the log and the number that the disk has. One more
    /// sector is the closed gate; the rest are free.
    fn stored(&mut self, _used: u32, _sectors: u32) {}

    /// Called for each turn of a node, when its reply has been taken.
    fn turned(&mut self, _turn: &Turn) {}

    /// Called before each round. Returns whether that round is the last one: the run then ends with
    /// it, as if the plan had no more rounds.
    fn is_stopped(&mut self) -> bool {
        false
    }
}

/// Drives a session until everything before `end` is committed, the tick at which its simulation
/// ends. Returns how many messages each node handled, by its replies.
///
/// A round gives each node its turn, from node 0 up: everything in transit for it is posted, it
/// handles at most its budget of messages, and its reply is taken. If the nodes work together, all
/// are posted to before the first reply is taken. If they overlap, a node is posted to again as
/// soon as its reply is taken, unless it has answered the end or the round is the last one; so its
/// turn goes from one round to the next, and none is unfinished after the last round. Then a commit
/// follows if it is due: enough events were reported since the last one, any were in the last
/// round, or the commit reaches the end. A checkpoint follows the commit if the plan has one after
/// that many. The first refusal ends the run: a step (`Session`), no rounds left (`Rounds`), or a
/// failed allocation (`NoMemory`). If `watch` asks for a stop, the run ends after the next round
/// (`Stopped`), unless that reaches the end or is the plan's last one. What was committed stays
/// committed. A turn costs one pass over transit and its two steps.
pub fn run_session<M: Simulated, P: Port, D: SectorDisk, W: Watch>(
    alloc: Global,
    session: &mut Session<'_, M, P, D>,
    end: u64,
    plan: Plan,
    watch: &mut W,
) -> Result<Vec<u64>, RunFault>
    requires { 0 < plan.nodes }
    // Everything is committed, by rounds of the plan and nothing else.
    ensures ended { IfOk result (λ handled_per_node. IsDrivenToEnd M.meaning P.state D.state end plan
        session.old session.new handled_per_node.items) }
    // Or why it is not.
    ensures cause { IfErr result (DrivingHasCause M.meaning P.state D.state end plan session.old
        session.new) }
    // At every exit the records represent what was committed, whatever crashes.
    ensures keeps { Keeps M.meaning P.state D.state (trusts_by plan) session.old session.new }
{
    let mut tally = Tally::new(alloc, plan)?;
    begin(session, watch);
    let mut last = plan.rounds;
    let mut made = 0;
    'rounds: while session.front().time < end {
        if made >= plan.rounds {
            return Err(RunFault::Rounds);
        }
        if made >= last {
            let front = session.front();
            return Err(RunFault::Stopped {
                time: front.time,
                events: front.log.len(),
            });
        }
        last = last_round(made, last, watch);
        let next = Round {
            plan,
            end,
            first: made == 0,
            last: made + 1 == last,
        };
        made += 1;
        make_round(alloc, session, next, &mut tally, watch)?;
    }
    Ok(tally.into_handled_per_node())
}

/// Reports what a run begins with.
fn begin<M: Simulated, P: Port, D: SectorDisk, W: Watch>(
    session: &Session<'_, M, P, D>,
    watch: &mut W,
) {
    let front = session.front();
    watch.opened(front.time, front.log.len());
    watch.stored(session.used(), session.sectors());
}

/// Returns the number of a run's last round, after `made` rounds of at most `last`: the next one if
/// the run is to stop.
fn last_round<W: Watch>(made: u32, last: u32, watch: &mut W) -> u32
    requires { made < last }
    ensures later { made < result }
    ensures none_more { result ≤ last }
{
    if watch.is_stopped() { made + 1 } else { last }
}

impl Round {
    /// Returns whether a node that answered a parcel with this floor, in ticks, has another turn.
    fn goes_on(self, floor: u64) -> bool
        ensures { result ≡ goes_on self floor }
    {
        floor < self.end && !self.last
    }
}

/// Makes a round: asks all nodes, and ends with a commit if one is due.
fn make_round<M: Simulated, P: Port, D: SectorDisk, W: Watch>(
    alloc: Global,
    session: &mut Session<'_, M, P, D>,
    round: Round,
    tally: &mut Tally,
    watch: &mut W,
) -> Result<(), RoundFault>
    requires sized { IsSized round.plan.nodes tally.old }
    requires commits { tally.old.commits < 2 ^ 32 - 1 }
    ensures driven { (reported : ℕ) → tally.old.events_until_commit ≡ round.plan.commit_every - reported →
        OnOk result (IsDrivenBy M.meaning P.state D.state (trusts_by round.plan)
        (λ made. IsRound round reported tally.old.commits tally.old.outstanding.items made
        × IsTallied round.plan tally.old tally.new made) session.old session.new) }
    ensures commits { OnOk result (tally.new.commits ≤ tally.old.commits + 1) }
    ensures sized { IsSized round.plan.nodes tally.new }
    ensures keeps { Keeps M.meaning P.state D.state (trusts_by round.plan) session.old session.new }
    ensures refused { (reported : ℕ) → tally.old.events_until_commit ≡ round.plan.commit_every - reported →
        (fault : SessionFault) → IsErrOf result (RoundFault.Session fault) →
        IsRefusedIn M.meaning P.state D.state
        (λ made. IsRound round reported tally.old.commits tally.old.outstanding.items made)
        session.old session.new fault }
{
    tally.begin_round(round.end);
    ask(alloc, session, round, tally, watch)?;
    close(session, round, tally, watch)
}

/// Ends a round: if a commit is due, commits, makes a checkpoint if it is due, and reports the
/// sectors in use.
fn close<M: Simulated, P: Port, D: SectorDisk, W: Watch>(
    session: &mut Session<'_, M, P, D>,
    round: Round,
    tally: &mut Tally,
    watch: &mut W,
) -> Result<(), RoundFault>
    requires sized { IsSized round.plan.nodes tally.old }
    requires commits { tally.old.commits < 2 ^ 32 - 1 }
    ensures driven { (reported : ℕ) → tally.old.events_until_commit ≡ round.plan.commit_every - reported →
        OnOk result (IsDrivenBy M.meaning P.state D.state (trusts_by round.plan)
        (λ made. (steps_of made ≡ closing_of round reported tally.old.floor tally.old.commits)
        × IsTallied round.plan tally.old tally.new made) session.old session.new) }
    ensures commits { OnOk result (tally.new.commits ≤ tally.old.commits + 1) }
    ensures sized { IsSized round.plan.nodes tally.new }
    ensures keeps { Keeps M.meaning P.state D.state (trusts_by round.plan) session.old session.new }
    ensures refused { (reported : ℕ) → tally.old.events_until_commit ≡ round.plan.commit_every - reported →
        (fault : SessionFault) → IsErrOf result (RoundFault.Session fault) →
        IsRefusedIn M.meaning P.state D.state (λ made. steps_of made ≡ closing_of round reported tally.old.floor tally.old.commits)
        session.old session.new fault }
{
    let missing = missing_events(round.plan.commit_every, round.last);
    if tally.is_due(round.end, missing) {
        commit(session, round.plan, tally, watch)?;
        watch.stored(session.used(), session.sectors());
    }
    Ok(())
}

/// Returns how many of the events that a commit waits for may still be missing at the end of a
/// round: none, or in the last round of a run all but one.
fn missing_events(commit_every: u32, last: bool) -> usize
    ensures { result ≡ (if last then commit_every - 1 else 0) }
{
    if last {
        commit_every.saturating_sub(1) as usize
    } else {
        0
    }
}

/// Commits, reports the commit, and makes a checkpoint if one is due.
fn commit<M: Simulated, P: Port, D: SectorDisk, W: Watch>(
    session: &mut Session<'_, M, P, D>,
    plan: Plan,
    tally: &mut Tally,
    watch: &mut W,
) -> Result<(), RoundFault>
    requires sized { IsSized plan.nodes tally.old }
    requires commits { tally.old.commits < 2 ^ 32 - 1 }
    ensures driven { OnOk result (IsDrivenBy M.meaning P.state D.state (trusts_by plan)
        (λ made. (steps_of made ≡ commit_by plan ∷ kept_after plan (tally.old.commits + 1))
        × IsTallied plan tally.old tally.new made) session.old session.new) }
    ensures commits { OnOk result (tally.new.commits ≤ tally.old.commits + 1) }
    ensures sized { IsSized plan.nodes tally.new }
    ensures keeps { Keeps M.meaning P.state D.state (trusts_by plan) session.old session.new }
    ensures refused { (fault : SessionFault) → IsErrOf result (RoundFault.Session fault) →
        IsRefusedIn M.meaning P.state D.state (λ made. steps_of made
        ≡ commit_by plan ∷ kept_after plan (tally.old.commits + 1))
        session.old session.new fault }
{
    session.step(&commit_step(plan))?;
    tally.committed(plan.commit_every);
    let front = session.front();
    watch.committed(front.time, front.log.len());
    keep(session, plan, tally.commits())
}

/// Returns the step that commits.
fn commit_step(plan: Plan) -> Step
    ensures step { result ≡ commit_by plan }
    ensures commit { move_of result ≡ CommitMove }
    ensures trusts { trusts result ≡ trusts_by plan }
{
    if plan.judged {
        Step::JudgedCommit
    } else {
        Step::Commit
    }
}

/// Makes a checkpoint if the plan has one after the commit of this number.
fn keep<M: Simulated, P: Port, D: SectorDisk>(
    session: &mut Session<'_, M, P, D>,
    plan: Plan,
    number: u32,
) -> Result<(), RoundFault>
    ensures driven { OnOk result (IsDrivenBy M.meaning P.state D.state (trusts_by plan)
        (λ made. (steps_of made ≡ kept_after plan number) × CountsNothing made)
        session.old session.new) }
    ensures keeps { Keeps M.meaning P.state D.state (trusts_by plan) session.old session.new }
    ensures refused { (fault : SessionFault) → IsErrOf result (RoundFault.Session fault) →
        IsRefusedIn M.meaning P.state D.state (λ made. steps_of made ≡ kept_after plan number)
        session.old session.new fault }
{
    if is_kept(plan.checkpoint_every, number) {
        session.step(&checkpoint_step(plan.seals))?;
    }
    Ok(())
}

/// Returns the step that makes a checkpoint.
fn checkpoint_step(seal: bool) -> Step
    ensures step { result ≡ checkpoint_by seal }
    ensures checkpoint { move_of result ≡ CheckpointMove }
    ensures trusts { trusts result ≡ false }
{
    if seal {
        Step::SealedCheckpoint
    } else {
        Step::Checkpoint
    }
}

/// Returns whether a checkpoint follows the commit of this number.
fn is_kept(every: u32, number: u32) -> bool
    ensures { result ≡ is_kept every number }
{
    every > 0 && number % every == 0
}

/// Asks all nodes, by the schedule of the plan.
fn ask<M: Simulated, P: Port, D: SectorDisk, W: Watch>(
    alloc: Global,
    session: &mut Session<'_, M, P, D>,
    round: Round,
    tally: &mut Tally,
    watch: &mut W,
) -> Result<(), RoundFault>
    requires sized { IsSized round.plan.nodes tally.old }
    ensures driven { OnOk result (IsDrivenBy M.meaning P.state D.state (trusts_by round.plan)
        (Tallied round.plan (AreAsked round.plan.schedule round tally.old.outstanding.items) tally.old tally.new)
        session.old session.new) }
    ensures commits { tally.new.commits ≡ tally.old.commits }
    ensures sized { IsSized round.plan.nodes tally.new }
    ensures keeps { Keeps M.meaning P.state D.state (trusts_by round.plan) session.old session.new }
    ensures refused { (fault : SessionFault) → IsErrOf result (RoundFault.Session fault) →
        IsRefusedIn M.meaning P.state D.state (AreAsked round.plan.schedule round tally.old.outstanding.items)
        session.old session.new fault }
{
    match round.plan.schedule {
        Schedule::InTurn => turns(alloc, session, round, tally, watch),
        Schedule::Together => together(alloc, session, round, tally, watch),
        Schedule::Overlapped => overlapped(alloc, session, round, tally, watch),
    }
}

/// Gives each node its turn, one after another.
fn turns<M: Simulated, P: Port, D: SectorDisk, W: Watch>(
    alloc: Global,
    session: &mut Session<'_, M, P, D>,
    round: Round,
    tally: &mut Tally,
    watch: &mut W,
) -> Result<(), RoundFault>
    requires sized { IsSized round.plan.nodes tally.old }
    ensures driven { OnOk result (IsDrivenBy M.meaning P.state D.state (trusts_by round.plan)
        (Tallied round.plan (AreTurns round.plan round.plan.nodes) tally.old tally.new)
        session.old session.new) }
    ensures commits { tally.new.commits ≡ tally.old.commits }
    ensures sized { IsSized round.plan.nodes tally.new }
    ensures keeps { Keeps M.meaning P.state D.state (trusts_by round.plan) session.old session.new }
    ensures refused { (fault : SessionFault) → IsErrOf result (RoundFault.Session fault) →
        IsRefusedIn M.meaning P.state D.state (AreTurns round.plan round.plan.nodes)
        session.old session.new fault }
{
    'nodes: for node in 0..round.plan.nodes {
        turn(alloc, session, node, round, tally, watch)?;
    }
    Ok(())
}

/// Posts to all nodes, and then takes all replies.
fn together<M: Simulated, P: Port, D: SectorDisk, W: Watch>(
    alloc: Global,
    session: &mut Session<'_, M, P, D>,
    round: Round,
    tally: &mut Tally,
    watch: &mut W,
) -> Result<(), RoundFault>
    requires sized { IsSized round.plan.nodes tally.old }
    ensures driven { OnOk result (IsDrivenBy M.meaning P.state D.state (trusts_by round.plan)
        (Tallied round.plan (AreAsked Schedule.Together round tally.old.outstanding.items) tally.old tally.new)
        session.old session.new) }
    ensures commits { tally.new.commits ≡ tally.old.commits }
    ensures sized { IsSized round.plan.nodes tally.new }
    ensures keeps { Keeps M.meaning P.state D.state (trusts_by round.plan) session.old session.new }
    ensures refused { (fault : SessionFault) → IsErrOf result (RoundFault.Session fault) →
        IsRefusedIn M.meaning P.state D.state (AreAsked Schedule.Together round tally.old.outstanding.items)
        session.old session.new fault }
{
    post_all(alloc, session, round, tally)?;
    take_all(session, round, tally, watch)
}

/// Takes each reply and posts to its node again; posts to all nodes before, in the first round.
fn overlapped<M: Simulated, P: Port, D: SectorDisk, W: Watch>(
    alloc: Global,
    session: &mut Session<'_, M, P, D>,
    round: Round,
    tally: &mut Tally,
    watch: &mut W,
) -> Result<(), RoundFault>
    requires sized { IsSized round.plan.nodes tally.old }
    ensures driven { OnOk result (IsDrivenBy M.meaning P.state D.state (trusts_by round.plan)
        (Tallied round.plan (AreAsked Schedule.Overlapped round tally.old.outstanding.items) tally.old tally.new)
        session.old session.new) }
    ensures commits { tally.new.commits ≡ tally.old.commits }
    ensures sized { IsSized round.plan.nodes tally.new }
    ensures keeps { Keeps M.meaning P.state D.state (trusts_by round.plan) session.old session.new }
    ensures refused { (fault : SessionFault) → IsErrOf result (RoundFault.Session fault) →
        IsRefusedIn M.meaning P.state D.state (AreAsked Schedule.Overlapped round tally.old.outstanding.items)
        session.old session.new fault }
{
    post_first(alloc, session, round, tally)?;
    next_turns(alloc, session, round, tally, watch)
}

/// Posts to each node everything in transit for it, in the first round of a run.
fn post_first<M: Simulated, P: Port, D: SectorDisk>(
    alloc: Global,
    session: &mut Session<'_, M, P, D>,
    round: Round,
    tally: &mut Tally,
) -> Result<(), RoundFault>
    requires sized { IsSized round.plan.nodes tally.old }
    ensures driven { OnOk result (IsDrivenBy M.meaning P.state D.state (trusts_by round.plan)
        (Tallied round.plan (AreFirst round.first round.plan) tally.old tally.new)
        session.old session.new) }
    ensures commits { tally.new.commits ≡ tally.old.commits }
    ensures sized { IsSized round.plan.nodes tally.new }
    ensures keeps { Keeps M.meaning P.state D.state (trusts_by round.plan) session.old session.new }
    ensures refused { (fault : SessionFault) → IsErrOf result (RoundFault.Session fault) →
        IsRefusedIn M.meaning P.state D.state (AreFirst round.first round.plan)
        session.old session.new fault }
{
    if round.first {
        post_all(alloc, session, round, tally)?;
    }
    Ok(())
}

/// Takes each reply and posts to its node again.
fn next_turns<M: Simulated, P: Port, D: SectorDisk, W: Watch>(
    alloc: Global,
    session: &mut Session<'_, M, P, D>,
    round: Round,
    tally: &mut Tally,
    watch: &mut W,
) -> Result<(), RoundFault>
    requires sized { IsSized round.plan.nodes tally.old }
    ensures driven { OnOk result (IsDrivenBy M.meaning P.state D.state (trusts_by round.plan)
        (Tallied round.plan (AreNext round tally.old.outstanding.items round.plan.nodes) tally.old tally.new)
        session.old session.new) }
    ensures commits { tally.new.commits ≡ tally.old.commits }
    ensures sized { IsSized round.plan.nodes tally.new }
    ensures keeps { Keeps M.meaning P.state D.state (trusts_by round.plan) session.old session.new }
    ensures refused { (fault : SessionFault) → IsErrOf result (RoundFault.Session fault) →
        IsRefusedIn M.meaning P.state D.state (AreNext round tally.old.outstanding.items round.plan.nodes)
        session.old session.new fault }
{
    'nodes: for node in 0..round.plan.nodes {
        next_turn(alloc, session, node, round, tally, watch)?;
    }
    Ok(())
}

/// Takes the reply to the outstanding parcel of a node, if it has one, and posts to it again if it
/// goes on.
fn next_turn<M: Simulated, P: Port, D: SectorDisk, W: Watch>(
    alloc: Global,
    session: &mut Session<'_, M, P, D>,
    node: u32,
    round: Round,
    tally: &mut Tally,
    watch: &mut W,
) -> Result<(), RoundFault>
    requires node { node < round.plan.nodes }
    requires sized { IsSized round.plan.nodes tally.old }
    ensures driven { OnOk result (IsDrivenBy M.meaning P.state D.state (trusts_by round.plan)
        (Tallied round.plan (IsNext round node (get_or tally.old.outstanding.items node Option.None)) tally.old tally.new)
        session.old session.new) }
    ensures commits { tally.new.commits ≡ tally.old.commits }
    ensures sized { IsSized round.plan.nodes tally.new }
    ensures keeps { Keeps M.meaning P.state D.state (trusts_by round.plan) session.old session.new }
    ensures refused { (fault : SessionFault) → IsErrOf result (RoundFault.Session fault) →
        IsRefusedIn M.meaning P.state D.state (IsNext round node (get_or tally.old.outstanding.items node Option.None))
        session.old session.new fault }
{
    let Some(floor) = tally.outstanding(node) else {
        return Ok(());
    };
    take(session, node, round, tally, watch)?;
    post_again(alloc, session, node, floor, round, tally)
}

/// Posts to a node that answered a parcel with this floor, in ticks, if it goes on.
fn post_again<M: Simulated, P: Port, D: SectorDisk>(
    alloc: Global,
    session: &mut Session<'_, M, P, D>,
    node: u32,
    floor: u64,
    round: Round,
    tally: &mut Tally,
) -> Result<(), RoundFault>
    requires node { node < round.plan.nodes }
    requires sized { IsSized round.plan.nodes tally.old }
    ensures driven { OnOk result (IsDrivenBy M.meaning P.state D.state (trusts_by round.plan)
        (Tallied round.plan (IsPostIf (goes_on round floor) round.plan node) tally.old tally.new)
        session.old session.new) }
    ensures commits { tally.new.commits ≡ tally.old.commits }
    ensures sized { IsSized round.plan.nodes tally.new }
    ensures keeps { Keeps M.meaning P.state D.state (trusts_by round.plan) session.old session.new }
    ensures refused { (fault : SessionFault) → IsErrOf result (RoundFault.Session fault) →
        IsRefusedIn M.meaning P.state D.state (IsPostIf (goes_on round floor) round.plan node)
        session.old session.new fault }
{
    if round.goes_on(floor) {
        post(alloc, session, node, round, tally)?;
    }
    Ok(())
}

/// Posts to each node everything in transit for it.
fn post_all<M: Simulated, P: Port, D: SectorDisk>(
    alloc: Global,
    session: &mut Session<'_, M, P, D>,
    round: Round,
    tally: &mut Tally,
) -> Result<(), RoundFault>
    requires sized { IsSized round.plan.nodes tally.old }
    ensures driven { OnOk result (IsDrivenBy M.meaning P.state D.state (trusts_by round.plan)
        (Tallied round.plan (ArePosts round.plan round.plan.nodes) tally.old tally.new)
        session.old session.new) }
    ensures commits { tally.new.commits ≡ tally.old.commits }
    ensures sized { IsSized round.plan.nodes tally.new }
    ensures keeps { Keeps M.meaning P.state D.state (trusts_by round.plan) session.old session.new }
    ensures refused { (fault : SessionFault) → IsErrOf result (RoundFault.Session fault) →
        IsRefusedIn M.meaning P.state D.state (ArePosts round.plan round.plan.nodes)
        session.old session.new fault }
{
    'nodes: for node in 0..round.plan.nodes {
        post(alloc, session, node, round, tally)?;
    }
    Ok(())
}

/// Takes the reply of each node.
fn take_all<M: Simulated, P: Port, D: SectorDisk, W: Watch>(
    session: &mut Session<'_, M, P, D>,
    round: Round,
    tally: &mut Tally,
    watch: &mut W,
) -> Result<(), RoundFault>
    requires sized { IsSized round.plan.nodes tally.old }
    ensures driven { OnOk result (IsDrivenBy M.meaning P.state D.state (trusts_by round.plan)
        (Tallied round.plan (λ taken. moves_of taken ≡ takes_of round.plan.nodes) tally.old tally.new)
        session.old session.new) }
    ensures commits { tally.new.commits ≡ tally.old.commits }
    ensures sized { IsSized round.plan.nodes tally.new }
    ensures keeps { Keeps M.meaning P.state D.state (trusts_by round.plan) session.old session.new }
    ensures refused { (fault : SessionFault) → IsErrOf result (RoundFault.Session fault) →
        IsRefusedIn M.meaning P.state D.state (λ taken. moves_of taken ≡ takes_of round.plan.nodes)
        session.old session.new fault }
{
    'nodes: for node in 0..round.plan.nodes {
        take(session, node, round, tally, watch)?;
    }
    Ok(())
}

/// Posts to a node everything in transit for it, and takes its reply.
fn turn<M: Simulated, P: Port, D: SectorDisk, W: Watch>(
    alloc: Global,
    session: &mut Session<'_, M, P, D>,
    node: u32,
    round: Round,
    tally: &mut Tally,
    watch: &mut W,
) -> Result<(), RoundFault>
    requires node { node < round.plan.nodes }
    requires sized { IsSized round.plan.nodes tally.old }
    ensures driven { OnOk result (IsDrivenBy M.meaning P.state D.state (trusts_by round.plan)
        (Tallied round.plan (IsTurn round.plan node) tally.old tally.new)
        session.old session.new) }
    ensures commits { tally.new.commits ≡ tally.old.commits }
    ensures sized { IsSized round.plan.nodes tally.new }
    ensures keeps { Keeps M.meaning P.state D.state (trusts_by round.plan) session.old session.new }
    ensures refused { (fault : SessionFault) → IsErrOf result (RoundFault.Session fault) →
        IsRefusedIn M.meaning P.state D.state (IsTurn round.plan node)
        session.old session.new fault }
{
    post(alloc, session, node, round, tally)?;
    take(session, node, round, tally, watch)
}

/// Posts to a node everything in transit for it.
fn post<M: Simulated, P: Port, D: SectorDisk>(
    alloc: Global,
    session: &mut Session<'_, M, P, D>,
    node: u32,
    round: Round,
    tally: &mut Tally,
) -> Result<(), RoundFault>
    requires node { node < round.plan.nodes }
    requires sized { IsSized round.plan.nodes tally.old }
    ensures driven { OnOk result (IsDrivenBy M.meaning P.state D.state (trusts_by round.plan)
        (Tallied round.plan (IsPost round.plan node) tally.old tally.new)
        session.old session.new) }
    ensures commits { tally.new.commits ≡ tally.old.commits }
    ensures sized { IsSized round.plan.nodes tally.new }
    ensures keeps { Keeps M.meaning P.state D.state (trusts_by round.plan) session.old session.new }
    ensures refused { (fault : SessionFault) → IsErrOf result (RoundFault.Session fault) →
        IsRefusedIn M.meaning P.state D.state (IsPost round.plan node)
        session.old session.new fault }
{
    let picks = places(alloc, session.transit(), node, round.plan.nodes)?;
    let undone = antimessages(session.transit(), picks.as_slice());
    let budget = tally.budget(round.plan.batch, node);
    tally.asked(node, budget, picks.len(), undone);
    let post = Step::Post {
        node,
        picks: Listed::from_vec(picks),
        budget,
    };
    let answer = session.step(&post)?;
    tally.posted(node, &answer);
    Ok(())
}

/// Takes a node's reply.
fn take<M: Simulated, P: Port, D: SectorDisk, W: Watch>(
    session: &mut Session<'_, M, P, D>,
    node: u32,
    round: Round,
    tally: &mut Tally,
    watch: &mut W,
) -> Result<(), RoundFault>
    requires node { node < round.plan.nodes }
    requires sized { IsSized round.plan.nodes tally.old }
    ensures driven { OnOk result (IsDrivenBy M.meaning P.state D.state (trusts_by round.plan)
        (Tallied round.plan (λ taken. moves_of taken ≡ TakeMove node ∷ []) tally.old tally.new)
        session.old session.new) }
    ensures commits { tally.new.commits ≡ tally.old.commits }
    ensures sized { IsSized round.plan.nodes tally.new }
    ensures keeps { Keeps M.meaning P.state D.state (trusts_by round.plan) session.old session.new }
    ensures refused { (fault : SessionFault) → IsErrOf result (RoundFault.Session fault) →
        IsRefusedIn M.meaning P.state D.state (λ taken. moves_of taken ≡ TakeMove node ∷ [])
        session.old session.new fault }
{
    let answer = session.step(&Step::Take { node })?;
    tally.taken(node, &answer);
    watch.turned(&tally.turn(node, &answer));
    Ok(())
}

impl From<SessionFault> for RoundFault {
    ghost use Rattle.runs.specs.declared.rounds.RoundFault.TheVariants.{Session};

    ghost from_gives = { λ fault e. e ≡ Session fault };

    fn from(fault: SessionFault) -> RoundFault {
        RoundFault::Session(fault)
    }
}

impl From<AllocError> for RoundFault {
    ghost use Rattle.runs.specs.declared.rounds.RoundFault.TheVariants.{NoMemory};

    ghost from_gives = { λ _ e. e ≡ NoMemory };

    fn from(_refused: AllocError) -> RoundFault {
        RoundFault::NoMemory
    }
}

impl From<RoundFault> for RunFault {
    ghost use Rattle.runs.specs.Driver.{of_round};

    ghost from_gives = { λ fault e. e ≡ of_round fault };

    fn from(fault: RoundFault) -> RunFault {
        match fault {
            RoundFault::Session(fault) => RunFault::Session(fault),
            RoundFault::NoMemory => RunFault::NoMemory,
        }
    }
}

impl From<AllocError> for RunFault {
    ghost use Rattle.runs.specs.declared.rounds.RunFault.TheVariants.{NoMemory};

    ghost from_gives = { λ _ e. e ≡ NoMemory };

    fn from(_refused: AllocError) -> RunFault {
        RunFault::NoMemory
    }
}

impl<T: Drop> From<AllocFailed<T>> for RunFault {
    ghost use Rattle.runs.specs.declared.rounds.RunFault.TheVariants.{NoMemory};

    ghost from_gives = { λ _ e. e ≡ NoMemory };

    fn from(_refused: AllocFailed<T>) -> RunFault {
        RunFault::NoMemory
    }
}
