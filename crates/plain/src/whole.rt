// Whole plain runs on a disk.

ghost use Rattle.std.specs.Prelude.{◌≡◌, ◌≤◌, ◌<◌, ◌^◌, ℕ, IfErr, IfOk, length, true};
ghost use Rattle.plain.specs.Commits.{StaysRecoverable};
ghost use Rattle.plain.specs.Refusals.{SavingIsRefused};
ghost use Rattle.plain.specs.Runs.{AreRounds, IsRound, IsRun, IsSavedIf, IsStopped};
ghost use Rattle.plain.specs.Runs.{RoundIsRefused, is_kept};
ghost use Rattle.recovery.specs.OldRecords.{KeepsOldRecords};

use crate::{PlainFault, PlainRun, Stopped};
use disk::{NotOpened, Returned, SectorDisk};
use model::Model as Simulated;
use std::alloc::Global;

/// How a plain run commits.
#[derive(Clone, Copy, Debug, PartialEq, Eq)]
pub struct PlainPlan {
    /// The number of events after which a commit follows, at the end of their virtual time; 0
    /// counts as 1. A record holds at most 299,592 events.
    pub commit_every: u32,
    /// The number of commits after which a checkpoint follows; 0 for no checkpoints.
    pub checkpoint_every: u32,
    /// Whether a seal follows each checkpoint: a record of the SHA-256 of the records since the last
    /// seal, which an opening compares. It is left out where the disk has no room for it.
    pub seals: bool,
    /// The most commits that are made.
    pub commits: u32,
}

/// What is committed after a run that reached its end.
#[derive(Clone, Copy, Debug, PartialEq, Eq)]
pub struct Reached {
    /// The virtual time before which everything is committed, in ticks.
    pub time: u64,
    /// The number of committed events.
    pub events: usize,
}

/// Observes the progress of a plain run, and may end it.
pub trait PlainWatch {
    /// Called at the beginning of a run: everything before this virtual time, in ticks, is committed
    /// on the disk, `events` events in all.
    fn opened(&mut self, _time: u64, _events: usize) {}

    /// Called after each commit, before the checkpoint that may follow it: everything before this
    /// virtual time, in ticks, is committed, `events` events in all.
    fn committed(&mut self, time: u64, events: usize);

    /// Called at the beginning of a run, and after each commit and the checkpoint that may follow
    /// it, with the number of sectors that hold the log and the number that the disk has. One more
    /// sector is the closed gate; the rest are free.
    fn stored(&mut self, _used: u32, _sectors: u32) {}

    /// Called before each commit. Returns whether that commit is the last one: the run then ends
    /// with it, as if the plan had no more commits.
    fn is_stopped(&mut self) -> bool {
        false
    }
}

/// Runs a simulation on its disk, one event at a time and without nodes, from the front on the disk
/// to `end`, the tick at which it ends, 1 to 2^40, and returns the disk. The disk may have been run
/// over nodes before, and may be run over nodes later.
///
/// Fails with the faults of the opening ([`PlainRun::open`]), of a commit ([`PlainRun::commit`]) or
/// of a checkpoint ([`PlainRun::checkpoint`]), or with `Commits` if all commits were made before
/// the end was reached. If `watch` asks for a stop, the run ends after the next commit (`Stopped`),
/// unless that reaches the end or is the plan's last one. What was committed stays on the disk in
/// every case.
pub fn run_plain<M: Simulated, D: SectorDisk + Drop, W: PlainWatch>(
    alloc: Global,
    model: &M,
    disk: D,
    end: u64,
    plan: PlainPlan,
    watch: &mut W,
) -> Returned<D, Reached, PlainFault>
    requires begun { 1 ≤ end }
    requires short { end ≤ 2 ^ 40 }
    // It makes the plan's commits, checkpoints and seals and nothing else, or has a cause for its
    // fault; and at every exit it has committed the sequential simulation.
    ensures run { IsRun M.meaning D.state model.now end plan disk result.disk result.outcome }
    // The records that were on the disk stay, also if they are not genuine.
    ensures old_records { KeepsOldRecords (D.state disk) (D.state result.disk) }
{
    let run = match PlainRun::open(alloc, model, disk, end) {
        Ok(run) => run,
        Err(NotOpened { fault, disk }) => {
            return Returned {
                disk,
                outcome: Err(fault),
            };
        }
    };
    match make_rounds(run, plan, watch) {
        Ok(run) => {
            let done = Reached {
                time: run.time(),
                events: run.events(),
            };
            Returned {
                disk: run.into_disk(),
                outcome: Ok(done),
            }
        }
        Err(Stopped { fault, disk }) => Returned {
            disk,
            outcome: Err(fault),
        },
    }
}

/// Commits until the end is reached, or a stop is asked for.
fn make_rounds<'m, M: Simulated, D: SectorDisk, W: PlainWatch>(
    run: PlainRun<'m, M, D>,
    plan: PlainPlan,
    watch: &mut W,
) -> Result<PlainRun<'m, M, D>, Stopped<D>>
    ensures made { IfOk result (λ last. (number : ℕ) × (number ≤ plan.commits)
        × AreRounds M.meaning D.state plan number run.entry last
        × (last.front.end ≤ last.front.world.time)) }
    ensures stopped { IfErr result (λ e. IsStopped M.meaning D.state plan run.entry e.disk e.fault) }
{
    watch.opened(run.time(), run.events());
    watch.stored(run.used(), run.sectors());
    let mut run = run;
    let mut is_last = false;
    'commits: for number in 0..plan.commits {
        if run.end() <= run.time() {
            return Ok(run);
        }
        if is_last {
            return Err(stop(run));
        }
        is_last = watch.is_stopped();
        run = match make_round(run, plan, number + 1, watch) {
            Ok(next) => next,
            Err(stopped) => return Err(stopped),
        };
    }
    if run.end() <= run.time() {
        return Ok(run);
    }
    Err(Stopped {
        fault: PlainFault::Commits,
        disk: run.into_disk(),
    })
}

/// Ends a run that was asked to stop.
fn stop<'m, M: Simulated, D: SectorDisk>(run: PlainRun<'m, M, D>) -> Stopped<D>
    ensures fault { result.fault
        ≡ PlainFault.Stopped run.entry.front.world.time (length run.entry.front.world.log) }
    ensures disk { result.disk ≡ run.entry.log.disk }
{
    let fault = PlainFault::Stopped {
        time: run.time(),
        events: run.events(),
    };
    Stopped {
        fault,
        disk: run.into_disk(),
    }
}

/// Makes the commit of this number, and a checkpoint if one is due.
fn make_round<'m, M: Simulated, D: SectorDisk, W: PlainWatch>(
    run: PlainRun<'m, M, D>,
    plan: PlainPlan,
    number: u32,
    watch: &mut W,
) -> Result<PlainRun<'m, M, D>, Stopped<D>>
    requires { run.front.world.time < run.front.end }
    ensures made { IfOk result (λ next. IsRound M.meaning D.state plan number run.entry next) }
    ensures refused { IfErr result (λ e.
        RoundIsRefused M.meaning D.state plan number run.entry e.disk e.fault) }
    ensures stays { IfErr result (λ e. StaysRecoverable M.meaning D.state run.entry e.disk) }
{
    let run = match run.commit(plan.commit_every) {
        Ok(run) => run,
        Err(stopped) => return Err(stopped),
    };
    watch.committed(run.time(), run.events());
    let run = match save_if(run, is_kept(plan.checkpoint_every, number), plan.seals) {
        Ok(run) => run,
        Err(stopped) => return Err(stopped),
    };
    watch.stored(run.used(), run.sectors());
    Ok(run)
}

/// Makes a checkpoint if one is due, and with `seal` a seal after it.
fn save_if<'m, M: Simulated, D: SectorDisk>(
    run: PlainRun<'m, M, D>,
    due: bool,
    seal: bool,
) -> Result<PlainRun<'m, M, D>, Stopped<D>>
    ensures saved { IfOk result (λ next. IsSavedIf M.meaning D.state due seal run.entry next) }
    ensures refused { IfErr result (λ e. (due ≡ true) × SavingIsRefused run.entry.front.world
        run.entry.log.records (length (D.state run.entry.log.disk).reads)
        ((D.state run.entry.log.disk).failures < (D.state e.disk).failures) e.fault) }
    ensures stays { IfErr result (λ e. StaysRecoverable M.meaning D.state run.entry e.disk) }
{
    if due { run.checkpoint(seal) } else { Ok(run) }
}

/// Returns whether a checkpoint follows the commit of this number.
fn is_kept(every: u32, number: u32) -> bool
    ensures { result ≡ is_kept every number }
{
    every > 0 && number % every == 0
}
