// The commands on a disk.

ghost use Rattle.std.specs.Prelude.{◌≡◌, ◌≢◌, ◌≤◌, ◌<◌, ◌^◌, ℕ, Err, IfErr, IfOk};
ghost use Rattle.std.specs.Prelude.{None, OnOk, Option, length, map, option_map};
ghost use Rattle.runs.specs.Commands.{IsBlankOrRepresents, IsNewLog, IsOfSession, IsPrinted};
ghost use Rattle.runs.specs.Commands.{LookingIsRefused, MakesRun, MakingIsRefused, OnDone};
ghost use Rattle.runs.specs.Commands.{PrintsExtended, RepresentsUpto, formatted_text, numbers_of};
ghost use Rattle.runs.specs.declared.commands.fault.CommandFault.TheVariants.{Output};
ghost use Rattle.commitlog.specs.Records.{IsBlank};
ghost use Rattle.recovery.specs.Crashes.{KeepsRecovery, RecoversUnderItsEnd};
ghost use Rattle.recovery.specs.Represents.{Recovers, IsGenuine};
ghost use Rattle.recovery.specs.OldRecords.{KeepsOldRecords};
ghost use Rattle.coordinator.specs.Extending.{ExtendingIsRefused, KeepsRecords};
ghost use Rattle.coordinator.specs.Opening.{MayOpen, MayRun};
ghost use Rattle.disk.specs.Disk.{IsSynced, LeavesOnly};
ghost use Rattle.model.specs.Meaning.{Meaning};
ghost use Rattle.model.specs.World.{opening, World};
ghost use Rattle.recovery.specs.Ends.{IsEnd};
ghost use Rattle.recovery.specs.Histories.{IsKept};
ghost use Rattle.recovery.specs.Front.{world_of};
ghost use Rattle.recovery.specs.Replay.{IsReplayedTo, in_force};
ghost use Rattle.runs.specs.Runs.{IsRun, IsRunInProgram};
ghost use Rattle.std.specs.Io.KnownBytes.{Appends};
ghost use Rattle.eventkey.specs.Writing.{TakesBeginning};

use crate::commands::CommandFault;
use crate::commands::printing::{write_extended, write_formatted, write_ran};
use crate::{Plan, Watch, run_local};
use commitlog::{Log, format};
use coordinator::Extended;
use disk::{NotOpened, Returned, SectorDisk};
use model::Model as Modelled;
use recovery::{Front, header, recover};
use std::alloc::Global;
use std::io::Write;
use wire::Port;

/// A model, and the tick at which its simulation ends.
#[derive(Drop)]
pub struct Simulated<M> {
    pub model: M,
    pub end: u64,
}

/// Makes an empty log for a simulation on a disk without one, and writes the number of sectors of
/// the disk: `formatted N sectors`.
///
/// Returns `Log` if the log is not made, and `Output` if the writer refuses; the log is then made.
/// At every other fault nothing is written.
pub fn new<M: Modelled, D: SectorDisk + Drop, O: Write>(
    alloc: Global,
    of: &Simulated<M>,
    disk: &mut D,
    out: &mut O,
) -> Result<(), CommandFault>
    ensures printed { IsPrinted (λ Taken. Taken (formatted_text (length (D.state disk.old).reads)))
        result (out.new ≡ out.old) (O.contents out.old) (O.contents out.new) }
    // The log is made also if its output could not be written.
    ensures made { OnDone result (IsNewLog (M.meaning of.now.model) of.now.end (D.state disk.new)) }
    // What the disk represented before, of any model, it represents at each moment of the call and
    // after it, at every exit.
    ensures crashes { (m : Meaning) (end a : ℕ) → Recovers m end a (D.state disk.old) →
        KeepsRecovery m end a a (D.state disk.old) (D.state disk.new) }
    // On a disk without a log, a crash at any moment leaves none, or an image that represents the
    // opening world.
    ensures any_moment { IsEnd of.now.end → IsSynced (D.state disk.old).dirty →
        IsBlank (D.state disk.old).reads → LeavesOnly (D.state disk.old) (D.state disk.new)
        (IsBlankOrRepresents (M.meaning of.now.model) of.now.end (opening (M.meaning of.now.model))) }
    ensures refused { IfErr result (λ fault. MakingIsRefused fault (D.state disk.old).reads
        ((D.state disk.old).failures < (D.state disk.new).failures)) }
{
    let sectors = disk.sectors();
    let sector = header(alloc, &of.model, of.end);
    format(disk, &sector)?;
    write_formatted(sectors, out)
}

/// Runs a simulation on its disk from the last commit to its end, 1 to 2^40, over 1 to 64 nodes in
/// this program.
///
/// Writes `node K ran N` for each node, N the number of messages that it handled, and then
/// `committed TIME events N`, N the number of committed events. Returns the disk as well.
///
/// Returns `Session`, `Rounds` or `NoMemory` if the run stops with that fault, `Stopped` if `watch`
/// asked it to, and `Output` if the writer refuses. At every fault but `Output` nothing is written.
/// What was committed stays on the disk at every exit.
pub fn run<M: Modelled, D: SectorDisk + Drop, O: Write, W: Watch>(
    alloc: Global,
    of: &Simulated<M>,
    disk: D,
    plan: Plan,
    watch: &mut W,
    out: &mut O,
) -> Returned<D, (), CommandFault>
    requires possible { MayRun plan.nodes of.now.end }
    // It makes a run over nodes in this program, and prints its numbers.
    ensures run { MakesRun numbers_of (IsRunInProgram M.meaning D.state of.now.model of.now.end plan
        disk result.disk) result.outcome (out.new ≡ out.old) (O.contents out.old)
        (O.contents out.new) }
    // The records that were on the disk stay, also if they are not genuine.
    ensures old_records { KeepsOldRecords (D.state disk) (D.state result.disk) }
{
    let Returned { disk, outcome } = run_local(alloc, &of.model, disk, of.end, plan, watch);
    match outcome {
        Ok(outcome) => Returned {
            disk,
            outcome: write_ran(outcome.ran.as_slice(), outcome.time, outcome.events, out),
        },
        Err(fault) => Returned {
            disk,
            outcome: Err(fault.into()),
        },
    }
}

/// Runs a simulation on its disk as `run` does, over the nodes behind 1 to 64 ports, one for each
/// node of the plan. Nothing is loaded through the ports yet. Node k is behind the port at place k.
///
/// Returns the faults of `run`. It writes what the nodes report. If the plan's commits are judged,
/// or if all ports are faithful to nodes of this model, it promises what `run` promises. Of a run
/// over other ports it is known that they are called as the plan says, and that the records that
/// were on the disk stay there, also after a crash. A judged commit fails with
/// `Session Reports` if what the nodes reported is not what the model does next.
pub fn run_over<M: Modelled, P: Port + Drop, D: SectorDisk + Drop, O: Write, W: Watch>(
    alloc: Global,
    of: &Simulated<M>,
    ports: Vec<P>,
    disk: D,
    plan: Plan,
    watch: &mut W,
    out: &mut O,
) -> Returned<D, (), CommandFault>
    requires each { length ports.items ≡ plan.nodes }
    requires possible { MayOpen P.state ports.items of.now.end }
    // It makes a run over these ports, and prints its numbers.
    ensures run { MakesRun numbers_of (IsRun M.meaning P.state D.state of.now.model of.now.end plan
        (map P.state ports.items) disk result.disk) result.outcome (out.new ≡ out.old)
        (O.contents out.old) (O.contents out.new) }
    // Whatever nodes report, the records that were on the disk stay: each image that a crash at any
    // moment of the run may leave, or when it has returned, has them, alone or followed by those of
    // the run.
    ensures old_records { KeepsOldRecords (D.state disk) (D.state result.disk) }
{
    let Returned { disk, outcome } = crate::run_over(
        alloc, &of.model, ports, disk, of.end, plan, watch,
    );
    match outcome {
        Ok(outcome) => Returned {
            disk,
            outcome: write_ran(outcome.ran.as_slice(), outcome.time, outcome.events, out),
        },
        Err(fault) => Returned {
            disk,
            outcome: Err(CommandFault::from(fault)),
        },
    }
}

/// Puts the end of a simulation in force on its disk, on which an earlier end is in force. Writes
/// `extended E0 to E1`, the earlier end and this one, and returns the disk.
///
/// Returns `Session` if `coordinator::extend` refuses, and `Output` if the writer refuses; the new
/// end is then in force. At every fault but `Output` nothing is written.
pub fn extend<M: Modelled, D: SectorDisk + Drop, O: Write>(
    alloc: Global,
    of: &Simulated<M>,
    disk: D,
    out: &mut O,
) -> Returned<D, (), CommandFault>
    ensures printed { OnOk result.outcome (PrintsExtended (M.meaning of.now.model) of.now.end
        (D.state disk) (D.state result.disk) (Appends (O.contents out.old) (O.contents out.new))) }
    ensures output { result.outcome ≡ Err Output → PrintsExtended (M.meaning of.now.model) of.now.end
        (D.state disk) (D.state result.disk)
        (TakesBeginning (O.contents out.old) (O.contents out.new)) }
    ensures unwritten { (fault : CommandFault) → result.outcome ≡ Err fault → fault ≢ Output →
        out.new ≡ out.old }
    // Crash safety: if each image recovers to at least time a, under the end in force on it, it
    // does so at each moment of the call and after it, at every exit. Each image then has the
    // records from before, alone or with this end after them.
    ensures crashes { (a : ℕ) → RecoversUnderItsEnd (M.meaning of.now.model) a (D.state disk) →
        KeepsRecords (M.meaning of.now.model) a a of.now.end (D.state disk) (D.state result.disk) }
    // It is a call of a history of the headline, which acknowledges the front under the new end,
    // unless it is refused.
    ensures kept { (v : World) → (front : Option World)
        × (OnOk result.outcome (front ≢ None))
        × IsKept (M.meaning of.now.model) v (record {
          begun = D.state disk;
          ended = D.state result.disk;
          front = option_map (λ (w : World). in_force of.now.end w) front;
        }) }
    ensures refused { IfErr result.outcome (λ fault. fault ≢ Output → IsOfSession fault
        (ExtendingIsRefused (M.meaning of.now.model) of.now.end (D.state disk).reads
        ((D.state disk).failures < (D.state result.disk).failures))) }
{
    let Returned { disk, outcome } = coordinator::extend(alloc, &of.model, disk, of.end);
    match outcome {
        Ok(Extended { front: _, before }) => Returned {
            disk,
            outcome: write_extended(before, of.end, out),
        },
        Err(fault) => Returned {
            disk,
            outcome: Err(CommandFault::Session(fault)),
        },
    }
}

/// Returns the front to which the records of a disk are replayed, for a program's own command. If
/// the records are genuine, they represent it.
///
/// Returns, in this order, `Log` if the log is not opened, and `Recovery` if no world is recovered.
pub fn committed<M: Modelled, D: SectorDisk + Drop>(
    alloc: Global,
    of: &Simulated<M>,
    disk: D,
) -> Result<Front, CommandFault>
    requires some { 1 ≤ of.now.end }
    requires short { of.now.end ≤ 2 ^ 40 }
    ensures replayed { IfOk result (λ front.
        IsReplayedTo (M.meaning of.now.model) of.now.end (D.state disk).reads (world_of front)) }
    ensures genuine { IfOk result (λ front.
        IsGenuine (M.meaning of.now.model) of.now.end (D.state disk).reads →
        RepresentsUpto (M.meaning of.now.model) of.now.end (D.state disk).reads (world_of front)) }
    ensures within { IfOk result (λ front. front.g ≤ of.now.end) }
    ensures each { IfOk result (λ front. length front.states ≡ length front.numbers) }
    ensures refused { IfErr result (λ fault. LookingIsRefused (M.meaning of.now.model) of.now.end
        fault (D.state disk).reads) }
{
    let mut log = match Log::open(alloc, disk) {
        Ok(log) => log,
        Err(NotOpened { fault, disk: _ }) => return Err(CommandFault::Log(fault)),
    };
    Ok(recover(alloc, &of.model, &mut log, of.end)?)
}
