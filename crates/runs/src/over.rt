// Whole runs on a disk.

ghost use Rattle.std.specs.Prelude.{◌≡◌, length, map};
ghost use Rattle.coordinator.specs.Opening.{MayOpen};
ghost use Rattle.recovery.specs.OldRecords.{KeepsOldRecords};
ghost use Rattle.runs.specs.Runs.{IsRun};

use crate::rounds::{Plan, RunFault, Watch, run_session};
use coordinator::Session;
use disk::{NotOpened, Returned, SectorDisk};
use model::Model as Simulated;
use std::alloc::Global;
use wire::Port;

/// The result of a finished run.
#[derive(Drop)]
pub struct Finished {
    /// The number of messages that each node handled, including those rolled back later.
    pub ran: Vec<u64>,
    /// The virtual time before which everything is committed, in ticks.
    pub time: u64,
    /// The number of committed events.
    pub events: usize,
}

/// Runs a simulation on its disk over the nodes behind 1 to 64 ports, through which nothing has
/// been loaded yet, from the front on the disk to `end`, the tick at which it ends, 1 to 2^40, and
/// returns the disk. Node k is behind the port at place k.
///
/// Fails with the faults of the session's opening and steps (`Session`), if all rounds were made
/// (`Rounds`), if `watch` asked for a stop (`Stopped`), or if an allocation fails (`NoMemory`).
///
/// If the plan's commits are judged, whatever the nodes answer, and also if the ports are faithful
/// and run this model, what was committed stays on the disk in every case, and all that is
/// committed is what the sequential simulation does. Of other runs it is guaranteed that the ports
/// are asked as the plan says, and that the records that were there stay, also after a crash. What
/// such a run adds is as right as its nodes. A judged commit fails with `Session Reports` if what
/// the nodes reported is not what the simulation does next; over faithful ports none does.
pub fn run_over<M: Simulated, P: Port + Drop, D: SectorDisk + Drop, W: Watch>(
    alloc: Global,
    model: &M,
    ports: Vec<P>,
    disk: D,
    end: u64,
    plan: Plan,
    watch: &mut W,
) -> Returned<D, Finished, RunFault>
    requires each { length ports.items ≡ plan.nodes }
    requires possible { MayOpen P.state ports.items end }
    // Over any ports it makes the plan's rounds and nothing else, or has a cause for its fault. If its
    // commits are judged or its ports are faithful, it commits the sequential simulation; and over
    // faithful ports it fails for a fault of theirs only if a resource is exhausted.
    ensures run { IsRun M.meaning P.state D.state model.now end plan (map P.state ports.items) disk
        result.disk result.outcome }
    // Over any ports, whatever nodes report and whether or not commits are judged, the records that
    // were on the disk stay: each image that a crash at any moment of the run may leave, or when it
    // has returned, has them, alone or followed by those of the run.
    ensures old_records { KeepsOldRecords (D.state disk) (D.state result.disk) }
{
    let mut session = match Session::open(alloc, model, ports, disk, end) {
        Ok(session) => session,
        Err(NotOpened { fault, disk }) => {
            return Returned {
                disk,
                outcome: Err(RunFault::Session(fault)),
            };
        }
    };
    let outcome = match run_session(alloc, &mut session, end, plan, watch) {
        Ok(ran) => {
            let front = session.front();
            Ok(Finished {
                ran,
                time: front.time,
                events: front.log.len(),
            })
        }
        Err(fault) => Err(fault),
    };
    Returned {
        disk: session.into_disk(),
        outcome,
    }
}
