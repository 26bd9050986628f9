// A run without nodes.

ghost use Rattle.std.specs.Prelude.{◌≡◌, ◌≤◌, ◌^◌};
ghost use Rattle.runs.specs.Commands.{MakesRun, plain_numbers_of};
ghost use Rattle.plain.specs.Runs.{IsRun};
ghost use Rattle.recovery.specs.OldRecords.{KeepsOldRecords};

use crate::commands::CommandFault;
use crate::commands::on_disks::Simulated;
use crate::commands::printing::write_ran;
use disk::{Returned, SectorDisk};
use model::Model as Modelled;
use plain::{PlainPlan, PlainWatch};
use std::alloc::Global;
use std::io::Write;

/// Runs a simulation on its disk from the last commit to its end, 1 to 2^40, one event at a time and
/// without nodes. The disk may have been run over nodes before, and may be run over nodes later.
///
/// Writes `committed TIME events N`, N the number of committed events. Returns the disk as well.
///
/// Returns `Session` if the run stops with a fault that a session has too, `Rounds` if all commits
/// of the plan were made, `Stopped` if `watch` asked for a stop, and `Output` if the writer refuses.
/// At every fault but `Output` nothing is written. What was committed stays on the disk at every
/// exit.
pub fn run_plain<M: Modelled, D: SectorDisk + Drop, O: Write, W: PlainWatch>(
    alloc: Global,
    of: &Simulated<M>,
    disk: D,
    plan: PlainPlan,
    watch: &mut W,
    out: &mut O,
) -> Returned<D, (), CommandFault>
    requires some { 1 ≤ of.now.end }
    requires short { of.now.end ≤ 2 ^ 40 }
    // It makes a run without nodes, and prints its numbers.
    ensures run { MakesRun plain_numbers_of (IsRun M.meaning D.state of.now.model of.now.end plan disk
        result.disk) result.outcome (out.new ≡ out.old) (O.contents out.old) (O.contents out.new) }
    // The records that were on the disk stay, also if they are not genuine.
    ensures old_records { KeepsOldRecords (D.state disk) (D.state result.disk) }
{
    let Returned { disk, outcome } = plain::run_plain(alloc, &of.model, disk, of.end, plan, watch);
    match outcome {
        Ok(done) => Returned {
            disk,
            outcome: write_ran(&[], done.time, done.events, out),
        },
        Err(fault) => Returned {
            disk,
            outcome: Err(CommandFault::from(fault)),
        },
    }
}
