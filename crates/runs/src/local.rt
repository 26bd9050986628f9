// Runs over nodes in this program.

ghost use Rattle.std.specs.Prelude.{◌≡◌, IfErr, IfOk, map, replicate};
ghost use Rattle.coordinator.specs.Opening.{MayRun};
ghost use Rattle.recovery.specs.OldRecords.{KeepsOldRecords};
ghost use Rattle.runs.specs.Runs.{IsRunInProgram};
ghost use Rattle.wire.specs.Local.{state_of};
ghost use Rattle.wire.specs.declared.local.Held.TheVariants.{Fresh};

use crate::over::{Finished, run_over};
use crate::rounds::{Plan, RunFault, Watch};
use disk::{Returned, SectorDisk};
use model::Model as Simulated;
use std::alloc::Global;
use wire::LocalPort;

/// Runs a simulation on its disk over 1 to 64 nodes in this program, from the front on the disk to
/// `end`, the tick at which it ends, 1 to 2^40, and returns the disk.
///
/// Fails with the faults of the session's opening and steps (`Session`), if all rounds were made
/// (`Rounds`), if `watch` asked for a stop (`Stopped`), or if an allocation fails (`NoMemory`). What
/// was committed stays on the disk in every case.
pub fn run_local<M: Simulated, D: SectorDisk + Drop, W: Watch>(
    alloc: Global,
    model: &M,
    disk: D,
    end: u64,
    plan: Plan,
    watch: &mut W,
) -> Returned<D, Finished, RunFault>
    requires possible { MayRun plan.nodes end }
    // It makes the plan's rounds and nothing else, or has a cause for its fault; at every exit it has
    // committed the sequential simulation; and its nodes fail only if a resource is exhausted.
    ensures run { IsRunInProgram M.meaning D.state model.now end plan disk result.disk
        result.outcome }
    // The records that were on the disk stay, also if they are not genuine.
    ensures old_records { KeepsOldRecords (D.state disk) (D.state result.disk) }
{
    let ports = match local_ports(alloc, model, plan.nodes) {
        Ok(ports) => ports,
        Err(fault) => {
            return Returned {
                disk,
                outcome: Err(fault),
            };
        }
    };
    run_over(alloc, model, ports, disk, end, plan, watch)
}

/// Returns ports to `nodes` nodes in this program, which all run this model and are not loaded yet.
pub fn local_ports<'m, M: Simulated>(
    alloc: Global,
    model: &'m M,
    nodes: u32,
) -> Result<Vec<LocalPort<'m, M>>, RunFault>
    ensures ports { IfOk result (λ ports. map (λ p. state_of (M.meaning p.model) p.held) ports.items
        ≡ replicate nodes (state_of (M.meaning model.now) Fresh)) }
    ensures resources { IfErr result (λ fault. fault ≡ RunFault.NoMemory) }
{
    let mut ports = Vec::new(alloc);
    'ports: for _ in 0..nodes {
        ports.push(LocalPort::new(alloc, model))?;
    }
    Ok(ports)
}
