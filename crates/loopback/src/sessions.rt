// Whole sessions over nodes behind bytes.

ghost use Rattle.std.specs.Prelude.{◌≡◌, ◌<◌, ℕ, IfErr, IfOk, IfSome, IsSome, None};
ghost use Rattle.std.specs.Prelude.{length, map, replicate, take};
ghost use Rattle.recovery.specs.Represents.{Recovers};
ghost use Rattle.coordinator.specs.Headline.{IsResumed};
ghost use Rattle.coordinator.specs.Opening.{IsResourceFaultAtOpening, MayRun, OpeningIsRefused};
ghost use Rattle.coordinator.specs.Steps.{move_of};
ghost use Rattle.loopback.specs.Loop.{state_of};
ghost use Rattle.loopback.specs.declared.port.Held.TheVariants.{Fresh};
ghost use Rattle.model.specs.World.{World};

use crate::ports::loop_ports;
use coordinator::{Resumed, Step, resume};
use disk::SectorDisk;
use model::Model as Simulated;
use std::alloc::Global;

/// Opens a session over 1 to 64 nodes behind bytes in memory, makes these steps, up to the first
/// that is refused, and returns the disk. Everything between the session and its nodes passes as
/// frames.
///
/// The disk must have been formatted for this model and this end, in ticks. An `Err` returns the
/// disk unchanged: the ports could not be allocated.
pub fn resume_behind_bytes<M: Simulated, D: SectorDisk + Drop>(
    alloc: Global,
    model: &M,
    nodes: u32,
    disk: D,
    end: u64,
    steps: &[Step],
) -> Result<Resumed<D>, D>
    requires possible { MayRun nodes end }

    // The headline for one session, whatever front was acknowledged last on the disk.
    ensures kept { IfOk result (λ left. let made = map move_of (take left.done steps.now)
        in (v : World) →
        IsResumed (M.meaning model.now) end nodes made v (D.state disk) (D.state left.disk)
        left.time) }
    ensures all { IfOk result (λ left. left.fault ≡ None →
        (left.done ≡ length steps.now) × IsSome left.time) }
    ensures refused { IfErr result (λ back. back ≡ disk) }

    // Why no session was opened; none of its steps were made then. If the disk represents a world,
    // it fails only for a lack of memory or of a working device, or because a frame would be too
    // long.
    ensures opening { IfOk result (λ left. left.time ≡ None → (left.done ≡ 0) × IfSome left.fault
        (OpeningIsRefused (M.meaning model.now) end (D.state disk).reads
        (replicate nodes (state_of (M.meaning model.now) Fresh))
        ((D.state disk).failures < (D.state left.disk).failures))) }
    ensures resources { (a : ℕ) → Recovers (M.meaning model.now) end a (D.state disk) →
        IfOk result (λ left. left.time ≡ None → IfSome left.fault (λ fault. IsResourceFaultAtOpening
        (replicate nodes (state_of (M.meaning model.now) Fresh)) fault
        ((D.state disk).failures < (D.state left.disk).failures))) }
{
    match loop_ports(alloc, model, nodes) {
        Ok(ports) => Ok(resume(alloc, model, ports, disk, end, steps)),
        Err(_) => Err(disk),
    }
}
