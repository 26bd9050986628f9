// Whole sessions, as calls of a history of the headline.

ghost use Rattle.std.specs.Prelude.{◌≡◌, ◌<◌, ℕ, IfSome, IsSome, None, Some, length, map};
ghost use Rattle.std.specs.Prelude.{take};
ghost use Rattle.coordinator.specs.Headline.{IsResumed, JudgedSessionsGoOn, RecordsStay};
ghost use Rattle.coordinator.specs.Headline.{SessionsGoOn};
ghost use Rattle.recovery.specs.OldRecords.{KeepsOldRecords};
ghost use Rattle.recovery.specs.Represents.{Recovers};
ghost use Rattle.coordinator.specs.Opening.{AllFaithful, IsResourceFaultAtOpening, MayOpen};
ghost use Rattle.coordinator.specs.Opening.{OpeningIsRefused};
ghost use Rattle.coordinator.specs.PortFaults.{LocalSessionsHaveNoFrames};
ghost use Rattle.coordinator.specs.Steps.{move_of};
ghost use Rattle.model.specs.World.{World};

use crate::{DriveFault, Session, SessionFault, Step};
use disk::{NotOpened, SectorDisk};
use model::Model as Simulated;
use std::alloc::Global;
use wire::Port;

/// What a whole session returns.
#[derive(Drop)]
pub struct Resumed<D: SectorDisk> {
    /// The disk, which can be opened again.
    pub disk: D,
    /// The virtual time before which everything is committed, in ticks; `None` if no session was
    /// opened.
    pub time: Option<u64>,
    /// The number of steps made.
    pub done: u64,
    /// Why the next step failed, or why no session was opened; `None` if all steps were made.
    pub fault: Option<SessionFault>,
}

/// Opens a session on a disk, makes these steps, up to the first that is refused, and returns the
/// disk.
///
/// The disk must have been formatted for this model and this end, in ticks. There must be 1 to 64
/// ports, through which nothing has been loaded yet; their number may differ from call to call.
/// Costs what [`Session::open`] and the steps cost.
pub fn resume<M: Simulated, P: Port + Drop, D: SectorDisk>(
    alloc: Global,
    model: &M,
    ports: Vec<P>,
    disk: D,
    end: u64,
    steps: &[Step],
) -> Resumed<D>
    requires possible { MayOpen P.state ports.items end }

    // The headline for one session, whatever front was acknowledged last on the disk.
    ensures kept { let made = map move_of (take result.done steps.now) in
        AllFaithful (M.meaning model.now) (map P.state ports.items) → (v : World) →
        IsResumed (M.meaning model.now) end (length ports.items) made v
        (D.state disk) (D.state result.disk) result.time }

    // Over any ports, and whatever nodes report, the records that were on the disk stay.
    ensures old_records { KeepsOldRecords (D.state disk) (D.state result.disk) }

    ensures all { result.fault ≡ None → (result.done ≡ length steps.now) × IsSome result.time }
    ensures refused { result.time ≡ None → (result.done ≡ 0) × IfSome result.fault (λ fault.
        OpeningIsRefused (M.meaning model.now) end (D.state disk).reads (map P.state ports.items)
        ((D.state disk).failures < (D.state result.disk).failures) fault) }
    ensures resources { (a : ℕ) → Recovers (M.meaning model.now) end a (D.state disk) →
        AllFaithful (M.meaning model.now) (map P.state ports.items) → result.time ≡ None →
        IfSome result.fault (λ fault. IsResourceFaultAtOpening
        (map P.state ports.items) fault
        ((D.state disk).failures < (D.state result.disk).failures)) }
{
    let mut session = match Session::open(alloc, model, ports, disk, end) {
        Ok(session) => session,
        Err(NotOpened { fault, disk }) => {
            return Resumed {
                disk,
                time: None,
                done: 0,
                fault: Some(fault),
            };
        }
    };
    match session.drive(steps) {
        Ok(done) => left(session, done, None),
        Err(DriveFault { done, fault }) => left(session, done, Some(fault)),
    }
}

/// Returns what a session leaves after `done` steps and then this fault, if any.
fn left<M: Simulated, P: Port + Drop, D: SectorDisk>(
    session: Session<'_, M, P, D>,
    done: u64,
    fault: Option<SessionFault>,
) -> Resumed<D>
    ensures { result ≡ record {
      disk = session.entry.log.disk;
      time = Some session.entry.front.time;
      done = done;
      fault = fault;
    } }
{
    let time = session.front().time;
    Resumed {
        disk: session.into_disk(),
        time: Some(time),
        done,
        fault,
    }
}

/// Any number of drives of one session over faithful ports, whatever faults they return, are one
/// call of a history of the headline ([`recovery::headline`]): from the disk on which the session
/// was opened to the disk that it leaves.
///
/// The function has no effect. Its contract is the law that follows from the contracts of
/// [`Session::open`] and [`Session::drive`]; a step is a list of one.
pub fn law_of_sessions<M: Simulated, P: Port, D: SectorDisk>()
    ensures { SessionsGoOn M.meaning P.state D.state }
{}

/// The same over any ports, whatever the nodes answer, if no step of the drives is a plain commit:
/// commits that are judged trust no node.
///
/// The function has no effect. Its contract is the law that follows from the contracts of
/// [`Session::open`] and [`Session::drive`].
pub fn law_of_judged_sessions<M: Simulated, P: Port, D: SectorDisk>()
    ensures { JudgedSessionsGoOn M.meaning P.state D.state }
{}

/// Any number of drives of one session keep the records that were on the disk on which it was
/// opened, over any ports, whatever the nodes answer, and whatever faults the drives return.
///
/// The function has no effect. Its contract is the law that follows from the contracts of
/// [`Session::open`] and [`Session::drive`].
pub fn law_of_records<M: Simulated, P: Port, D: SectorDisk>()
    ensures { RecordsStay M.meaning P.state D.state }
{}

/// In a session over nodes in this program (`LocalPort`) a fault of a port is that of a node: its
/// memory is exhausted, or a handling would pass the number limit. No fault is that of a frame.
///
/// The function has no effect. Its contract is the law that follows from the contracts of
/// [`Session::open`] and [`Session::step`].
pub fn law_of_local_sessions<M: Simulated, D: SectorDisk>()
    ensures { LocalSessionsHaveNoFrames D M.meaning D.state }
{}
