// Openings with one allocation refused. The disk that they return must open.

use crate::disks::{END, Near, TEARINGS, formatted, near, ring};
use crate::refusals::crashed;
use crate::refusals::plain_runner::is_plain;
use crate::refusals::running::ran;
use commitlog::LogFault;
use coordinator::{Session, SessionFault};
use disk::{MemDisk, NotOpened};
use loopback::{LoopPort, loop_ports};
use model::Model as Simulated;
use node::NodeFault;
use recovery::RecoveryFault;
use std::alloc::Global;
use std::process::Abort;
use std::test::Fail;
use wire::{Port, PortFault, WireFault};

/// A session over nodes behind bytes.
pub type Far<'m, M> = Session<'m, M, LoopPort<'m, M>, MemDisk>;

/// Whether a fault is an allocation failure, of any layer.
pub fn is_of_memory(fault: &SessionFault) -> bool {
    matches!(
        fault,
        SessionFault::NoMemory
            | SessionFault::Port(PortFault::Wire(WireFault::NoMemory))
            | SessionFault::Port(PortFault::Peer(NodeFault::NoMemory))
            | SessionFault::Recovery(RecoveryFault::Log(LogFault::NoMemory))
    )
}

/// Opens a disk over three nodes behind bytes.
fn far<M: Simulated>(
    alloc: Global,
    model: &M,
    disk: MemDisk,
) -> Result<Far<'_, M>, NotOpened<MemDisk, SessionFault>> {
    match loop_ports(alloc, model, 3) {
        Ok(ports) => Session::open(alloc, model, ports, disk, END),
        Err(_refused) => Err(NotOpened {
            fault: SessionFault::NoMemory,
            disk,
        }),
    }
}

/// Opens a disk over local nodes; after an allocation failure, opens the returned one.
fn near_again<'m, M: Simulated>(
    rt: &impl Abort,
    alloc: Global,
    model: &'m M,
    disk: MemDisk,
) -> Result<Near<'m, M>, Fail> {
    let NotOpened { fault, disk } = match near(alloc, model, disk) {
        Ok(session) => return Ok(session),
        Err(refused) => refused,
    };
    assert!(rt; is_of_memory(&fault), "{fault}");
    match near(alloc, model, disk) {
        Ok(session) => Ok(session),
        Err(_again) => Err(Fail::from("the disk that was handed back is not opened")),
    }
}

/// Checks that each crash of a disk leaves the world of the plain runner at some time not below
/// `outcome`.
pub fn look_at_crashes<M: Simulated>(
    rt: &impl Abort,
    alloc: Global,
    model: &M,
    disk: &MemDisk,
    outcome: u64,
) -> Result<(), Fail> {
    for torn in TEARINGS {
        let left = crashed(alloc, disk, torn)?;
        let session = near_again(rt, alloc, model, left)?;
        assert!(rt; session.front().time >= outcome, "{torn:?}");
        assert!(rt; is_plain(alloc, model, session.front())?, "{torn:?}");
    }
    Ok(())
}

/// Opens a disk over local nodes. After an allocation failure the disk must still be good.
pub fn opened_near<'m, M: Simulated>(
    rt: &impl Abort,
    alloc: Global,
    model: &'m M,
    disk: MemDisk,
    outcome: u64,
) -> Result<Near<'m, M>, Fail> {
    let NotOpened { fault, disk } = match near(alloc, model, disk) {
        Ok(session) => return Ok(session),
        Err(refused) => refused,
    };
    assert!(rt; is_of_memory(&fault), "{fault}");
    look_at_crashes(rt, alloc, model, &disk, outcome)?;
    near_again(rt, alloc, model, disk)
}

/// Opens a disk over nodes behind bytes, in the same way.
pub fn opened_far<'m, M: Simulated>(
    rt: &impl Abort,
    alloc: Global,
    model: &'m M,
    disk: MemDisk,
    outcome: u64,
) -> Result<Far<'m, M>, Fail> {
    let NotOpened { fault, disk } = match far(alloc, model, disk) {
        Ok(session) => return Ok(session),
        Err(refused) => refused,
    };
    assert!(rt; is_of_memory(&fault), "{fault}");
    look_at_crashes(rt, alloc, model, &disk, outcome)?;
    match far(alloc, model, disk) {
        Ok(session) => Ok(session),
        Err(_again) => Err(Fail::from("the disk that was handed back is not opened")),
    }
}

/// Checks that a session opened at this time, and that its disk represents its front.
fn look_at_opening<M: Simulated, P: Port + Drop>(
    rt: &impl Abort,
    alloc: Global,
    model: &M,
    session: Session<'_, M, P, MemDisk>,
    time: u64,
) -> Result<(), Fail> {
    assert_eq!(rt; session.front().time, time);
    assert!(rt; is_plain(alloc, model, session.front())?);
    look_at_crashes(rt, alloc, model, &session.into_disk(), time)
}

/// Opens a disk over both kinds of nodes, and checks that it represents the world of this time.
fn look_at_disk<M: Simulated>(
    rt: &impl Abort,
    alloc: Global,
    model: &M,
    disk: MemDisk,
    time: u64,
) -> Result<(), Fail> {
    let copy = crashed(alloc, &disk, TEARINGS[0])?;
    let session = opened_near(rt, alloc, model, disk, time)?;
    look_at_opening(rt, alloc, model, session, time)?;
    let session = opened_far(rt, alloc, model, copy, time)?;
    look_at_opening(rt, alloc, model, session, time)
}

#[test]
fn an_empty_log_opens_after_a_refusal(rt: HostRuntime) -> Result<(), Fail> {
    let disk = formatted(rt.alloc(), &ring(), 64, END)?;
    look_at_disk(&rt, rt.alloc(), &ring(), disk, 0)
}

#[test]
fn a_whole_log_opens_after_a_refusal(rt: HostRuntime) -> Result<(), Fail> {
    let disk = ran(&rt, rt.alloc(), 64, 0)?;
    look_at_disk(&rt, rt.alloc(), &ring(), disk, END)
}

#[test]
fn a_log_with_a_checkpoint_opens_after_a_refusal(rt: HostRuntime) -> Result<(), Fail> {
    let disk = ran(&rt, rt.alloc(), 11, 3)?;
    look_at_disk(&rt, rt.alloc(), &ring(), disk, END)
}
