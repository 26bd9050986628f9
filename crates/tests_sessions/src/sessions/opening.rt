use super::*;
use crate::disks::{disk_of, near};
use crate::steps::steps;
use commitlog::LogFault;
use coordinator::{Resumed, SessionFault, resume};
use disk::{DiskFault, DiskPlan, MemDisk, NotOpened, Torn};
use recovery::RecoveryFault;
use runs::local_ports;
use std::alloc::Global;
use std::test::Fail;

// Openings of sessions, and whole sessions.

/// A disk with this image, whose operation number `fail` fails, counted from 0.
pub(super) fn failing(alloc: Global, image: Vec<u8>, fail: Option<u64>) -> Result<MemDisk, Fail> {
    Ok(disk_of(alloc, image, DiskPlan { fail, stop: None })?)
}

/// Opens a disk whose first sync fails, which must be refused for that. Returns the disk.
pub(super) fn refused(alloc: Global, ring: &TokenRing, disk: MemDisk) -> Result<MemDisk, Fail> {
    match near(alloc, ring, disk) {
        Err(
            NotOpened {
                fault: SessionFault::Recovery(
                    RecoveryFault::Log(LogFault::Disk(DiskFault::Device)),
                ),
                disk,
            },
        ) => Ok(disk),
        _ => Err(Fail::from("the disk is not refused for its device")),
    }
}

#[test]
fn an_empty_log_opens_at_time_zero(rt: HostRuntime) -> Result<(), Fail> {
    let ring = two_tokens();
    let session = opened(rt.alloc(), &ring, formatted(rt.alloc(), &ring, 64, END)?)?;
    let front = session.front();
    assert_eq!(rt; front.time, 0);
    assert!(rt; front.log.is_empty() && front.numbers == [1, 1, 0].as_slice());
    assert!(rt; are(front.pending, &FIRST));
    assert!(rt; session.transit().is_empty());
    assert_eq!(rt; session.floor(), 1);
    Ok(())
}

#[test]
fn a_log_with_a_record_opens_at_its_time(rt: HostRuntime) -> Result<(), Fail> {
    let ring = two_tokens();
    let mut session = opened(rt.alloc(), &ring, formatted(rt.alloc(), &ring, 64, END)?)?;
    session.drive(steps(rt.alloc(), 13)?.as_slice())?;
    let again = opened(rt.alloc(), &ring, session.into_disk())?;
    assert!(rt; is_at_three(&again));
    assert!(rt; again.transit().is_empty());
    assert_eq!(rt; again.floor(), 3);
    Ok(())
}

#[test]
fn an_opening_whose_sync_fails_returns_the_disk(rt: HostRuntime) -> Result<(), Fail> {
    let ring = two_tokens();
    let image = formatted(rt.alloc(), &ring, 64, END)?.crash(rt.alloc(), Torn::Old)?;
    let disk = refused(rt.alloc(), &ring, failing(rt.alloc(), image, Some(0))?)?;
    assert_eq!(rt; opened(rt.alloc(), &ring, disk)?.front().time, 0);
    Ok(())
}

/// Makes the thirteen steps on a disk, which must end at time 3. Returns the disk, the number of
/// steps made, and why they ended.
fn resumed(
    alloc: Global,
    ring: &TokenRing,
    disk: MemDisk,
) -> Result<(MemDisk, u64, Option<SessionFault>), Fail> {
    let steps = steps(alloc, 13)?;
    let ports = local_ports(alloc, ring, 3)?;
    match resume(alloc, ring, ports, disk, END, steps.as_slice()) {
        Resumed {
            disk,
            time: Some(3),
            done,
            fault,
        } => Ok((disk, done, fault)),
        _ => Err(Fail::from("the steps do not end at time 3")),
    }
}

#[test]
fn a_second_session_goes_on_from_the_first(rt: HostRuntime) -> Result<(), Fail> {
    let ring = two_tokens();
    let disk = formatted(rt.alloc(), &ring, 64, END)?;
    let (disk, done, fault) = resumed(rt.alloc(), &ring, disk)?;
    assert!(rt; done == 13 && fault.is_none());
    // A second session goes on from there; its fourth step picks a message that is no longer in
    // transit.
    let (disk, done, fault) = resumed(rt.alloc(), &ring, disk)?;
    assert!(rt; done == 4 && fault == Some(SessionFault::NoSuchPick));
    assert!(rt; is_at_three(&opened(rt.alloc(), &ring, disk)?));
    Ok(())
}
