// Compares a session over nodes behind bytes with one over local nodes.

use crate::opened::{opened, ring};
use crate::steps::{MADE, MIXED, steps_of};
use coordinator::{DriveFault, FrontView, Session, Step};
use disk::{MemDisk, SectorDisk};
use loopback::{LoopPort, loop_ports};
use model::Model as Simulated;
use models::TokenRing;
use runs::local_ports;
use std::alloc::Global;
use std::test::Fail;
use wire::{LocalPort, Port};

/// A session over three nodes behind bytes.
fn behind_bytes(
    alloc: Global,
    ring: &TokenRing,
) -> Result<Session<'_, TokenRing, LoopPort<'_, TokenRing>, MemDisk>, Fail> {
    opened(alloc, ring, loop_ports(alloc, ring, 3)?)
}

/// A session over three local nodes.
fn in_program(
    alloc: Global,
    ring: &TokenRing,
) -> Result<Session<'_, TokenRing, LocalPort<'_, TokenRing>, MemDisk>, Fail> {
    opened(alloc, ring, local_ports(alloc, ring, 3)?)
}

/// Whether two fronts are the same.
fn are_same(one: &FrontView<'_>, other: &FrontView<'_>) -> bool {
    one.time == other.time
        && one.numbers == other.numbers
        && one.pending == other.pending
        && one.log == other.log
        && one.states == other.states
}

/// Whether two sessions have equal fronts, messages in transit, and floors.
fn are_alike<M: Simulated, P: Port, Q: Port, D: SectorDisk>(
    one: &Session<'_, M, P, D>,
    other: &Session<'_, M, Q, D>,
) -> bool {
    are_same(&one.front(), &other.front())
        && one.transit() == other.transit()
        && one.floor() == other.floor()
}

/// Whether two sessions give the same answer to each of these steps and have the same state after it.
fn step_alike<M: Simulated, P: Port, Q: Port, D: SectorDisk>(
    one: &mut Session<'_, M, P, D>,
    other: &mut Session<'_, M, Q, D>,
    steps: &[Step],
) -> bool {
    let mut is_alike = true;
    for step in steps {
        let is_same = one.step(step) == other.step(step);
        is_alike = is_alike && is_same && are_alike(one, other);
    }
    is_alike
}

fn driven<M: Simulated, P: Port, D: SectorDisk>(
    session: &mut Session<'_, M, P, D>,
    steps: &[Step],
) -> Result<u64, DriveFault> {
    session.drive(steps)
}

/// Whether two sessions get through as many of these steps, and have the same state after them.
fn drive_alike<M: Simulated, P: Port, Q: Port, D: SectorDisk>(
    one: &mut Session<'_, M, P, D>,
    other: &mut Session<'_, M, Q, D>,
    steps: &[Step],
) -> bool {
    driven(one, steps) == driven(other, steps) && are_alike(one, other)
}

/// Whether a session over nodes behind bytes and one over local nodes do the same, in these steps one
/// by one or driven through them.
fn do_alike(alloc: Global, steps: &[Step], is_driven: bool) -> Result<bool, Fail> {
    let ring = ring();
    let mut far = behind_bytes(alloc, &ring)?;
    let mut near = in_program(alloc, &ring)?;
    Ok(if is_driven {
        drive_alike(&mut far, &mut near, steps)
    } else {
        step_alike(&mut far, &mut near, steps)
    })
}

#[test]
fn steps_get_the_same_answers_behind_bytes(rt: HostRuntime) -> Result<(), Fail> {
    for rows in [MADE, MIXED] {
        let steps = steps_of(rt.alloc(), rows)?;
        assert!(rt; do_alike(rt.alloc(), steps.as_slice(), false)?);
    }
    Ok(())
}

#[test]
fn drives_get_the_same_results_behind_bytes(rt: HostRuntime) -> Result<(), Fail> {
    let made = steps_of(rt.alloc(), MADE)?;
    for count in 0..made.len() {
        let steps = made.as_slice().split_at(count).0;
        assert!(rt; do_alike(rt.alloc(), steps, true)?, "{count}");
    }
    let mixed = steps_of(rt.alloc(), MIXED)?;
    for count in 0..mixed.len() {
        let steps = mixed.as_slice().split_at(count).1;
        assert!(rt; do_alike(rt.alloc(), steps, true)?, "{count}");
    }
    Ok(())
}

/// The front after all the steps.
#[test]
fn the_steps_commit_up_to_time_three(rt: HostRuntime) -> Result<(), Fail> {
    let ring = ring();
    let mut session = behind_bytes(rt.alloc(), &ring)?;
    let steps = steps_of(rt.alloc(), MADE)?;
    assert_eq!(rt; driven(&mut session, steps.as_slice()), Ok(13));
    let front = session.front();
    assert_eq!(rt; (front.time, front.log.len(), session.floor()), (3, 2, 5));
    assert!(rt; front.numbers == [2, 2, 0].as_slice());
    Ok(())
}
