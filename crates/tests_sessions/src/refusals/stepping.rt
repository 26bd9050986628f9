// The steps of a session of three nodes, with one allocation refused: a straggler, its rollback, an
// antimessage, a commit, and a checkpoint.

use crate::disks::{END, Near, formatted, two_tokens};
use crate::refusals::openings::{Far, is_of_memory, look_at_crashes, opened_far, opened_near};
use crate::refusals::plain_runner::is_plain;
use crate::steps::{stepped, steps};
use coordinator::{DriveFault, Session, SessionFault, Step};
use disk::{MemDisk, SectorDisk};
use model::Model as Simulated;
use models::TokenRing;
use std::alloc::{AllocError, Global};
use std::process::Abort;
use std::test::Fail;
use wire::Port;

/// All steps; built a second time after an allocation failure.
fn all_steps(alloc: Global) -> Result<Vec<Step>, AllocError> {
    match steps(alloc, 15) {
        Err(AllocError) => steps(alloc, 15),
        steps => steps,
    }
}

/// The call that makes the steps of a session.
#[derive(Clone, Copy)]
enum By {
    Step,
    Drive,
}

/// Makes these steps one at a time, with the result of `drive`.
fn each_stepped<M: Simulated, P: Port, D: SectorDisk>(
    session: &mut Session<'_, M, P, D>,
    steps: &[Step],
) -> Result<u64, DriveFault> {
    for (place, step) in steps.iter().enumerate() {
        if let Err(fault) = stepped(session, step) {
            return Err(DriveFault {
                done: place as u64,
                fault,
            });
        }
    }
    Ok(steps.len() as u64)
}

fn led<M: Simulated, P: Port, D: SectorDisk>(
    session: &mut Session<'_, M, P, D>,
    steps: &[Step],
    by: By,
) -> Result<u64, DriveFault> {
    match by {
        By::Step => each_stepped(session, steps),
        By::Drive => session.drive(steps),
    }
}

/// Checks a session that met an allocation failure: it answers Spent to each step.
fn look_at_spent<M: Simulated, P: Port, D: SectorDisk>(
    rt: &impl Abort,
    session: &mut Session<'_, M, P, D>,
    steps: &[Step],
    fault: SessionFault,
) -> Result<(), Fail> {
    assert!(rt; is_of_memory(&fault), "{fault}");
    for step in steps {
        assert!(rt; stepped(session, step) == Err(SessionFault::Spent));
    }
    assert!(rt;
        led(session, steps, By::Drive)
            == Err(DriveFault {
                done: 0,
                fault: SessionFault::Spent
            })
    );
    Ok(())
}

/// Makes all steps of a session. Checks its front then, and what each crash leaves.
fn look_at_steps<M: Simulated, P: Port + Drop>(
    rt: &impl Abort,
    alloc: Global,
    model: &M,
    session: Session<'_, M, P, MemDisk>,
    by: By,
) -> Result<(), Fail> {
    let mut session = session;
    let steps = all_steps(alloc)?;
    let made = match led(&mut session, steps.as_slice(), by) {
        Ok(made) => made,
        Err(DriveFault { done, fault }) => {
            look_at_spent(rt, &mut session, steps.as_slice(), fault)?;
            done
        }
    };
    let outcome = if made > 12 { 3 } else { 0 };
    assert!(rt; session.front().time == outcome, "after {made} steps");
    assert!(rt;
        is_plain(alloc, model, session.front())?,
        "after {made} steps"
    );
    look_at_crashes(rt, alloc, model, &session.into_disk(), outcome)
}

fn look_at_near(rt: &impl Abort, alloc: Global, by: By) -> Result<(), Fail> {
    let ring = two_tokens();
    let disk = formatted(alloc, &ring, 64, END)?;
    let session: Near<'_, TokenRing> = opened_near(rt, alloc, &ring, disk, 0)?;
    look_at_steps(rt, alloc, &ring, session, by)
}

fn look_at_far(rt: &impl Abort, alloc: Global, by: By) -> Result<(), Fail> {
    let ring = two_tokens();
    let disk = formatted(alloc, &ring, 64, END)?;
    let session: Far<'_, TokenRing> = opened_far(rt, alloc, &ring, disk, 0)?;
    look_at_steps(rt, alloc, &ring, session, by)
}

#[test]
fn a_refused_step_spends_its_session(rt: HostRuntime) -> Result<(), Fail> {
    look_at_near(&rt, rt.alloc(), By::Step)
}

#[test]
fn a_refused_drive_spends_its_session(rt: HostRuntime) -> Result<(), Fail> {
    look_at_near(&rt, rt.alloc(), By::Drive)
}

#[test]
fn a_refused_step_spends_its_session_behind_bytes(rt: HostRuntime) -> Result<(), Fail> {
    look_at_far(&rt, rt.alloc(), By::Step)
}

#[test]
fn a_refused_drive_spends_its_session_behind_bytes(rt: HostRuntime) -> Result<(), Fail> {
    look_at_far(&rt, rt.alloc(), By::Drive)
}
