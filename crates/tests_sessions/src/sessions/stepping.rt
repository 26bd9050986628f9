use super::*;
use crate::sessions::opening::{failing, refused};
use crate::steps::{STEPS, step_of, stepped, steps};
use coordinator::{Answer, SessionFault, Step};
use disk::{MemDisk, Torn};
use eventkey::Sign::{self, Minus, Plus};
use std::alloc::Global;
use std::test::Fail;

// Sessions that are driven step by step.

/// The messages of the steps.
const MESSAGES: [(Sign, [u64; 8]); 7] = [
    (Plus, [3, 0, 1, 1, 0, 1, 0, 0]),
    (Plus, [3, 1, 1, 2, 1, 1, 0, 0]),
    (Plus, [5, 1, 2, 2, 0, 2, 0, 0]),
    (Plus, [7, 2, 0, 0, 0, 3, 0, 0]),
    (Minus, [7, 2, 0, 0, 0, 3, 0, 0]),
    (Plus, [5, 2, 0, 0, 1, 2, 0, 0]),
    (Plus, [7, 2, 1, 0, 0, 3, 0, 0]),
];

/// The places in `MESSAGES` of those in transit after each step.
const TRANSIT: [&[usize]; 13] = [
    &[],
    &[0],
    &[0],
    &[0, 1],
    &[1],
    &[1, 2],
    &[1],
    &[1, 3],
    &[3],
    &[3, 4, 5, 6],
    &[5, 6],
    &[5, 6],
    &[5, 6],
];

/// Whether exactly these messages are in transit.
fn travels(session: &Near<'_, TokenRing>, places: &[usize]) -> bool {
    let transit = session.transit();
    if transit.len() != places.len() {
        return false;
    }
    for (signed, place) in transit.iter().zip(places) {
        let found = (signed.sign, fields(&signed.message));
        if MESSAGES.get(*place) != Some(&found) {
            return false;
        }
    }
    true
}

/// Makes the step of a row. Returns whether its answer is that of the row, and these messages are in
/// transit then.
fn is_made_as_written(
    alloc: Global,
    session: &mut Near<'_, TokenRing>,
    row: &str,
    transit: &[usize],
) -> Result<bool, Fail> {
    let step = step_of(alloc, row)?;
    let answer = stepped(session, &step)?;
    let shown = format!(in alloc; "{answer:?}")?;
    Ok(
        matches!(row.split_once(" => "), Some((_, text)) if text == shown.as_str())
            && travels(session, transit),
    )
}

#[test]
fn thirteen_steps_answer_as_in_the_table(rt: HostRuntime) -> Result<(), Fail> {
    let ring = two_tokens();
    let mut session = opened(rt.alloc(), &ring, formatted(rt.alloc(), &ring, 64, END)?)?;
    for (row, transit) in STEPS.lines().zip(TRANSIT.iter()) {
        assert!(rt;
            is_made_as_written(rt.alloc(), &mut session, row, transit)?,
            "{row}"
        );
    }
    assert!(rt; is_at_three(&session));
    Ok(())
}

#[test]
fn thirteen_steps_are_driven_as_in_the_table(rt: HostRuntime) -> Result<(), Fail> {
    let ring = two_tokens();
    let mut session = opened(rt.alloc(), &ring, formatted(rt.alloc(), &ring, 64, END)?)?;
    let done = session.drive(steps(rt.alloc(), 13)?.as_slice());
    assert!(rt; matches!(done, Ok(13)));
    assert!(rt; is_at_three(&session) && travels(&session, TRANSIT[12]));
    Ok(())
}

#[test]
fn a_post_to_a_busy_node_is_refused(rt: HostRuntime) -> Result<(), Fail> {
    let ring = two_tokens();
    let mut session = opened(rt.alloc(), &ring, formatted(rt.alloc(), &ring, 64, END)?)?;
    let post = step_of(rt.alloc(), "post 0 1")?;
    stepped(&mut session, &post)?;
    let again = stepped(&mut session, &post);
    assert!(rt; again == Err(SessionFault::Busy));
    assert!(rt; travels(&session, &[]));
    let answered = stepped(&mut session, &Step::Take { node: 0 })?;
    assert!(rt;
        answered
            == Answer::Taken {
                ran: 1,
                out: 1,
                fossils: 0
            }
    );
    Ok(())
}

/// Commits on a disk whose last sync of the commit fails, which must spend the session. Returns the
/// disk.
fn spent(alloc: Global, ring: &TokenRing) -> Result<MemDisk, Fail> {
    let image = formatted(alloc, ring, 64, END)?.crash(alloc, Torn::Old)?;
    // The opening syncs and reads three sectors. The commit writes a data sector and the next gate,
    // syncs, opens its gate, and syncs.
    let mut session = opened(alloc, ring, failing(alloc, image, Some(8))?)?;
    session.drive(steps(alloc, 12)?.as_slice())?;
    let committed = stepped(&mut session, &Step::Commit);
    let again = stepped(&mut session, &Step::Commit);
    if committed != Err(SessionFault::Disk)
        || again != Err(SessionFault::Spent)
        || session.front().time != 0
    {
        return Err(Fail::from("the session is not spent"));
    }
    Ok(session.into_disk())
}

#[test]
fn a_failed_last_sync_of_a_commit_spends_the_session(rt: HostRuntime) -> Result<(), Fail> {
    let ring = two_tokens();
    let disk = spent(rt.alloc(), &ring)?;
    let written = disk.crash(rt.alloc(), Torn::New)?;
    // Opening the disk again syncs it, and later crashes keep the record.
    let session = opened(rt.alloc(), &ring, disk)?;
    assert!(rt; is_at_three(&session));
    let image = session.into_disk().crash(rt.alloc(), Torn::Old)?;
    let kept = opened(rt.alloc(), &ring, failing(rt.alloc(), image, None)?)?;
    assert!(rt; is_at_three(&kept));
    // An opening is refused whose sync fails.
    let _disk = refused(rt.alloc(), &ring, failing(rt.alloc(), written, Some(0))?)?;
    Ok(())
}
