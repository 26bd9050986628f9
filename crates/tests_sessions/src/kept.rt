// Runs with checkpoints and with adjusting budgets, on disks in memory.

ghost use Rattle.std.specs.Prelude.{◌<◌, ◌≤◌};
ghost use Rattle.node.specs.Node.{most_nodes};

use crate::disks::{phold, plan, reached};
use recovery::Front;
use runs::{Batch, Plan, Schedule};
use std::alloc::Global;
use std::test::Fail;

/// Whether a run of the PHOLD to 200 ticks reaches this front.
fn reaches(alloc: Global, plan: Plan, front: &Front) -> Result<bool, Fail>
    requires some { 0 < plan.nodes }
    requires few { plan.nodes ≤ most_nodes }
{
    Ok(reached(alloc, &phold(), 16_384, 200, plan)?.is_same(front))
}

/// Whether runs with checkpoints reach this front by each schedule.
fn keeps(alloc: Global, nodes: u32, batch: u32, front: &Front) -> Result<bool, Fail> {
    for (schedule, commit_every) in [
        (Schedule::InTurn, 0),
        (Schedule::Together, 0),
        (Schedule::Overlapped, 0),
        (Schedule::Overlapped, 100),
    ] {
        let keeping = Plan {
            schedule,
            commit_every,
            seals: batch == 7,
            ..plan(nodes, batch, 1)
        };
        if !reaches(alloc, keeping, front)? {
            return Ok(false);
        }
    }
    Ok(true)
}

#[test]
fn a_run_with_checkpoints_reaches_the_same_front(rt: HostRuntime) -> Result<(), Fail> {
    for (nodes, batch) in [(1, 1), (1, 7), (2, 1), (2, 7), (5, 1), (5, 7)] {
        let plain = reached(rt.alloc(), &phold(), 16_384, 200, plan(nodes, batch, 0))?;
        assert!(rt; plain.g == 200 && plain.log.as_slice().len() == 562);
        assert!(rt;
            keeps(rt.alloc(), nodes, batch, &plain)?,
            "{nodes} nodes, batch {batch}"
        );
    }
    Ok(())
}

#[test]
fn a_run_with_adjusting_budgets_reaches_the_same_front(rt: HostRuntime) -> Result<(), Fail> {
    let plain = reached(rt.alloc(), &phold(), 16_384, 200, plan(1, 16, 0))?;
    for (schedule, nodes, most, rounds_are_cheap, commit_every, every) in [
        (Schedule::InTurn, 1, 65_536, false, 0, 0),
        (Schedule::InTurn, 1, 0, true, 0, 0),
        (Schedule::InTurn, 2, 8, true, 100, 0),
        (Schedule::InTurn, 5, u32::MAX, true, 400_000, 0),
        (Schedule::InTurn, 5, 128, false, 100, 2),
        (Schedule::Overlapped, 5, 128, true, 100, 2),
        (Schedule::Overlapped, 5, 65_536, false, 0, 0),
    ] {
        let adjusting = Plan {
            schedule,
            batch: Batch::Adjusting {
                most,
                rounds_are_cheap,
            },
            commit_every,
            ..plan(nodes, 16, every)
        };
        assert!(rt;
            reaches(rt.alloc(), adjusting, &plain)?,
            "{nodes} nodes, commits {commit_every}"
        );
    }
    Ok(())
}
