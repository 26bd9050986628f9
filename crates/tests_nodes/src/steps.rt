// The steps of a session of three nodes: a straggler, its rollback, an antimessage, and a commit;
// and steps that are refused on the way.

use coordinator::Step;
use eventkey::Listed;
use std::alloc::{AllocError, Global};

/// Steps that all succeed: a post to this node with this budget and these picks, the reply of this
/// node, or a commit.
pub const MADE: &str = "\
    post 0 1\n\
    take 0\n\
    post 1 1\n\
    take 1\n\
    post 1 1 0\n\
    take 1\n\
    post 2 1 1\n\
    take 2\n\
    post 2 2 0\n\
    take 2\n\
    post 0 0 1 0\n\
    take 0\n\
    commit\n\
";

/// Steps, some of which are refused: no such node, nothing to take, no such pick, a pick for
/// another node, the same pick twice, a busy node.
pub const MIXED: &str = "\
    post 3 1\n\
    take 3\n\
    take 0\n\
    commit\n\
    post 0 1 0\n\
    post 0 1\n\
    post 0 1\n\
    commit\n\
    take 0\n\
    take 0\n\
    post 2 1 0\n\
    post 1 1 0 0\n\
    post 1 4 0\n\
    take 1\n\
    post 2 1 0 1 2 3 4\n\
    commit\n\
";

/// The numbers of a text, each of one digit.
fn numbers_of(alloc: Global, text: &str) -> Result<Vec<u32>, AllocError> {
    let mut numbers = Vec::new(alloc);
    for digit in text.as_bytes() {
        match *digit {
            b'0'..=b'9' => numbers.push(u32::from(*digit - b'0'))?,
            _ => continue,
        }
    }
    Ok(numbers)
}

/// The step of a row: a commit has no number, a take one, and a post two and its picks.
fn step_of(alloc: Global, row: &str) -> Result<Step, AllocError> {
    let numbers = numbers_of(alloc, row)?;
    let Some((node, rest)) = numbers.as_slice().split_first() else {
        return Ok(Step::Commit);
    };
    let Some((budget, picks)) = rest.split_first() else {
        return Ok(Step::Take { node: *node });
    };
    Ok(Step::Post {
        node: *node,
        picks: Listed::from_vec(picks.to_vec(alloc)?),
        budget: *budget,
    })
}

pub fn steps_of(alloc: Global, rows: &str) -> Result<Vec<Step>, AllocError> {
    let mut steps = Vec::new(alloc);
    for row in rows.lines() {
        steps.push(step_of(alloc, row)?)?;
    }
    Ok(steps)
}

/// The same steps, with judged commits.
pub fn judged_steps_of(alloc: Global, rows: &str) -> Result<Vec<Step>, AllocError> {
    let mut steps = steps_of(alloc, rows)?;
    for step in steps.as_mut_slice() {
        judge(step);
    }
    Ok(steps)
}

fn judge(step: &mut Step) {
    if let Step::Commit = step {
        *step = Step::JudgedCommit;
    }
}
