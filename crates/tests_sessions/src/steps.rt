// Thirteen steps of a ring of two tokens over three nodes, with a straggler, its rollback and an
// antimessage; and a checkpoint and a commit after them.

use coordinator::{Answer, Session, SessionFault, Step};
use disk::SectorDisk;
use eventkey::Listed;
use model::Model as Simulated;
use std::alloc::{AllocError, Global};
use wire::Port;

/// The steps, the first thirteen with their answers: `post NODE BUDGET PICK ..`, `take NODE`,
/// `commit` and `checkpoint`. The first commit is of time 3.
pub(crate) const STEPS: &str = "\
    post 0 1 => Posted { floor: 1 }\n\
    take 0 => Taken { ran: 1, out: 1, fossils: 0 }\n\
    post 1 1 => Posted { floor: 1 }\n\
    take 1 => Taken { ran: 1, out: 1, fossils: 0 }\n\
    post 1 1 0 => Posted { floor: 3 }\n\
    take 1 => Taken { ran: 1, out: 1, fossils: 1 }\n\
    post 2 1 1 => Posted { floor: 3 }\n\
    take 2 => Taken { ran: 1, out: 1, fossils: 0 }\n\
    post 2 2 0 => Posted { floor: 3 }\n\
    take 2 => Taken { ran: 2, out: 3, fossils: 0 }\n\
    post 0 0 1 0 => Posted { floor: 5 }\n\
    take 0 => Taken { ran: 0, out: 0, fossils: 1 }\n\
    commit => Committed { g: 3, events: 2 }\n\
    checkpoint\n\
    commit\n\
";

/// The next word as a number; a word that is none is one that no step takes.
fn number(word: Option<&str>) -> u32 {
    match word {
        Some(word) => word.parse().unwrap_or(u32::MAX),
        None => u32::MAX,
    }
}

/// The step of a row.
pub(crate) fn step_of(alloc: Global, row: &str) -> Result<Step, AllocError> {
    let mut words = row.split(' ');
    match words.next() {
        Some("post") => {
            let node = number(words.next());
            let budget = number(words.next());
            let mut picks = Vec::new(alloc);
            for word in words {
                if word == "=>" {
                    break;
                }
                picks.push(number(Some(word)))?;
            }
            let picks = Listed::from_vec(picks);
            Ok(Step::Post {
                node,
                picks,
                budget,
            })
        }
        Some("take") => Ok(Step::Take {
            node: number(words.next()),
        }),
        Some("commit") => Ok(Step::Commit),
        _ => Ok(Step::Checkpoint),
    }
}

/// The first `count` steps.
pub(crate) fn steps(alloc: Global, count: usize) -> Result<Vec<Step>, AllocError> {
    let mut steps = Vec::new(alloc);
    for row in STEPS.lines().take(count) {
        steps.push(step_of(alloc, row)?)?;
    }
    Ok(steps)
}

/// Makes a step. It has no contract, which keeps the proofs of the tests short.
pub(crate) fn stepped<M: Simulated, P: Port, D: SectorDisk>(
    session: &mut Session<'_, M, P, D>,
    step: &Step,
) -> Result<Answer, SessionFault> {
    session.step(step)
}
