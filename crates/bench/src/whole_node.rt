// One node that runs all processes of a model, parcel by parcel. `benchmarks/node` times this.

ghost use Rattle.std.specs.Prelude.{◌≡◌, ◌<◌, ◌≤◌, ◌^◌, IfOk};
ghost use Rattle.node.specs.Handling.{IsInRange};

use crate::failure::Failure;
use crate::plain::read;
use eventkey::{Listed, Sign, Signed};
use model::{Model as Simulated, State};
use models::AnyModel;
use node::{Load, Node, NodeFault, Parcel, Part, Reply};
use std::alloc::{AllocError, Global};

/// The result of a run.
#[derive(Drop)]
struct Outcome {
    /// The number of handlings that the node released.
    committed: u64,
    /// The number of messages that it handled, including those that it rolled back.
    ran: u64,
}

/// Runs the model of a model file, and prints the result.
pub fn run(rt: &HostRuntime, path: &str, budget: u32) -> Result<(), Failure> {
    let (model, end) = match read::<AnyModel>(rt, path) {
        Ok(file) => file,
        Err(failure) => return Err(failure),
    };
    let run = outcome_of(rt.alloc(), &model, end, budget);
    let Outcome { committed, ran } = run.map_err(Failure::Node)?;
    println!(rt; "committed {committed} ran {ran}").map_err(Failure::Output)
}

/// Runs a model to its end, in ticks, on one node, with this budget for each parcel. Each parcel
/// delivers what the one before it sent, and its floor is the least time of all that waited or
/// travelled then.
fn outcome_of<M: Simulated>(
    alloc: Global,
    model: &M,
    end: u64,
    budget: u32,
) -> Result<Outcome, NodeFault>
    requires { end ≤ 2 ^ 40 }
{
    let mut node = loaded(alloc, model, end)?;
    let mut deliver = Listed::from_vec(opening(alloc, model)?);
    let mut floor = 0;
    let mut outcome = Outcome {
        committed: 0,
        ran: 0,
    };
    for _ in 0..u64::MAX {
        let parcel = Parcel {
            deliver,
            budget,
            floor,
        };
        let reply = node.handle(model, parcel)?;
        outcome.committed = outcome.committed.saturating_add(reply.fossils.len() as u64);
        outcome.ran = outcome.ran.saturating_add(u64::from(reply.ran));
        if floor >= end {
            break;
        }
        floor = floor_after(&reply, end);
        deliver = reply.out;
    }
    Ok(outcome)
}

/// The least of the end and of the times of waiting and sent messages, in ticks.
fn floor_after(reply: &Reply, end: u64) -> u64 {
    let mut floor = end.min(reply.low.unwrap_or(end));
    for sent in reply.out.as_slice() {
        floor = floor.min(sent.message.time());
    }
    floor
}

/// A process without waiting messages, after its sends at the start.
fn part<M: Simulated>(alloc: Global, model: &M, lp: u32) -> Result<Part, AllocError>
    requires { lp < (M.meaning model.now).lps }
    ensures { IfOk result IsInRange }
{
    let (words, sends) = model.start(alloc, lp);
    Ok(Part {
        lp,
        number: sends.len() as u64,
        words: State::from_slice(alloc, words.as_slice())?,
        pending: Listed::from_vec(Vec::new(alloc)),
    })
}

/// The node of all processes, without waiting messages.
fn loaded<M: Simulated>(alloc: Global, model: &M, end: u64) -> Result<Node, NodeFault>
    requires { end ≤ 2 ^ 40 }
    ensures lps { IfOk result (λ node. node.lps ≡ (M.meaning model.now).lps) }
{
    let mut parts = Vec::new(alloc);
    for lp in 0..model.lps() {
        parts.push(part(alloc, model, lp)?)?;
    }
    let load = Load {
        node: 0,
        nodes: 1,
        end,
        floor: 0,
        parts: Listed::from_vec(parts),
    };
    Node::load(alloc, model, load)
}

/// The messages that all processes send at the start.
fn opening<M: Simulated>(alloc: Global, model: &M) -> Result<Vec<Signed>, AllocError> {
    let mut opening = Vec::new(alloc);
    for lp in 0..model.lps() {
        let (_, sends) = model.start(alloc, lp);
        for (number, outgoing) in sends.as_slice().iter().enumerate() {
            opening.push(Signed {
                sign: Sign::Plus,
                message: model::stamp(lp, 0, number as u64, outgoing),
            })?;
        }
    }
    Ok(opening)
}
