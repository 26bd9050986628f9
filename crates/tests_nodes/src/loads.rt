// Loads and parcels for the nodes of a ring of three processes.

ghost use Rattle.std.specs.Prelude.{◌≡◌, ◌<◌, ◌≤◌, ◌^◌, IfOk, OnOk};
ghost use Rattle.wire.specs.Port.{IsLoadInRange};
ghost use Rattle.wire.specs.Port.Stage.{Idle};

use eventkey::{Listed, Message, Signed};
use model::State;
use node::{Load, Parcel, Part, Reply};
use std::alloc::{AllocError, Global};
use std::test::Fail;
use wire::{Port, PortFault};

/// Tokens that process `from` sent to process 0, which gets them at these times.
pub fn tokens(alloc: Global, from: u32, times: &[u64]) -> Result<Vec<Message>, Fail> {
    let mut tokens = Vec::new(alloc);
    for time in times {
        tokens.push(Message::new(*time, from, 0, 0, 0, 0, 0, 0)?)?;
    }
    Ok(tokens)
}

/// A load for a node of three with one process, `lp`, which has sent `number` messages and has these
/// pending.
pub fn load_of(
    alloc: Global,
    node: u32,
    lp: u32,
    number: u64,
    pending: Vec<Message>,
) -> Result<Load, AllocError>
    requires node { node < 3 }
    requires number { number ≤ 2 ^ 63 }
    ensures { IfOk result (λ load. IsLoadInRange load) }
{
    let mut parts = Vec::new(alloc);
    parts.push(Part {
        lp,
        number,
        words: State::from_slice(alloc, &[0])?,
        pending: Listed::from_vec(pending),
    })?;
    Ok(Load {
        node,
        nodes: 3,
        end: 10,
        floor: 0,
        parts: Listed::from_vec(parts),
    })
}

/// A load for node 0, whose process `lp` gets tokens of process `from` at these times.
pub fn load(alloc: Global, lp: u32, from: u32, times: &[u64]) -> Result<Load, Fail>
    ensures { IfOk result (λ load. IsLoadInRange load) }
{
    let pending = tokens(alloc, from, times)?;
    Ok(load_of(alloc, 0, lp, 1, pending)?)
}

pub fn parcel(deliver: Vec<Signed>, budget: u32, floor: u64) -> Parcel
    ensures { result.floor ≡ floor }
{
    Parcel {
        deliver: Listed::from_vec(deliver),
        budget,
        floor,
    }
}

/// Posts a parcel without deliveries, and takes the reply.
pub fn round<P: Port>(port: &mut P, alloc: Global, floor: u64) -> Result<Reply, PortFault>
    requires idle { (P.state port.old).stage ≡ Idle }
    requires floor { floor ≤ 2 ^ 40 }
    ensures { OnOk result ((P.state port.new).stage ≡ Idle) }
{
    port.post(parcel(Vec::new(alloc), 16, floor))?;
    port.take()
}
