// Ports to nodes behind bytes.

ghost use Rattle.std.specs.Prelude.{◌≡◌, IfOk, map, replicate};
ghost use Rattle.loopback.specs.Loop.{state_of};
ghost use Rattle.loopback.specs.declared.port.Held.TheVariants.{Fresh};

use crate::port::LoopPort;
use model::Model as Simulated;
use std::alloc::{AllocFailed, Global};

/// Returns ports to `nodes` nodes behind bytes in memory, which all run this model and are not
/// loaded yet.
pub fn loop_ports<'m, M: Simulated>(
    alloc: Global,
    model: &'m M,
    nodes: u32,
) -> Result<Vec<LoopPort<'m, M>>, AllocFailed<LoopPort<'m, M>>>
    ensures { IfOk result (λ ports. map (λ p. state_of (M.meaning p.model) p.held) ports.items
        ≡ replicate nodes (state_of (M.meaning model.now) Fresh)) }
{
    let mut ports = Vec::new(alloc);
    'ports: for _ in 0..nodes {
        ports.push(LoopPort::new(alloc, model))?;
    }
    Ok(ports)
}
