// What node programs answer to the hello of a run. Only then there is a port to them, so nothing is
// loaded before.

ghost use Rattle.std.specs.Prelude.{◌≡◌, ℕ, Err, IfOk, IfSome, Ok, length, map, replicate};
ghost use Rattle.frames.specs.Streams.{OnBytes};
ghost use Rattle.node_programs.specs.Greeting.{IsOther};
ghost use Rattle.node_programs.specs.declared.fault.NodesFault.TheVariants.{OtherNode};
ghost use Rattle.frames.specs.Meeting.{IsHeardFrom};
ghost use Rattle.frames.specs.Socket.{state_of};
ghost use Rattle.frames.specs.declared.meeting.Heard.TheVariants.{Same};
ghost use Rattle.frames.specs.declared.port.Held.TheVariants.{Fresh};

use crate::calls::Calls;
use crate::fault::NodesFault;
use crate::simulation::Simulation;
use frames::{Heard, Hello, SocketPort, hear_hello};
use std::alloc::Global;
use std::io::{Read, Write};

/// Takes the answers of all nodes, in their order, and returns a port to each.
///
/// Fails as `port_of` does, at the first node that does not answer by the run's own hello.
pub(crate) fn ports_of<S: Read + Write + Drop>(
    alloc: Global,
    own: &Hello,
    streams: Vec<S>,
    calls: &Calls,
) -> Result<Vec<SocketPort<S>>, NodesFault>
    ensures { IfOk result (λ ports. map (λ p. state_of p.held) ports.items
        ≡ replicate (length streams.items) (state_of Fresh)) }
{
    let mut ports = Vec::with_capacity(alloc, streams.len())?;
    'streams: for stream in streams {
        let node = ports.len();
        ports.push(port_of(alloc, own, node, stream, calls)?)?;
    }
    Ok(ports)
}

/// Takes the answer of this node to the run's hello, and not a byte more. Returns a port to it if
/// it takes part in the run's simulation.
///
/// Fails with `OtherNode` if it answers by another hello, which `calls` keeps; and with `Lost` if it
/// answers nothing, or no hello.
fn port_of<S: Read + Write + Drop>(
    alloc: Global,
    own: &Hello,
    node: usize,
    stream: S,
    calls: &Calls,
) -> Result<SocketPort<S>, NodesFault>
    ensures fresh { IfOk result (λ port. port.held ≡ Fresh) }
    ensures same { IfOk result (λ port. OnBytes (S.remaining stream) (S.remaining port.stream)
        (IsHeardFrom own.now (Ok Same))) }
    ensures other { (number : ℕ) → result ≡ Err (OtherNode number) →
        (number ≡ node) × IfSome (S.remaining stream) (IsOther own.now) }
{
    let mut stream = stream;
    match hear_hello(alloc, own, &mut stream) {
        Ok(Heard::Same) => Ok(SocketPort::new(alloc, stream)),
        Ok(Heard::Other(hello)) => {
            calls.note_apart(Simulation::of(own), Simulation::of(&hello));
            Err(NodesFault::OtherNode { node })
        }
        Err(fault) => Err(NodesFault::Lost(fault)),
    }
}
