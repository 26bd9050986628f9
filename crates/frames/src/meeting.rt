// The hellos of a run and a node, before the first load.

ghost use Rattle.std.specs.Io.KnownBytes.{Appends};
ghost use Rattle.std.specs.Prelude.{◌≡◌, ◌⊎◌, IfErr, OnOk};
ghost use Rattle.frames.specs.Hellos.{hello_frame};
ghost use Rattle.frames.specs.Streams.{OnBytes};
ghost use Rattle.frames.specs.Meeting.{IsHeardFrom};
ghost use Rattle.wire.specs.declared.port.PortFault.TheVariants.{Wire as OnWire};
ghost use Rattle.wire.specs.declared.port.WireFault.TheVariants.{Io, NoMemory};

use crate::{Hello, encode_hello, read_hello_frame, write_all};
use std::alloc::Global;
use std::io::{Read, Write};
use wire::{PortFault, WireFault};

/// Whether a node takes part in the simulation of a run.
#[derive(Drop)]
pub enum Heard {
    /// It does: its hello is the run's.
    Same,
    /// It takes part in another one, and says so.
    Other(Hello),
}

/// Sends a run's hello to a node, whole, and nothing else. Does not flush the stream.
///
/// `Wire(Io)` if the stream fails, `Wire(NoMemory)` if an allocation fails.
pub fn say_hello<S: Write>(alloc: Global, own: &Hello, stream: &mut S) -> Result<(), PortFault>
    ensures written { OnOk result (Appends (S.contents stream.old) (S.contents stream.new)
        (hello_frame own.now)) }
    ensures cause { IfErr result (λ fault. (fault ≡ OnWire Io) ⊎ (fault ≡ OnWire NoMemory)) }
{
    match encode_hello(alloc, own) {
        Ok(frame) => match write_all(frame.as_slice(), stream) {
            Ok(()) => Ok(()),
            Err(_) => Err(PortFault::Wire(WireFault::Io)),
        },
        Err(_) => Err(PortFault::Wire(WireFault::NoMemory)),
    }
}

/// Takes the answer of a node to a run's hello, and not a byte more.
///
/// `Closed` if the stream has ended, `Wire(BadKind)` if it does not go on with a hello, and the
/// other faults of `read_hello_frame` as `Wire(..)`.
pub fn hear_hello<S: Read>(alloc: Global, own: &Hello, stream: &mut S) -> Result<Heard, PortFault>
    ensures { OnBytes (S.remaining stream.old) (S.remaining stream.new)
        (IsHeardFrom own.now result) }
{
    match read_hello_frame(alloc, stream) {
        Ok(Some(hello)) => {
            if own.agrees(&hello) {
                Ok(Heard::Same)
            } else {
                Ok(Heard::Other(hello))
            }
        }
        Ok(None) => Err(PortFault::Closed),
        Err(fault) => Err(PortFault::Wire(fault)),
    }
}
