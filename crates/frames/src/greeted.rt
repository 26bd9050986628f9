// The loop of a node that tells a run in which simulation it takes part.

ghost use Rattle.std.specs.Prelude.{◌≡◌, IfSome};
ghost use Rattle.frames.specs.Greeted.{IsAnswered, IsGreeted};

use crate::first_frame::{First, read_first};
use crate::greeting::{Hello, encode_hello};
use crate::node_loop::serve;
use crate::output::write_all;
use model::Model as Simulated;
use std::alloc::Global;
use std::io::{Read, Write};
use wire::WireFault;

/// How a node's loop ended without a fault.
#[derive(Drop)]
pub enum Ending {
    /// The number of replies that it wrote.
    Replies(u64),
    /// The run takes part in this other simulation, and was answered so.
    OtherModel(Hello),
}

/// Serves a node of this model, up to an end in ticks, to a stream that may begin with a hello: it
/// is answered by the node's own hello. If the two differ, the loop ends there, and no load is
/// read. Then, and for a stream that begins with anything else, it does what `serve` does.
///
/// The faults are those of `serve`, and of a hello those of `read_first`.
pub fn serve_greeted<M: Simulated, R: Read, W: Write>(
    alloc: Global,
    model: &M,
    end: u64,
    reader: &mut R,
    writer: &mut W,
    limit: u64,
) -> Result<Ending, WireFault>
    ensures { IfSome (R.remaining reader.old) (IsGreeted (M.meaning model.now) end limit
        (W.contents writer.old) (W.contents writer.new) result) }
{
    match read_first(alloc, reader)? {
        First::Hello(asked) => answer(alloc, model, end, asked, reader, writer, limit),
        First::Other { head, came } => {
            let mut whole = head[..came].chain(reader);
            let replies = serve(alloc, model, &mut whole, writer, limit)?;
            Ok(Ending::Replies(replies))
        }
    }
}

/// Answers a hello, and serves the run that sent it if it takes part in the same simulation.
fn answer<M: Simulated, R: Read, W: Write>(
    alloc: Global,
    model: &M,
    end: u64,
    asked: Hello,
    reader: &mut R,
    writer: &mut W,
    limit: u64,
) -> Result<Ending, WireFault>
    ensures { IfSome (R.remaining reader.old) (IsAnswered (M.meaning model.now) end limit asked
        (W.contents writer.old) (W.contents writer.new) result) }
{
    let own = Hello::of(alloc, model, end)?;
    let frame = encode_hello(alloc, &own)?;
    write_all(frame.as_slice(), writer)?;
    if !own.agrees(&asked) {
        return Ok(Ending::OtherModel(asked));
    }
    let replies = serve(alloc, model, reader, writer, limit)?;
    Ok(Ending::Replies(replies))
}
