// The loop of a node behind a stream of frames.

ghost use Rattle.std.specs.Prelude.{◌≡◌, false};
ghost use Rattle.frames.specs.Streams.{OnBytes};
ghost use Rattle.frames.specs.Outcomes.{IsServed, IsServedFrom, IsTurn};

use crate::output::write_all;
use crate::reaction::{Begun, begin, react};
use crate::read_raw;
use model::Model as Simulated;
use node::Node;
use std::alloc::Global;
use std::io::{Read, Write};
use wire::WireFault;

/// Reads one parcel and writes the answer. Returns false if the stream has ended or the node
/// refused.
fn turn<M: Simulated, R: Read, W: Write>(
    alloc: Global,
    model: &M,
    node: &mut Node,
    reader: &mut R,
    writer: &mut W,
) -> Result<bool, WireFault>
    requires lps { node.old.spent ≡ false → (M.meaning model.now).lps ≡ node.old.lps }
    ensures known { OnBytes (R.remaining reader.old) (R.remaining reader.new)
        (IsTurn (M.meaning model.now) node.old node.new
        (W.contents writer.old) (W.contents writer.new) result) }
    ensures lps { node.new.spent ≡ false → (M.meaning model.now).lps ≡ node.new.lps }
{
    let Some(raw) = read_raw(alloc, reader)? else {
        return Ok(false);
    };
    let response = react(alloc, model, node, &raw)?;
    write_all(response.frame.as_slice(), writer)?;
    Ok(response.goes_on)
}

/// Answers at most `limit` parcels of the stream. Returns the number of replies.
fn serve_parcels<M: Simulated, R: Read, W: Write>(
    alloc: Global,
    model: &M,
    node: Node,
    reader: &mut R,
    writer: &mut W,
    limit: u64,
) -> Result<u64, WireFault>
    requires lps { node.spent ≡ false → (M.meaning model.now).lps ≡ node.lps }
    ensures { OnBytes (R.remaining reader.old) (R.remaining reader.new)
        (IsServedFrom (M.meaning model.now) limit node
        (W.contents writer.old) (W.contents writer.new) result) }
{
    let mut node = node;
    for count in 0..limit {
        if !turn(alloc, model, &mut node, reader, writer)? {
            return Ok(count);
        }
    }
    Ok(limit)
}

/// Serves a node of this model to a stream of frames: first a load, then parcels. Each parcel is
/// answered by a reply, up to `limit` replies. The loop ends if the stream ends between frames, if
/// the node refuses (the refusal is written), or after the last reply. Returns the number of
/// replies; the writer has taken all of them, and is not flushed.
///
/// `Truncated`, `TooLong`, `BadKind` and `BadBody` are returned if the stream has such a fault
/// before the loop ends, and `TooLong` also for a reply of more than 2^24 bytes; all replies before
/// the fault are written. `Io` is returned if the reader or the writer fails, `NoMemory` if an
/// allocation for a frame fails; a prefix of the text is then written, and nothing after that
/// frame is read. One frame is held in memory at a time.
pub fn serve<M: Simulated, R: Read, W: Write>(
    alloc: Global,
    model: &M,
    reader: &mut R,
    writer: &mut W,
    limit: u64,
) -> Result<u64, WireFault>
    ensures { OnBytes (R.remaining reader.old) (R.remaining reader.new)
        (IsServed (M.meaning model.now) limit
        (W.contents writer.old) (W.contents writer.new) result) }
{
    let Some(raw) = read_raw(alloc, reader)? else {
        return Ok(0);
    };
    match begin(alloc, model, &raw)? {
        Begun::Loaded(node) => serve_parcels(alloc, model, node, reader, writer, limit),
        Begun::Refused(frame) => {
            write_all(frame.as_slice(), writer)?;
            Ok(0)
        }
    }
}
