// Passes frames to a node and back.

ghost use Rattle.std.specs.Prelude.{◌≡◌, ◌≤◌, ◌^◌, [], Some, IfErr, IfOk, OnOk, false, length};
ghost use Rattle.frames.specs.Bodies.{frame_in, load_bytes, reply_bytes, most_body_bytes};
ghost use Rattle.frames.specs.Laws.{IsEncoded};
ghost use Rattle.frames.specs.declared.Frame.{Frame};
ghost use Rattle.frames.specs.declared.Frame.TheVariants as frame;
ghost use Rattle.loopback.specs.Passing.{IsLoadCause, IsMade, IsReadOf, IsReplyBy, IsTakeCause};
ghost use Rattle.node.specs.Handling.{answer};
ghost use Rattle.node.specs.declared.Parcel.{Parcel};
ghost use Rattle.wire.specs.Port.{IsLoadInRange};
ghost use Rattle.wire.specs.declared.port.PortFault.TheVariants.{Wire};
ghost use Rattle.wire.specs.declared.port.WireFault.TheVariants.{NoMemory};

use frames::{Begun, Frame, Raw, begin, encode_load, react, read_whole_frame, read_whole_raw};
use model::Model as Simulated;
use node::{Load, Node, Reply};
use std::alloc::Global;
use wire::{PortFault, WireFault};

/// Returns the frame that these bytes are, with its body not decoded yet. Returns `Closed` if they
/// are no frame, which cannot happen to a frame that was sent.
fn arrived(alloc: Global, bytes: &[u8]) -> Result<Raw, PortFault>
    ensures ok { (f : Frame) → IsEncoded bytes.now f [] →
        IfOk result (λ raw. frame_in raw.kind raw.body ≡ Some f) }
    ensures err { (f : Frame) → IsEncoded bytes.now f [] →
        IfErr result (λ fault. fault ≡ Wire NoMemory) }
{
    match read_whole_raw(alloc, bytes) {
        Ok(Some(raw)) => Ok(raw),
        Ok(None) => Err(PortFault::Closed),
        Err(_) => Err(PortFault::Wire(WireFault::NoMemory)),
    }
}

/// Returns the reply in these bytes, or the refusal in them as `Peer`; `Closed` if they are
/// neither.
fn replied(alloc: Global, bytes: &[u8]) -> Result<Reply, PortFault>
    ensures ok { (f : Frame) → IsEncoded bytes.now f [] →
        IfOk result (λ reply. f ≡ frame.Reply reply) }
    ensures err { (f : Frame) → IsEncoded bytes.now f [] →
        IfErr result (λ fault. IsReadOf f fault) }
{
    match read_whole_frame(alloc, bytes) {
        Ok(Some(Frame::Reply(reply))) => Ok(reply),
        Ok(Some(Frame::Fault(fault))) => Err(PortFault::Peer(fault)),
        Ok(Some(Frame::Load(_))) => Err(PortFault::Closed),
        Ok(Some(Frame::Parcel(_))) => Err(PortFault::Closed),
        Ok(None) => Err(PortFault::Closed),
        Err(_) => Err(PortFault::Wire(WireFault::NoMemory)),
    }
}

/// Encodes a load, and returns the node that its frame makes.
pub(crate) fn loaded<M: Simulated>(alloc: Global, model: &M, load: &Load) -> Result<Node, PortFault>
    requires { IsLoadInRange load.now }
    ensures ok { IfOk result (λ n. IsMade (M.meaning model.now).lps load.now n) }
    ensures fits { OnOk result (length (load_bytes load.now) ≤ most_body_bytes) }
    ensures err { IfErr result (λ fault. IsLoadCause (M.meaning model.now).lps load.now fault) }
{
    let frame = match encode_load(alloc, load) {
        Ok(frame) => frame,
        Err(fault) => return Err(PortFault::Wire(fault)),
    };
    let raw = arrived(alloc, frame.as_slice())?;
    match begin(alloc, model, &raw) {
        Ok(Begun::Loaded(node)) => Ok(node),
        Ok(Begun::Refused(text)) => match replied(alloc, text.as_slice()) {
            Ok(_) => Err(PortFault::Closed),
            Err(fault) => Err(fault),
        },
        Err(fault) => Err(PortFault::Wire(fault)),
    }
}

/// Lets the node handle the frame of a parcel, and reads the frame of its answer.
pub(crate) fn handled<M: Simulated>(
    alloc: Global,
    model: &M,
    node: &mut Node,
    parcel: &[u8],
) -> Result<Reply, PortFault>
    requires lps { node.old.spent ≡ false → (M.meaning model.now).lps ≡ node.old.lps }
    ensures ok { (p : Parcel) → IsEncoded parcel.now (frame.Parcel p) [] →
        IfOk result (λ reply. IsReplyBy (answer (M.meaning model.now) node.old p) node.new reply) }
    ensures fits { (p : Parcel) → IsEncoded parcel.now (frame.Parcel p) [] →
        IfOk result (λ reply. length (reply_bytes reply) ≤ most_body_bytes) }
    ensures err { (p : Parcel) → IsEncoded parcel.now (frame.Parcel p) [] →
        IfErr result (λ fault. IsTakeCause (M.meaning model.now) node.old p fault) }
    ensures lps { node.new.spent ≡ false → (M.meaning model.now).lps ≡ node.new.lps }
{
    let raw = arrived(alloc, parcel)?;
    match react(alloc, model, node, &raw) {
        Ok(response) => replied(alloc, response.frame.as_slice()),
        Err(fault) => Err(PortFault::Wire(fault)),
    }
}
