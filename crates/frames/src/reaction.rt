// What the loop of a node does with one frame.

ghost use Rattle.std.specs.Prelude.{◌≡◌, ◌⊎◌, Err, IfOk, OnOk, false};
ghost use Rattle.frames.specs.Ranges.{IsReply};
ghost use Rattle.node.specs.Handling.{IsReplyInRange};
ghost use Rattle.frames.specs.Reactions.{Begins, HasProcesses, Reacts};
ghost use Rattle.frames.specs.Reactions.{RepliesInRange, response_to};
ghost use Rattle.wire.specs.declared.port.WireFault.TheVariants.{NoMemory};

use crate::{FrameKind, Raw, encode_fault, encode_reply, read_load, read_parcel};
use eventkey::Listed;
use model::Model as Simulated;
use node::{Node, NodeFault, Reply};
use std::alloc::Global;
use wire::WireFault;

/// What the loop writes for a frame, and whether it goes on.
#[derive(Drop)]
pub struct Response {
    /// The bytes of a reply or a fault.
    pub frame: Listed<u8>,
    /// Whether it is a reply.
    pub goes_on: bool,
}

/// What the first frame leads to: a node, or a refusal to write.
#[derive(Drop)]
pub enum Begun {
    /// The node.
    Loaded(Node),
    /// The bytes of a fault.
    Refused(Listed<u8>),
}

/// Makes a node from the frame of a load.
///
/// `BadKind` for a frame of another kind, else `BadBody` if the body is not a load; `NoMemory` if
/// an allocation failed for the load or for the frame of the node's refusal.
pub fn begin<M: Simulated>(alloc: Global, model: &M, raw: &Raw) -> Result<Begun, WireFault>
    ensures begins { Begins (M.meaning model.now).lps raw.now result }
    ensures lps { IfOk result (λ begun. HasProcesses (M.meaning model.now).lps begun) }
{
    let FrameKind::Load = raw.kind else {
        return Err(WireFault::BadKind);
    };
    let Some(load) = read_load(alloc, raw.body.as_slice())? else {
        return Err(WireFault::BadBody);
    };
    match Node::load(alloc, model, load) {
        Ok(node) => Ok(Begun::Loaded(node)),
        Err(fault) => {
            let frame = encode_fault(alloc, fault)?;
            Ok(Begun::Refused(Listed::from_vec(frame)))
        }
    }
}

/// Lets the node handle the frame of a parcel.
///
/// `BadKind` for a frame of another kind, else `BadBody` if the body is not a parcel, else
/// `TooLong` for a reply of more than 2^24 bytes; `NoMemory` if an allocation failed for the parcel
/// or for the response.
pub fn react<M: Simulated>(
    alloc: Global,
    model: &M,
    node: &mut Node,
    raw: &Raw,
) -> Result<Response, WireFault>
    requires lps { node.old.spent ≡ false → (M.meaning model.now).lps ≡ node.old.lps }
    ensures known { Reacts (M.meaning model.now) node.old node.new raw.now result }
    ensures range { IfOk result (λ response.
        RepliesInRange (M.meaning model.now) node.old raw.now response) }
    ensures lps { node.new.spent ≡ false → (M.meaning model.now).lps ≡ node.new.lps }
{
    let FrameKind::Parcel = raw.kind else {
        return Err(WireFault::BadKind);
    };
    let Some(parcel) = read_parcel(alloc, raw.body.as_slice())? else {
        return Err(WireFault::BadBody);
    };
    let answer = node.handle(model, parcel);
    respond(alloc, answer)
}

/// The response for a node's answer.
fn respond(alloc: Global, answer: Result<Reply, NodeFault>) -> Result<Response, WireFault>
    ensures exact { (result ≡ response_to answer) ⊎ (result ≡ Err NoMemory) }
    ensures range { IfOk answer (λ reply. IsReplyInRange reply) →
        OnOk result (IfOk answer (λ reply. IsReply reply)) }
{
    match answer {
        Ok(reply) => {
            let frame = encode_reply(alloc, &reply)?;
            Ok(Response {
                frame: Listed::from_vec(frame),
                goes_on: true,
            })
        }
        Err(fault) => {
            let frame = encode_fault(alloc, fault)?;
            Ok(Response {
                frame: Listed::from_vec(frame),
                goes_on: false,
            })
        }
    }
}
