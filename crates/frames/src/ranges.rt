// What an encoder accepts is in the ranges of its frame. These functions return nothing; they exist
// for their contracts.

ghost use Rattle.std.specs.Prelude.{◌≤◌, ◌<◌, ◌^◌, length};
ghost use Rattle.std.specs.List.{AllByRecursion as Every};
ghost use Rattle.eventkey.specs.Message.{IsRanged};
ghost use Rattle.node.specs.Handling.{IsInRange, IsReplyInRange};
ghost use Rattle.wire.specs.Port.{IsLoadInRange};
ghost use Rattle.frames.specs.Bodies.{load_bytes, parcel_bytes, part_bytes, reply_bytes};
ghost use Rattle.frames.specs.Ranges.{IsLoad, IsParcel, IsPart, IsReply};
ghost use Rattle.frames.specs.Bodies.{most_body_bytes};

use eventkey::{Message, Signed};
use model::ranged;
use node::{Load, Parcel, Part, Reply};

/// Messages are in range.
fn messages_ranged(messages: &[Message])
    ensures { Every IsRanged messages.now }
{
    for message in messages {
        message.ranged();
    }
}

/// Messages and antimessages are in range.
fn signed_ranged(list: &[Signed])
    ensures { Every (λ s. IsRanged s.message) list.now }
{
    for signed in list {
        signed.message.ranged();
    }
}

/// A part of a load that a node accepts is in range if it fits a frame.
fn part_ranged(part: &Part)
    ensures { IsInRange part.now → length (part_bytes part.now) ≤ most_body_bytes → IsPart part.now }
{
    let _lp = part.lp;
    ranged(part.words.as_slice());
    messages_ranged(part.pending.as_slice());
}

/// The same for the parts of a load.
fn parts_ranged(parts: &[Part])
    ensures { Every (λ p. IsInRange p → length (part_bytes p) ≤ most_body_bytes → IsPart p) parts.now }
{
    for part in parts {
        part_ranged(part);
    }
}

/// A load that a node accepts is in range if it fits a frame.
pub(crate) fn load_ranged(load: &Load)
    ensures { IsLoadInRange load.now → length (load_bytes load.now) ≤ most_body_bytes → IsLoad load.now }
{
    parts_ranged(load.parts.as_slice());
}

/// A parcel with a floor of at most 2^40 ticks is in range if it fits a frame.
pub(crate) fn parcel_ranged(parcel: &Parcel)
    ensures { parcel.now.floor ≤ 2 ^ 40 → length (parcel_bytes parcel.now) ≤ most_body_bytes →
        IsParcel parcel.now }
{
    let _budget = parcel.budget;
    signed_ranged(parcel.deliver.as_slice());
}

/// A reply that a node returns is in range if it fits a frame.
pub(crate) fn reply_ranged(reply: &Reply)
    ensures { IsReplyInRange reply.now → length (reply_bytes reply.now) ≤ most_body_bytes →
        IsReply reply.now }
{
    let _ran = reply.ran;
    signed_ranged(reply.out.as_slice());
    reply.fossils.ranged();
}
