// The messages that handlings send, and the antimessages that cancel them.

ghost use Rattle.std.specs.Prelude.{◌≡◌, ◌≤◌, ◌++◌, List, length, map, OnOk};
ghost use Rattle.std.specs.Prelude.{OnErr};
ghost use Rattle.eventkey.specs.Signed.{minus};
ghost use Rattle.eventkey.specs.declared.Signed.{Signed};
ghost use Rattle.queues.specs.Queue.{last_of};
ghost use Rattle.queues.specs.Record.{sent_in};

use crate::history::History;
use eventkey::{Message, Sign, Signed};
use std::alloc::{AllocError, Global};

/// Appends these messages with this sign. After an allocation failure none is appended.
pub(crate) fn append(
    out: &mut Vec<Signed>,
    sign: Sign,
    messages: &[Message],
) -> Result<(), AllocError>
    ensures out { OnOk result (out.new.items ≡ out.old.items ++ map
        (λ m. record { sign = sign; message = m }) messages.now) }
    ensures unchanged { OnErr result (out.new.items ≡ out.old.items) }
{
    out.reserve(messages.len())?;
    for message in messages {
        out.push(Signed {
            sign,
            message: *message,
        })
        .unwrap();
    }
    Ok(())
}

/// Appends the antimessages of all that the last `count` handlings sent, those of the earliest
/// first. After an allocation failure some of them are in `out`.
pub(crate) fn cancel_sends(
    alloc: Global,
    history: &History,
    count: usize,
    out: &mut Vec<Signed>,
) -> Result<(), AllocError>
    requires { count ≤ length history.now.done }
    ensures out { OnOk result
        (out.new.items ≡ out.old.items ++ map minus (sent_in (last_of count history.now.done))) }
    ensures begins { (more : List Signed) × (out.new.items ≡ out.old.items ++ more) }
{
    let mut undone = history.last_reports(count);
    while let Some(report) = undone.next() {
        append(out, Sign::Minus, report.sent(alloc).as_slice())?;
    }
    Ok(())
}
