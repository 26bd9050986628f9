// Compares reported sends with those of the model.

ghost use Rattle.std.specs.Prelude.{◌≡◌, ◌<◌, ◌≤◌, ◌+◌, ◌^◌, ◌↔◌, IsTrue, length};
ghost use Rattle.model.specs.Meaning.{stamp, stamped};

use eventkey::Message;
use model::Outgoing;

/// Returns whether these messages are what a handling by process `lp` at `time` ticks makes of
/// these sends, numbered from `number` on.
pub(crate) fn are_sent(
    lp: u32,
    time: u64,
    number: u64,
    sends: &[Outgoing],
    sent: &[Message],
) -> bool
    requires time { time < 2 ^ 41 }
    requires number { number + length sends.now ≤ 2 ^ 63 }
    ensures { IsTrue result ↔ (sent.now ≡ stamp lp time number sends.now) }
{
    if sent.len() != sends.len() {
        return false;
    }
    let mut next = number;
    'sends: for (place, outgoing) in sends.iter().enumerate() {
        if !is_sent(lp, time, next, outgoing, &sent[place]) {
            return false;
        }
        next += 1;
    }
    true
}

/// Returns whether a message is what a handling by process `lp` at `time` ticks makes of this send.
fn is_sent(lp: u32, time: u64, number: u64, outgoing: &Outgoing, message: &Message) -> bool
    requires time { time < 2 ^ 41 }
    ensures { IsTrue result ↔ (message.now ≡ stamped lp time number outgoing.now) }
{
    message.time() == time + u64::from(outgoing.delay)
        && message.from() == lp
        && message.number() == number
        && message.to() == outgoing.to
        && message.a() == outgoing.a
        && message.b() == outgoing.b
        && message.c() == outgoing.c
        && message.d() == outgoing.d
}
