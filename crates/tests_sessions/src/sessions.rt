// Sessions over a ring of three processes with two tokens, each held for two ticks, up to time 10.

use crate::disks::{END, Near, formatted, opened, two_tokens};
use eventkey::Message;
use models::TokenRing;

mod opening;
mod replies;
mod stepping;

fn fields(message: &Message) -> [u64; 8] {
    [
        message.time(),
        u64::from(message.from()),
        message.number(),
        u64::from(message.to()),
        message.a(),
        message.b(),
        message.c(),
        message.d(),
    ]
}

/// Whether these are the messages with these fields.
fn are(messages: &[Message], rows: &[[u64; 8]]) -> bool {
    messages.iter().map(fields).eq(rows.iter().copied())
}

/// The first messages, of time 1.
const FIRST: [[u64; 8]; 2] = [[1, 0, 0, 0, 0, 0, 0, 0], [1, 1, 0, 1, 1, 0, 0, 0]];

/// Whether the front is that after the steps: at time 3, with the two events before it.
fn is_at_three(session: &Near<'_, TokenRing>) -> bool {
    let front = session.front();
    front.time == 3
        && are(front.log, &FIRST)
        && front.numbers == [2, 2, 0].as_slice()
        && are(
            front.pending,
            &[[3, 0, 1, 1, 0, 1, 0, 0], [3, 1, 1, 2, 1, 1, 0, 0]],
        )
}
