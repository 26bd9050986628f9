// Examples of handlings, worked out on paper.

ghost use Rattle.std.specs.Prelude.{◌≤◌, ◌<◌, length};

use eventkey::Message;
use model::{Model, Outgoing};
use models::{JobShop, Phold, Relay, TokenRing};
use smallvec::SmallVec;
use std::alloc::Global;
use std::test::Fail;

/// A send with the last two words of the handled message.
fn sent_on(to: u32, delay: u32, a: u64, b: u64) -> Outgoing {
    Outgoing {
        to,
        delay,
        a,
        b,
        c: 8,
        d: u64::MAX,
    }
}

/// Whether process 0 of a model in state 3 sends this for a message with 9 and 4 before its last two
/// words.
fn are_sent<M: Model>(alloc: Global, model: &M, sent: &[Outgoing]) -> Result<bool, Fail>
    requires some { 0 < (M.meaning model.now).lps }
{
    let message = Message::new(5, 1, 0, 0, 9, 4, 8, u64::MAX)?;
    let state = SmallVec::from_slice(alloc, &[3])?;
    let (_, sends) = model.handle(alloc, 0, &state, &message);
    Ok(sends.as_slice() == sent)
}

#[test]
fn the_last_two_words_are_kept(rt: HostRuntime) -> Result<(), Fail> {
    let alloc = rt.alloc();
    assert!(rt; are_sent(alloc, &TokenRing::new(3, 2, 1), &[sent_on(1, 2, 9, 5)])?);
    assert!(rt; are_sent(alloc, &Phold::new(1, 1, 1, 7), &[sent_on(0, 1, 9, 5)])?);
    let relayed = [sent_on(3, 1, 9, 7), sent_on(1, 23, 4, 9)];
    assert!(rt; are_sent(alloc, &Relay, &relayed)?);
    Ok(())
}

/// Whether a job in step 2^64 - 1 that comes at 5 ticks to a machine in this state gives it these
/// words, before the drawn one, and makes it send this.
fn is_handled(
    alloc: Global,
    state: &[u64],
    words: &[u64; 4],
    sent: &[Outgoing],
) -> Result<bool, Fail>
    requires short { length state.now ≤ 16 }
{
    let message = Message::new(5, 1, 0, 0, 9, u64::MAX, 8, u64::MAX)?;
    let state = SmallVec::from_slice(alloc, state)?;
    let (next, sends) = JobShop::new(2, 1, 1, 3).handle(alloc, 0, &state, &message);
    Ok(next.len() == 5 && next.as_slice().starts_with(words) && sends.as_slice() == sent)
}

#[test]
fn a_job_beyond_the_longest_delay_is_turned_away(rt: HostRuntime) -> Result<(), Fail> {
    let alloc = rt.alloc();
    let sent = sent_on(1, 4294967295, 9, 0);
    assert!(rt;
        is_handled(
            alloc,
            &[4294967299],
            &[4294967300, 1, 4294967294, 0],
            &[sent]
        )?
    );
    assert!(rt; is_handled(alloc, &[4294967300, 0, 0, 0], &[4294967300, 0, 0, 1], &[])?);
    assert!(rt; is_handled(alloc, &[u64::MAX; 4], &[u64::MAX; 4], &[])?);
    Ok(())
}
