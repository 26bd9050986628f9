// The done messages: an ascending list with binary search.

ghost use Rattle.std.specs.Prelude.{◌≡◌, ◌≤◌, ◌+◌, not, take, drop, OnOk, OnErr};
ghost use Rattle.std.specs.VecDeque.{deque_len};
ghost use Rattle.eventkey.specs.Bag.{IsAscending, add_all, is_among, remove_all};
ghost use Rattle.eventkey.specs.Message.{is_before};
ghost use Rattle.queues.specs.Queue.{after, but_last, last_of};

use crate::event_list::EventList;
use eventkey::Message;
use std::alloc::AllocError;
use std::collections::VecDeque;

/// Returns the number of messages in an ascending list that are after this one.
pub(crate) fn count_after(ascending: &VecDeque<Message>, message: &Message) -> usize
    requires { IsAscending ascending.now.items }
    ensures { result ≡ after message.now ascending.now.items }
{
    // Most messages are after all done ones.
    let Some(last) = ascending.back() else {
        return 0;
    };
    if !message.is_before(last) {
        return 0;
    }
    let kept = ascending.partition_point(
        |other: &Message| -> bool
            ensures { result ≡ not (is_before message.entry.now other.now) }
        { !message.is_before(other) },
    );
    ascending.len() - kept
}

/// Returns whether a message is in an ascending list.
pub(crate) fn holds(ascending: &VecDeque<Message>, message: &Message) -> bool
    requires { IsAscending ascending.now.items }
    ensures { result ≡ is_among message.now ascending.now.items }
{
    let kept = ascending.len() - count_after(ascending, message);
    kept > 0 && ascending[kept - 1].is_same(message)
}

/// Adds the last `count` done messages to the waiting ones. Returns `AllocError` only if an
/// allocation fails; what was added is then removed again.
pub(crate) fn wait_again(
    done: &VecDeque<Message>,
    waiting: &mut EventList,
    count: usize,
) -> Result<(), AllocError>
    requires there { count ≤ deque_len done.now }
    requires ascending { IsAscending waiting.old }
    ensures waits { OnOk result (waiting.new ≡ add_all (last_of count done.now.items) waiting.old) }
    ensures unchanged { OnErr result (waiting.new ≡ waiting.old) }
{
    let all = done.len();
    // Last one first: each then precedes all that wait already, and moves none of them.
    for again in 0..count {
        if waiting.add(done[all - again - 1]).is_err() {
            take_out(done, waiting, all - again, again);
            return Err(AllocError);
        }
    }
    Ok(())
}

/// Removes `count` done messages, from index `first` on, from the waiting ones. Allocates nothing.
fn take_out(done: &VecDeque<Message>, waiting: &mut EventList, first: usize, count: usize)
    requires { first + count ≤ deque_len done.now }
    ensures { waiting.new ≡ remove_all (take count (drop first done.now.items)) waiting.old }
{
    for offset in 0..count {
        waiting.remove(&done[first + offset]);
    }
}

/// Drops the last `count` done messages. Allocates nothing.
pub(crate) fn undo(done: &mut VecDeque<Message>, count: usize)
    requires { count ≤ deque_len done.old }
    ensures { done.new.items ≡ but_last count done.old.items }
{
    let kept = done.len() - count;
    done.truncate(kept);
}

/// Drops the first `count` done messages. Allocates nothing.
pub(crate) fn let_go(done: &mut VecDeque<Message>, count: usize)
    requires { count ≤ deque_len done.old }
    ensures { done.new.items ≡ drop count done.old.items }
{
    for _ in 0..count {
        done.pop_front().unwrap();
    }
}
