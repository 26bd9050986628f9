// Worked examples of the input queue. A call that meets an allocation failure is repeated, and must
// then answer as if it had never failed.

ghost use Rattle.std.specs.Prelude.{◌≤◌, ◌<◌};

use crate::rows::{Row, message, messages, numbers, part};
use eventkey::{Message, Sign, Signed};
use queues::{Arrival, InputQueue};
use std::alloc::{AllocError, Global};
use std::process::Abort;
use std::test::Fail;

/// A call of a queue: a message or an antimessage arrives, or the least message below an end, in
/// ticks, is taken.
#[derive(Clone, Copy)]
enum Call {
    Arrives(Signed),
    Taken(u64),
}

/// The answer of a call, and the number in it: how many messages are rolled back, or the time of
/// the taken message.
type Answer = (&'static str, u64);

/// The numbers of done messages, waiting messages and waiting antimessages.
type Lens = [u64; 3];

const A: Row = [5, 0, 1, 1, 0, 1, 0, 0];

/// Another message of the same time, sender and number.
const OTHER: Row = [5, 0, 1, 1, 9, 1, 0, 0];

/// Messages that differ from `A` only in the third or the last word of their content.
const OTHER_C: Row = [5, 0, 1, 1, 0, 1, 1, 0];

const OTHER_D: Row = [5, 0, 1, 1, 0, 1, 0, 1];

fn lens(queue: &InputQueue) -> Lens {
    let (waiting, antis) = (queue.waiting_len() as u64, queue.antis_len() as u64);
    [queue.done_len() as u64, waiting, antis]
}

/// The visible state of a queue: the lengths, the least waiting message, and the least time.
fn shown(queue: &InputQueue) -> (Lens, Option<Message>, Option<u64>) {
    (lens(queue), queue.next(u64::MAX), queue.low())
}

const fn answer_of(arrival: Arrival) -> Answer {
    match arrival {
        Arrival::Waits => ("waits", 0),
        Arrival::Queued { back } => ("queued", back as u64),
        Arrival::Annihilated { back } => ("annihilated", back as u64),
    }
}

fn make(queue: &mut InputQueue, call: &Call) -> Result<Answer, AllocError> {
    match *call {
        Call::Arrives(signed) => Ok(answer_of(queue.arrive(signed)?)),
        Call::Taken(end) => Ok(match queue.take_next(end)? {
            Some(next) => ("taken", next.time()),
            None => ("none", 0),
        }),
    }
}

/// Makes a call, and repeats it after an allocation failure, which must change nothing.
fn make_at_last(
    rt: &impl Abort,
    queue: &mut InputQueue,
    call: &Call,
) -> Result<Answer, AllocError> {
    let before = shown(queue);
    if let Ok(answer) = make(queue, call) {
        return Ok(answer);
    }
    assert!(rt; shown(queue) == before);
    make(queue, call)
}

fn arrives(sign: Sign, row: Row) -> Result<Call, Fail> {
    let message = message(row)?;
    Ok(Call::Arrives(Signed { sign, message }))
}

/// The call of a text: `+a`, `-a`, `+b` or `-b`, of one of two messages, or else an end.
fn call_of(text: &str, a: Row, b: Row) -> Result<Call, Fail> {
    match text {
        "+a" => arrives(Sign::Plus, a),
        "-a" => arrives(Sign::Minus, a),
        "+b" => arrives(Sign::Plus, b),
        "-b" => arrives(Sign::Minus, b),
        end => Ok(Call::Taken(end.parse()?)),
    }
}

fn is_answer(answer: Answer, text: &str) -> bool {
    let (name, number) = text.split_once(' ').unwrap_or((text, "0"));
    answer.0 == name && number.parse().ok() == Some(answer.1)
}

fn are_lens(lens: Lens, text: &str) -> Result<bool, Fail> {
    let [done, waiting, antis, ..] = numbers(text)?;
    Ok(lens == [done, waiting, antis])
}

/// Makes the calls of a script, of which each line has the call, its answer, and the lengths of the
/// lists after it.
fn play(rt: &impl Abort, queue: &mut InputQueue, a: Row, b: Row, script: &str) -> Result<(), Fail> {
    for line in script.lines() {
        let answer = make_at_last(rt, queue, &call_of(part(line, 0), a, b)?)?;
        assert!(rt; is_answer(answer, part(line, 1)), "{line}");
        assert!(rt; are_lens(lens(queue), part(line, 2))?, "{line}");
    }
    Ok(())
}

/// Plays a script from an empty queue.
fn play_anew(rt: &impl Abort, alloc: Global, b: Row, script: &str) -> Result<(), Fail> {
    play(rt, &mut InputQueue::new(alloc), A, b, script)
}

/// A message of process 1 to itself.
fn of_time(time: u64) -> Row {
    [time, 1, time, 1, 0, 0, 0, 0]
}

/// Lets messages or antimessages of some of 200 times from 1 to 211, in mixed order, arrive.
/// Returns whether each has this answer.
fn all_arrive(
    rt: &impl Abort,
    queue: &mut InputQueue,
    sign: Sign,
    every: u64,
    expected: &str,
) -> Result<bool, Fail> {
    for place in 0..200u64 {
        if place.checked_rem(every) == Some(0) {
            let call = arrives(sign, of_time(1 + place * 97 % 211))?;
            if !is_answer(make_at_last(rt, queue, &call)?, expected) {
                return Ok(false);
            }
        }
    }
    Ok(true)
}

/// Takes all waiting messages. Returns how many come after the one before them.
fn take_all(rt: &impl Abort, queue: &mut InputQueue) -> Result<u64, AllocError> {
    let (mut count, mut last) = (0u64, 0);
    for _ in 0..queue.waiting_len() {
        let (name, time) = make_at_last(rt, queue, &Call::Taken(1000))?;
        count = count.saturating_add(u64::from(name == "taken" && time > last));
        last = time;
    }
    Ok(count)
}

#[test]
fn many_messages_wait_in_order(rt: HostRuntime) -> Result<(), Fail> {
    let mut queue = InputQueue::new(rt.alloc());
    assert!(rt; all_arrive(&rt, &mut queue, Sign::Plus, 1, "queued 0")?);
    assert!(rt; all_arrive(&rt, &mut queue, Sign::Minus, 4, "annihilated 0")?);
    assert!(rt; lens(&queue) == [0, 150, 0]);
    assert!(rt; take_all(&rt, &mut queue)? == 150);
    assert!(rt; lens(&queue) == [150, 0, 0]);
    // a straggler before all of them
    play(&rt, &mut queue, of_time(0), A, "+a | queued 150 | 0 151 0")
}

/// The message at this place among 100,000: `apart`, each at a time of its own, in mixed order;
/// otherwise all at one time, the last number first.
fn one_of_many(place: u64, apart: bool) -> Row
    requires { place < 100000 }
{
    if apart {
        [1 + place * 7919 % 100_003, 1, 0, 1, 0, 0, 0, 0]
    } else {
        [5, 1, 100_000 - place, 1, 0, 0, 0, 0]
    }
}

/// A queue in which 100,000 messages wait.
fn many(alloc: Global, apart: bool) -> Result<InputQueue, Fail> {
    let mut queue = InputQueue::new(alloc);
    for place in 0..100_000 {
        let (sign, message) = (Sign::Plus, message(one_of_many(place, apart))?);
        queue.arrive(Signed { sign, message })?;
    }
    Ok(queue)
}

/// Takes 100,000 messages. Returns how many come after the one before them.
fn take_many(queue: &mut InputQueue) -> Result<u32, AllocError> {
    let (mut count, mut last) = (0u32, None);
    for _ in 0..100_000 {
        let next = queue.take_next(1 << 40)?;
        count = count.saturating_add(u32::from(next > last));
        last = next;
    }
    Ok(count)
}

#[test]
fn a_hundred_thousand_messages_wait(rt: HostRuntime) -> Result<(), Fail> {
    assert_eq!(rt; take_many(&mut many(rt.alloc(), true)?)?, 100_000);
    assert_eq!(rt; take_many(&mut many(rt.alloc(), false)?)?, 100_000);
    Ok(())
}

const ANTIMESSAGE_FIRST: &str = "\
    -a | waits | 0 0 1\n\
    +a | annihilated 0 | 0 0 0";

const HANDLED_MESSAGE_IS_ROLLED_BACK: &str = "\
    +a | queued 0 | 0 1 0\n\
    10 | taken 5 | 1 0 0\n\
    -a | annihilated 1 | 0 0 0";

const MATCHING_IS_BY_ALL_EIGHT_NUMBERS: &str = "\
    +a | queued 0 | 0 1 0\n\
    10 | taken 5 | 1 0 0\n\
    +b | queued 0 | 1 1 0\n\
    -a | annihilated 1 | 0 1 0\n\
    10 | taken 5 | 1 0 0";

#[test]
fn messages_and_antimessages_annihilate(rt: HostRuntime) -> Result<(), Fail> {
    play_anew(&rt, rt.alloc(), OTHER, ANTIMESSAGE_FIRST)?;
    play_anew(&rt, rt.alloc(), OTHER, HANDLED_MESSAGE_IS_ROLLED_BACK)?;
    play_anew(&rt, rt.alloc(), OTHER, MATCHING_IS_BY_ALL_EIGHT_NUMBERS)
}

const COPIES_THAT_WAIT_ARE_COUNTED: &str = "\
    +a | queued 0 | 0 1 0\n\
    +a | queued 0 | 0 2 0\n\
    -a | annihilated 0 | 0 1 0";

const ONE_OF_TWO_HANDLED_COPIES_IS_TAKEN_BACK: &str = "\
    +a | queued 0 | 0 1 0\n\
    10 | taken 5 | 1 0 0\n\
    +a | queued 0 | 1 1 0\n\
    10 | taken 5 | 2 0 0\n\
    -a | annihilated 1 | 1 0 0\n\
    -a | annihilated 1 | 0 0 0\n\
    -a | waits | 0 0 1";

const EACH_OF_TWO_ANTIMESSAGES_MEETS_A_MESSAGE: &str = "\
    -a | waits | 0 0 1\n\
    -a | waits | 0 0 2\n\
    +a | annihilated 0 | 0 0 1\n\
    +a | annihilated 0 | 0 0 0\n\
    +a | queued 0 | 0 1 0";

#[test]
fn equal_messages_annihilate_one_by_one(rt: HostRuntime) -> Result<(), Fail> {
    play_anew(&rt, rt.alloc(), OTHER, COPIES_THAT_WAIT_ARE_COUNTED)?;
    play_anew(
        &rt,
        rt.alloc(),
        OTHER,
        ONE_OF_TWO_HANDLED_COPIES_IS_TAKEN_BACK,
    )?;
    play_anew(
        &rt,
        rt.alloc(),
        OTHER,
        EACH_OF_TWO_ANTIMESSAGES_MEETS_A_MESSAGE,
    )
}

/// First, the other antimessage annihilates neither a waiting message nor a handled one. From the
/// seventh line on, the other message is later.
const THE_LAST_WORDS_DIFFER: &str = "\
    +a | queued 0 | 0 1 0\n\
    -b | waits | 0 1 1\n\
    10 | taken 5 | 1 0 1\n\
    -b | waits | 1 0 2\n\
    +b | annihilated 0 | 1 0 1\n\
    +b | annihilated 0 | 1 0 0\n\
    +b | queued 0 | 1 1 0\n\
    10 | taken 5 | 2 0 0\n\
    -a | annihilated 2 | 0 1 0\n\
    10 | taken 5 | 1 0 0\n\
    +a | queued 1 | 0 2 0\n\
    10 | taken 5 | 1 1 0\n\
    -b | annihilated 0 | 1 0 0\n\
    -a | annihilated 1 | 0 0 0";

#[test]
fn messages_that_differ_only_in_the_last_words_are_distinct(rt: HostRuntime) -> Result<(), Fail> {
    play_anew(&rt, rt.alloc(), OTHER_C, THE_LAST_WORDS_DIFFER)?;
    play_anew(&rt, rt.alloc(), OTHER_D, THE_LAST_WORDS_DIFFER)
}

const WAITING: [Row; 4] = [
    [9, 0, 0, 1, 0, 0, 0, 0],
    [3, 0, 0, 1, 0, 0, 0, 0],
    [7, 0, 0, 1, 0, 0, 0, 0],
    [5, 0, 0, 1, 0, 0, 0, 0],
];

const A_STRAGGLER: &str = "\
    8 | taken 3 | 1 3 0\n\
    8 | taken 5 | 2 2 0\n\
    8 | taken 7 | 3 1 0\n\
    9 | none | 3 1 0\n\
    +a | queued 2 | 1 4 0\n\
    10 | taken 4 | 2 3 0\n\
    10 | taken 5 | 3 2 0\n\
    10 | taken 7 | 4 1 0\n\
    10 | taken 9 | 5 0 0";

#[test]
fn a_straggler_rolls_back_later_messages(rt: HostRuntime) -> Result<(), Fail> {
    let mut queue = InputQueue::of_waiting(rt.alloc(), messages(rt.alloc(), &WAITING)?)?;
    play(&rt, &mut queue, [4, 2, 0, 1, 0, 0, 0, 0], A, A_STRAGGLER)?;
    queue.release(5);
    assert_eq!(rt; lens(&queue), [3, 0, 0]);
    queue.in_order();
    Ok(())
}
