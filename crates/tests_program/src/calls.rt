// What is reported of a run, as a text.

use pictures::Row;
use program::{Fault, Progress};
use terminal::Way;

/// A turn with these numbers of handled messages, of reported records, and of antimessages.
pub fn turn(handled: u64, reported: u64, antimessages: u64) -> Row {
    Row {
        round: 1,
        node: 0,
        budget: 16,
        gvt: 0,
        delivered: antimessages,
        antimessages,
        handled,
        sent: 0,
        reported,
        committed: 0,
        events: 0,
    }
}

/// The numbers of a text, and how many they are; six are read at most.
fn numbers_of(text: &str) -> ([u32; 6], usize) {
    let mut numbers = [0; 6];
    let mut count = 0;
    for word in text.split(' ') {
        if let (Ok(number), true) = (word.parse::<u32>(), count < 6) {
            numbers[count] = number;
            count += 1;
        }
    }
    (numbers, count)
}

/// Reports that a run waits for the first nodes of these numbers.
fn wait<P: Progress>(shown: &mut P, numbers: &[u32; 6], count: usize) {
    let [a, b, c, d, e, f] = *numbers;
    let nodes = [
        a as usize, b as usize, c as usize, d as usize, e as usize, f as usize,
    ];
    shown.waiting(nodes.get(..count).unwrap_or(&[]));
}

/// Reports what has this name, with these numbers.
fn report<P: Progress>(shown: &mut P, name: &str, numbers: &[u32; 6]) {
    let [a, b, c, ..] = *numbers;
    let (time, events) = (u64::from(a), b as usize);
    match name {
        "every" => shown.every(a),
        "advised" => shown.with_advice(),
        "begin" => shown.begin(time),
        "other" => shown.takes(Way::Other),
        "one" => shown.takes(Way::OneProcess),
        "plain" => shown.takes(Way::Plain { processors: a }),
        "opened" => shown.opened(time, events),
        "turned" => shown.turned(&turn(time, u64::from(b), u64::from(c))),
        "committed" => shown.committed(time, events),
        "stored" => shown.stored(a, b),
        "stopped" => shown.stopped("halt", time),
        "clear" => shown.clear(),
        "finished" => shown.finished(),
        "failed" => shown.failed(Fault::Rounds.advice(), None),
        _ => {}
    }
}

/// Makes the calls of a text, each a name and its numbers; numbers that are missing are 0.
pub fn make_calls<P: Progress>(shown: &mut P, calls: &str) {
    for call in calls.split(", ") {
        let (name, rest) = call.split_once(' ').unwrap_or((call, ""));
        let (numbers, count) = numbers_of(rest);
        if name == "waiting" {
            wait(shown, &numbers, count);
        } else {
            report(shown, name, &numbers);
        }
    }
}
