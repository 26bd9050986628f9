// What a run says of a faster way, on a terminal and with advice.

use crate::calls::{make_calls, turn};
use crate::running::Ticking;
use program::{Progress, TerminalProgress};
use std::alloc::Global;
use std::io::Write;

/// How runs are made, the milliseconds of work in half a second, and the messages of a turn, with
/// what they say of a faster way. It is measured over two of the times between the readings and two
/// turns. Nothing is said of runs on one processor, with cheaper handlings, and with commits of
/// fewer events; of one that mostly waits; and of one that is made otherwise.
const RUNS: &str = "\
one, 300, 1000000: run --plain would be faster here: one process, 0.3 microseconds a handling
plain 4, 210, 5000: run --sockets --overlap would be faster here: \
42 microseconds a handling, 4 processors
plain 1, 210, 5000:
plain 4, 49, 5000:
plain 4, 210, 1000:
plain 4, 210, 0:
one, 300, 0:
one, 10, 1000000:
other, 210, 5000:
";

/// The number of a text.
fn number(text: Option<&str>) -> u64 {
    text.unwrap_or("").parse::<u32>().map_or(0, u64::from)
}

/// Shows nine commits of a run to its end, each after a turn in which this many messages are
/// handled and reported.
fn show<P: Progress>(shown: &mut P, handled: u64) {
    for commit in 1..10 {
        shown.turned(&turn(handled, handled, 0));
        shown.committed(100 * commit, 30 * commit as usize);
    }
}

/// What a run says after these calls, and the number of looks at the clock.
fn said(alloc: Global, run: &str, before: &str) -> (Vec<u8>, u32) {
    let mut words = run.split(", ");
    let way = words.next().unwrap_or("");
    let clock = Ticking::new(500, number(words.next()));
    let mut err = Vec::new(alloc);
    let mut shown = TerminalProgress::in_lines(&clock, &mut err);
    make_calls(&mut shown, before);
    make_calls(&mut shown, "begin 900");
    make_calls(&mut shown, way);
    make_calls(&mut shown, "opened");
    show(&mut shown, number(words.next()));
    (err, clock.looks.get())
}

/// Whether the run of a row says what stands there, if advice is asked for.
fn says(alloc: Global, row: &str) -> bool {
    let (run, text) = row.split_once(':').unwrap_or((row, ""));
    let mut line = Vec::new(alloc);
    if !text.is_empty() {
        let _ = writeln!(line, "timewarp:{text}");
    }
    said(alloc, run, "advised").0.as_slice() == line.as_slice()
}

/// Whether the run of a row says nothing otherwise, without a look at the clock.
fn is_quiet(alloc: Global, row: &str) -> bool {
    let (run, _) = row.split_once(':').unwrap_or((row, ""));
    let (said, looks) = said(alloc, run, "");
    said.is_empty() && looks == 0
}

#[test]
fn a_run_says_once_which_way_would_be_faster(rt: HostRuntime) {
    for row in RUNS.lines() {
        assert!(rt; says(rt.alloc(), row), "{row}");
    }
}

#[test]
fn without_a_terminal_no_way_is_named_unless_advice_is_asked_for(rt: HostRuntime) {
    for row in RUNS.lines() {
        assert!(rt; is_quiet(rt.alloc(), row), "{row}");
    }
}

/// What a terminal shows up to the second commit.
const SHOWN: &str = "\
    circuit: run --plain would be faster here: one process, 0.6 microseconds a handling\n\
    \rcommitted 200 (22%), 60 events (30/s), 7 s to go, efficiency 100%\x1b[K\r\x1b[K";

#[test]
fn a_terminal_shows_the_faster_way_above_the_progress(rt: HostRuntime) {
    let clock = Ticking::new(500, 300);
    let mut terminal = Vec::new(rt.alloc());
    let mut shown = TerminalProgress::on(&clock, Some(&mut terminal)).named("circuit");
    let calls = "begin 900, one, opened, turned 1000000 1000000, committed 100 30, \
                 turned 1000000 1000000, committed 200 60, clear";
    make_calls(&mut shown, calls);
    assert_eq!(rt; terminal.as_slice(), SHOWN.as_bytes());
}
