// What a terminal shows of a run.

use crate::calls::make_calls;
use crate::running::Ticking;
use program::TerminalProgress;
use std::alloc::Global;

/// Whether a terminal shows this when these calls are made, with 200 milliseconds between two looks
/// at the clock.
fn shows(alloc: Global, calls: &str, text: &str) -> bool {
    shows_after(alloc, calls, "", text)
}

/// The same for calls and then some more.
fn shows_after(alloc: Global, calls: &str, more: &str, text: &str) -> bool {
    let clock = Ticking::new(200, 0);
    let mut terminal = Vec::new(alloc);
    let mut shown = TerminalProgress::on(&clock, Some(&mut terminal));
    make_calls(&mut shown, calls);
    make_calls(&mut shown, more);
    terminal.as_slice() == text.as_bytes()
}

#[test]
fn progress_is_shown_twice_a_second_and_then_cleared(rt: HostRuntime) {
    let calls = "begin 1000, committed, committed 100 30, committed 200 60, committed 300 90, \
                 committed 400 120, committed 500 150, committed 600 180, clear";
    let text = "\rcommitted 300 (30%), 90 events (150/s), 1 s to go, 0 antimessages/s\x1b[K\
         \rcommitted 600 (60%), 180 events (150/s), 0 s to go, 0 antimessages/s\x1b[K\r\x1b[K";
    assert!(rt; shows(rt.alloc(), calls, text));
    let clock = Ticking::new(200, 0);
    let mut unseen = TerminalProgress::on(&clock, None::<Vec<u8>>);
    make_calls(&mut unseen, "begin 10, committed 10 5, clear, failed");
}

#[test]
fn progress_is_cleared_at_the_end_of_a_run(rt: HostRuntime) {
    let calls = "begin 400, committed, committed 100 30, committed 200 60, committed 300 90, \
                 committed 400 120, clear";
    let text =
        "\rcommitted 300 (75%), 90 events (150/s), 0 s to go, 0 antimessages/s\x1b[K\r\x1b[K";
    assert!(rt; shows(rt.alloc(), calls, text));
}

/// A run with five commits, from its start to its end.
const RUN: &str = "begin 40, stored 2 64, \
    turned 40 30 3, committed, stored 4 64, turned 40 30 3, committed 10 30, stored 6 64, \
    turned 40 30 3, committed 20 60, stored 8 64, turned 40 30 3, committed 30 90, stored 10 64, \
    turned 40 30 3, committed 40 120, stored 12 64, finished";

/// The end of what the terminal shows of it.
const SUMMED_UP: &str = "\
    \rcommitted 30 (75%), 90 events (150/s), 0 s to go, efficiency 75%, disk 14% full\x1b[K\
    \r\x1b[K120 events, 5 commits in 0.8 seconds\n\
    200 messages handled, efficiency 75%, 15 antimessages\n\
    13 of 64 sectors of the disk are used\n";

#[test]
fn a_run_is_summed_up_at_its_end(rt: HostRuntime) {
    assert!(rt; shows(rt.alloc(), RUN, SUMMED_UP));
}

#[test]
fn antimessages_are_shown_if_there_is_room(rt: HostRuntime) {
    let calls = "begin 9, turned 0 0 3, committed 1 1, turned 0 0 3, committed 1 1, \
                 turned 0 0 3, committed 1 1, turned 0 0 3, committed 1 1";
    let text = "\rcommitted 1 (11%), 1 events (0/s), 15 antimessages/s\x1b[K";
    assert!(rt; shows(rt.alloc(), calls, text));
}

/// A run of 2.2 seconds by the clock that a file ends.
const STOPPED: &str = "begin 1000, stored 2 64, opened 100 30, \
    turned 40 30 2, turned 40 30 2, turned 40 30 2, committed 200 60, turned 40 30 2, \
    turned 40 30 2, turned 40 30 2, turned 40 30 2, committed 200 60, turned 40 30 2, \
    committed 400 90, waiting, stopped, failed";

/// Its lines, one for each second.
const LINES: &str = "\
    committed 200 (20%), 60 events (30/s), 8 s to go, efficiency 75%, disk 4% full, \
    8 antimessages/s\n\
    committed 200 (20%), 60 events (0/s), 16 s to go, efficiency 75%, disk 4% full, \
    8 antimessages/s\n\
    stopped by halt at 0\n";

/// Whether these lines are printed of it where there is no terminal, after these calls.
fn prints(alloc: Global, before: &str, lines: &str) -> bool {
    let clock = Ticking::new(200, 0);
    let mut err = Vec::new(alloc);
    let mut shown = TerminalProgress::in_lines(&clock, &mut err);
    make_calls(&mut shown, before);
    make_calls(&mut shown, STOPPED);
    err.as_slice() == lines.as_bytes()
}

#[test]
fn lines_of_progress_are_printed_where_there_is_no_terminal(rt: HostRuntime) {
    assert!(rt; prints(rt.alloc(), "", "stopped by halt at 0\n"));
    assert!(rt; prints(rt.alloc(), "every 1", LINES));
}

#[test]
fn a_terminal_shows_which_file_ended_a_run(rt: HostRuntime) {
    let calls = "every 1, begin 9, opened, committed 1 1, committed 1 1, committed 1 1, \
                 committed 1 1, stopped";
    let text = "\rcommitted 1 (11%), 1 events (0/s), 0 antimessages/s\x1b[K\
         \r\x1b[Kstopped by halt at 0\n";
    assert!(rt; shows(rt.alloc(), calls, text));
}

/// A run up to its fourth commit.
const FOURTH: &str = "begin 9, stored 6 64, turned 0 0 3, committed 1, turned 0 0 3, committed 1, \
    turned 0 0 3, committed 1, turned 0 0 3";

// A line of full width, and one that leaves out a part that would make it a column wider.
#[test]
fn a_line_has_at_most_79_columns(rt: HostRuntime) {
    let line =
        "\rcommitted 1 (11%), 1000000 events (1666666/s), disk 10% full, 15 antimessages/s\x1b[K";
    assert!(rt; shows_after(rt.alloc(), FOURTH, "committed 1 1000000", line));
    let line = "\rcommitted 1 (11%), 7000000 events (11666666/s), disk 10% full\x1b[K";
    assert!(rt; shows_after(rt.alloc(), FOURTH, "committed 1 7000000", line));
}

#[test]
fn awaited_nodes_are_shown_until_all_are_connected(rt: HostRuntime) {
    let calls = "waiting, waiting 0 1 2 5 9 63, waiting 0 1 2 63, waiting 0 2, waiting, waiting";
    let text = "\rwaits for node 0, node 1, node 2, node 5 and 2 more\x1b[K\
         \rwaits for node 0, node 1, node 2, node 63\x1b[K\
         \rwaits for node 0, node 2\x1b[K\r\x1b[K";
    assert!(rt; shows(rt.alloc(), calls, text));
    let clock = Ticking::new(200, 0);
    let mut unseen = TerminalProgress::on(&clock, None::<Vec<u8>>);
    make_calls(&mut unseen, "waiting 0, waiting");
}
