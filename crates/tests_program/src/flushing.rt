// What a command reports to its progress, and the order in which a user sees it.

use crate::running::{RING, file, run, run_on};
use pictures::Row;
use program::Progress;
use std::alloc::AllocError;
use std::cell::Cell;
use std::fs;
use std::io::{self, Write};
use std::test::Fail;
use terminal::Cause;

/// What a run reports to its progress, a line for each call; and what a user sees, a digit each: 1
/// when the progress is cleared, 2 for the fault on standard error, in any number of writes, and 3
/// when the terminal gets the fault.
#[derive(Drop)]
struct Course<'a> {
    lines: Vec<u8>,
    seen: &'a Cell<u32>,
}

impl Course<'_> {
    fn note(&self, kind: u32) {
        let seen = self.seen.get();
        if seen % 10 != kind {
            self.seen.set(seen.wrapping_mul(10).wrapping_add(kind));
        }
    }
}

impl Progress for Course<'_> {
    fn begin(&mut self, end: u64) {
        let _ = writeln!(self.lines, "a run to {end}");
    }

    fn waiting(&mut self, _nodes: &[usize]) {}

    fn committed(&mut self, time: u64, events: usize) {
        let _ = writeln!(self.lines, "committed {time} events {events}");
    }

    fn stored(&mut self, used: u32, sectors: u32) {
        let _ = writeln!(self.lines, "{used} of {sectors} sectors");
    }

    fn turned(&mut self, turn: &Row) {
        let (round, node, handled) = (turn.round, turn.node, turn.handled);
        let _ = writeln!(self.lines, "round {round} node {node} handled {handled}");
    }

    fn clear(&mut self) {
        self.note(1);
    }

    fn finished(&mut self) {
        let _ = writeln!(self.lines, "finished");
    }

    fn is_seen(&self) -> bool {
        false
    }

    fn failed(&mut self, _advice: Option<&'static str>, _cause: Option<Cause<'_>>) {
        self.note(3);
    }
}

impl Write for Course<'_> {
    fn write(&mut self, buf: &[u8]) -> io::Result<usize> {
        self.note(2);
        Ok(buf.len())
    }

    fn flush(&mut self) -> io::Result<()> {
        Ok(())
    }
}

/// Runs a command. Returns its status, what it reports, and what a user sees of it.
fn course_of(rt: &HostRuntime, words: &[&str]) -> (u8, Vec<u8>, u32) {
    let seen = Cell::new(0);
    let mut course = Course {
        lines: Vec::new(rt.alloc()),
        seen: &seen,
    };
    let mut err = Course {
        lines: Vec::new(rt.alloc()),
        seen: &seen,
    };
    let mut out = Vec::new(rt.alloc());
    let status = run_on(rt, words, &mut course, &mut out, &mut err);
    let Course { lines, .. } = course;
    (status, lines, seen.get())
}

#[test]
fn a_fault_is_printed_between_progress_and_advice(rt: HostRuntime) {
    let (status, _, seen) = course_of(&rt, &["timewarp", "seq", "timewarp-missing.toml"]);
    assert_eq!(rt; (status, seen), (1, 123));
}

/// What a run without or with a trace reports.
const COURSE: &str = "\
a run to 10
2 of 64 sectors
round 1 node 0 handled 1
round 1 node 1 handled 1
round 1 node 2 handled 1
committed 1 events 0
4 of 64 sectors
round 2 node 0 handled 1
round 2 node 1 handled 1
round 2 node 2 handled 0
committed 7 events 3
6 of 64 sectors
round 3 node 0 handled 0
round 3 node 1 handled 0
round 3 node 2 handled 0
committed 10 events 5
8 of 64 sectors
finished
";

/// Whether a run on a new disk succeeds without a word on standard error, and reports that.
fn is_reported(
    rt: &HostRuntime,
    model: &str,
    disk: &str,
    words: &[&str],
) -> Result<bool, AllocError> {
    let _ = fs::remove_file(rt, disk);
    let made = run(rt, &["timewarp", "new", model, disk, "--sectors", "64"])?;
    let (status, lines, seen) = course_of(rt, words);
    let is_right = status == 0 && seen <= 1 && lines.as_slice() == COURSE.as_bytes();
    Ok(is_right && made.status == 0)
}

#[test]
fn a_run_reports_its_turns_its_commits_and_its_room(rt: HostRuntime) -> Result<(), Fail> {
    let model = file(&rt, "timewarp-flushed-model.toml", Some(RING))?;
    let trace = file(&rt, "timewarp-flushed-trace", None)?;
    let disk = file(&rt, "timewarp-flushed-disk", None)?;
    let (model, trace, disk) = (model.as_str(), trace.as_str(), disk.as_str());
    let run = ["timewarp", "run", model, disk, "--nodes", "3"];
    assert!(rt; is_reported(&rt, model, disk, &run)?);
    let traced = [
        "timewarp", "run", model, disk, "--nodes", "3", "--trace", trace,
    ];
    assert!(rt; is_reported(&rt, model, disk, &traced)?);
    fs::remove_file(&rt, trace)?;
    Ok(fs::remove_file(&rt, disk)?)
}
