// The progress of a run, as a terminal shows it.

use crate::cause::Cause;
use crate::hints::{RunHint, Way, Work, hint_of};
use pictures::Row;
use std::fmt;
use std::io::{Result as IoResult, Write};
use std::time::{Clock, CpuClock, Duration};
use texts::Printable;

/// Receives the course of a run: the tick at which it ends, its progress, and what went wrong.
pub trait Progress {
    /// A run begins. It ends at this tick.
    fn begin(&mut self, end: u64);

    /// The command only reads a disk on which it commits nothing: its line says `read` in place of
    /// `committed`. Called at most once, before `begin`.
    fn reads(&mut self) {}

    /// Called once before a run: a line of progress is wanted every `seconds` seconds, at least 1,
    /// also where there is no terminal.
    fn every(&mut self, _seconds: u32) {}

    /// Called once before a command: its line asks for advice, also where there is no terminal.
    fn with_advice(&mut self) {}

    /// A run is made this way. Called once, before its disk is opened.
    fn takes(&mut self, _way: Way) {}

    /// What the disk of a run has at its beginning: all events before this virtual time, in ticks,
    /// `events` in all.
    fn opened(&mut self, _time: u64, _events: usize) {}

    /// The folder of a run's sockets is one in which every user may write. Called at most once, before
    /// node programs are met. The line about it is for the reader of what the run printed, also where
    /// there is no terminal.
    fn found_open(&mut self, _folder: &str) {}

    /// A run waits for the programs of these nodes to connect; the list is empty once all have.
    fn waiting(&mut self, nodes: &[usize]);

    /// All events before this virtual time, in ticks, are committed; the log has `events` of them.
    /// Called after each commit, before the checkpoint that may follow it.
    fn committed(&mut self, time: u64, events: usize);

    /// The log takes `used` of the disk's `sectors` sectors. One more is its closed gate, and the
    /// rest is free. Called at the beginning of a run, and after each commit and the checkpoint
    /// that may follow it.
    fn stored(&mut self, used: u32, sectors: u32);

    /// A node had its turn, which this row describes; its fields for earlier commits are 0. Called
    /// for each turn, when its reply is taken.
    fn turned(&mut self, turn: &Row);

    /// Something else is about to be printed: removes what is shown of the run.
    fn clear(&mut self);

    /// A run has reached its end, and its output is printed.
    fn finished(&mut self);

    /// A run has ended because this file is there. All events before this virtual time, in ticks,
    /// are committed. Its output comes next.
    fn stopped(&mut self, _file: &str, _time: u64) {}

    /// A run goes on after a fault: this line says after which, and how. It is for the reader of
    /// what the run printed, also where there is no terminal.
    fn goes_on(&mut self, _line: &str) {}

    /// Whether a user sees what is shown.
    fn is_seen(&self) -> bool;

    /// Whether nothing follows the fault of a command that no user sees: otherwise a second line says
    /// which file it is about, and what the system says.
    fn is_bare(&self) -> bool {
        true
    }

    /// A command has failed, and its fault is printed. There may be advice for it, and for `File`
    /// the cause may be known.
    fn failed(&mut self, advice: Option<&'static str>, cause: Option<Cause<'_>>);
}

/// Shows on one line of a terminal which nodes a run waits for, and its progress, at most twice a
/// second; then a summary of the run, and after a fault what to do about it. Once a run has taken a
/// second, and a tenth of one of the processor, a line says at its next commit which other way
/// would be faster, if one would, by what was measured until then. Where there is no terminal, it
/// writes a line of progress at the interval that is asked for, after which faults a run goes on,
/// which file ended it, and with advice the faster way. A folder of sockets that is open to every user
/// is warned of in any case.
#[derive(Drop)]
pub struct TerminalProgress<'c, C, T> {
    clock: &'c C,
    // The name of the program, before a line that is not about the run itself.
    name: &'c str,
    terminal: Option<T>,
    // What gets whole lines instead of the terminal, and the time between two of progress.
    lines: Option<T>,
    every: Option<Duration>,
    // Whether advice is wanted where there is no terminal, and whether nothing follows a fault there.
    is_advised: bool,
    is_bare: bool,
    // How the run is made, until it is known whether another way would be faster, and the first
    // opening of its disk.
    way: Option<Way>,
    begun: Option<Moment>,
    // What was done up to the time of a line: `committed` or `read`.
    done: &'static str,
    end: u64,
    // The virtual time of the last commit, in ticks.
    time: u64,
    // The first commit of the run, and the commit since which the next rates are measured.
    first: Option<Mark>,
    last: Option<Mark>,
    // The sectors of the disk in use, and all of them; both are 0 if unknown.
    used: u64,
    sectors: u64,
    // The totals over all turns and commits of the run.
    totals: Totals,
    is_written: bool,
}

/// A commit: when it was made, its virtual time in ticks, the events in the log, and the
/// antimessages delivered until then.
#[derive(Clone, Copy)]
struct Mark {
    at: Duration,
    time: u64,
    events: usize,
    antimessages: u64,
}

/// A moment by two clocks: the time, and the processor time that the process has used.
#[derive(Clone, Copy)]
struct Moment {
    at: Duration,
    used: Duration,
}

/// Totals over the turns and commits of a run.
#[derive(Clone, Copy)]
struct Totals {
    /// Messages handled, including those rolled back.
    handled: u64,
    /// Records reported, which no rollback can reach any more.
    reported: u64,
    /// Antimessages delivered.
    antimessages: u64,
    /// Commits made.
    commits: u64,
    /// Events in the log.
    events: usize,
}

const NOTHING: Totals = Totals {
    handled: 0,
    reported: 0,
    antimessages: 0,
    commits: 0,
    events: 0,
};

impl Totals {
    /// Reported records as a percentage of handled messages; `None` if none were handled.
    fn efficiency(self) -> Option<u128> {
        if self.handled == 0 {
            return None;
        }
        Some(u128::from(self.reported) * 100 / u128::from(self.handled))
    }
}

impl<'c, C: Clock + CpuClock, T: Write> TerminalProgress<'c, C, T> {
    /// Shows progress on this terminal, if there is one.
    pub fn on(clock: &'c C, terminal: Option<T>) -> TerminalProgress<'c, C, T> {
        TerminalProgress::to(clock, terminal, None)
    }

    /// Writes lines of progress to `lines`, which is no terminal, once `every` asks for them.
    pub fn in_lines(clock: &'c C, lines: T) -> TerminalProgress<'c, C, T> {
        TerminalProgress::to(clock, None, Some(lines))
    }

    /// The same for the program of this name, which is `timewarp` otherwise.
    pub fn named(self, name: &'c str) -> TerminalProgress<'c, C, T> {
        let mut named = self;
        named.name = name;
        named
    }

    /// The same with nothing behind a fault where there is no terminal.
    pub fn bare(self) -> TerminalProgress<'c, C, T> {
        let mut bare = self;
        bare.is_bare = true;
        bare
    }

    fn to(clock: &'c C, terminal: Option<T>, lines: Option<T>) -> TerminalProgress<'c, C, T> {
        TerminalProgress {
            clock,
            name: "timewarp",
            terminal,
            lines,
            every: None,
            is_advised: false,
            is_bare: false,
            way: None,
            begun: None,
            done: "committed",
            end: 0,
            time: 0,
            first: None,
            last: None,
            used: 0,
            sectors: 0,
            totals: NOTHING,
            is_written: false,
        }
    }

    /// The time between two lines of progress; none if there are no such lines.
    fn pause(&self) -> Option<Duration> {
        match self.terminal {
            Some(_) => Some(Duration::from_millis(500)),
            None => self.every,
        }
    }

    /// Notes the time, after a commit or a turn, and shows the progress if it is time for that. At
    /// the end of a run removes what is shown, since its output comes next.
    fn note(&mut self, is_over: bool) {
        let Some(pause) = self.pause() else {
            return;
        };
        let Ok(at) = self.clock.monotonic() else {
            return;
        };
        let now = Mark {
            at,
            time: self.time,
            events: self.totals.events,
            antimessages: self.totals.antimessages,
        };
        let first = self.first.unwrap_or(now);
        let last = self.last.unwrap_or(now);
        self.first = Some(first);
        if is_over {
            self.clear();
            self.last = Some(now);
        } else if at.saturating_sub(last.at) < pause {
            self.last = Some(last);
        } else {
            self.show(first, last, now);
            self.last = Some(now);
        }
    }

    /// Shows the progress at the moment `now`, with rates since `last` and the time left by the pace
    /// since `first`.
    fn show(&mut self, first: Mark, last: Mark, now: Mark) {
        let line = Line {
            done: self.done,
            first,
            last,
            now,
            end: self.end,
            used: self.used,
            sectors: self.sectors,
            totals: self.totals,
        };
        if let Some(terminal) = &mut self.terminal {
            let _ = terminal.write_all(b"\r");
            line.write(COLUMNS, terminal);
            let _ = terminal.write_all(b"\x1b[K");
            let _ = terminal.flush();
            self.is_written = true;
        } else if let Some(lines) = &mut self.lines {
            line.write(usize::MAX, lines);
            let _ = lines.write_all(b"\n");
            let _ = lines.flush();
        }
    }

    /// Notes when a run begins for which there may be a hint. One that goes on after a fault began
    /// earlier.
    fn begin_measuring(&mut self) {
        if self.way.is_none() || self.begun.is_some() {
            return;
        }
        if let (Ok(at), Ok(used)) = (self.clock.monotonic(), self.clock.process_cpu_time()) {
            self.begun = Some(Moment { at, used });
        }
    }

    /// Says which way would be faster, once the run has been measured for a second.
    fn hint(&mut self) {
        let (Some(way), Some(begun)) = (self.way, self.begun) else {
            return;
        };
        let Ok(at) = self.clock.monotonic() else {
            return;
        };
        if at.saturating_sub(begun.at) < Duration::from_secs(1) {
            return;
        }
        let Ok(used) = self.clock.process_cpu_time() else {
            return;
        };
        let taken = used.saturating_sub(begun.used).as_nanos();
        if taken < LEAST {
            return;
        }
        self.way = None;
        let work = Work {
            nanoseconds: u64::try_from(taken).unwrap_or(u64::MAX),
            handled: self.totals.handled,
            commits: self.totals.commits,
        };
        if let Some(hint) = hint_of(way, work) {
            self.write_hint(hint);
        }
    }

    fn write_hint(&mut self, hint: RunHint) {
        self.clear();
        let name = self.name;
        if let Some(terminal) = &mut self.terminal {
            let _ = writeln!(terminal, "{name}: {hint}");
        } else if let Some(lines) = &mut self.lines {
            let _ = writeln!(lines, "{name}: {hint}");
        }
    }
}

/// The least processor time that says something of a handling, in nanoseconds. A run that has taken
/// less has mostly waited for its disk.
const LEAST: u128 = 100_000_000;

/// What a line of progress says.
#[derive(Clone, Copy)]
struct Line {
    done: &'static str,
    first: Mark,
    last: Mark,
    now: Mark,
    end: u64,
    used: u64,
    sectors: u64,
    totals: Totals,
}

impl Line {
    /// Writes the line without its end. Leaves out the first part that does not fit in `most`
    /// columns, and what follows it.
    fn write<T: Write>(&self, most: usize, out: &mut T) {
        let Line {
            done,
            first,
            last,
            now,
            end,
            used,
            sectors,
            totals,
        } = *self;
        let past = now.at.saturating_sub(last.at).as_millis().max(1);
        let percent = u128::from(now.time) * 100 / u128::from(end.max(1));
        let events = now.events;
        let rate = per_second(events.saturating_sub(last.events) as u128, past);
        let begin = Part::Done {
            done,
            time: now.time,
            percent,
            events,
            rate,
        };
        let mut columns = begin.columns();
        let _ = write!(out, "{begin}");
        let undone = now.antimessages.saturating_sub(last.antimessages);
        for part in [
            seconds_left(first, now, end).map(Part::Left),
            totals.efficiency().map(Part::Efficiency),
            percent_of(used, sectors).map(Part::Disk),
            Some(Part::Undone(per_second(u128::from(undone), past))),
        ] {
            if let Some(part) = part {
                columns = columns.saturating_add(part.columns());
                if columns <= most {
                    let _ = write!(out, "{part}");
                }
            }
        }
    }
}

/// A part of a line of progress.
#[derive(Clone, Copy)]
enum Part {
    /// What is committed or read: all events before this virtual time, in ticks and as a percentage,
    /// and how many events; and events per second. First in the line, since it is what a user wants
    /// to know where a signal ended the run.
    Done {
        done: &'static str,
        time: u64,
        percent: u128,
        events: usize,
        rate: u128,
    },
    /// The seconds to the end.
    Left(u128),
    /// Reported records as a percentage of handled messages.
    Efficiency(u128),
    /// The sectors in use as a percentage of all.
    Disk(u128),
    /// Antimessages per second.
    Undone(u128),
}

impl Part {
    /// The number of columns that it takes: it has ASCII characters alone.
    fn columns(&self) -> usize {
        let mut counted = Counted { bytes: 0 };
        let _ = write!(counted, "{self}");
        counted.bytes
    }
}

impl fmt::Display for Part {
    fn fmt<W: fmt::Write>(&self, f: &mut fmt::Formatter<W>) -> fmt::Result {
        match *self {
            Part::Done {
                done,
                time,
                percent,
                events,
                rate,
            } => write!(f, "{done} {time} ({percent}%), {events} events ({rate}/s)"),
            Part::Left(seconds) => write!(f, ", {seconds} s to go"),
            Part::Efficiency(percent) => write!(f, ", efficiency {percent}%"),
            Part::Disk(percent) => write!(f, ", disk {percent}% full"),
            Part::Undone(rate) => write!(f, ", {rate} antimessages/s"),
        }
    }
}

/// Counts the bytes that are written to it.
#[derive(Drop)]
struct Counted {
    bytes: usize,
}

impl Write for Counted {
    fn write(&mut self, buf: &[u8]) -> IoResult<usize> {
        self.bytes = self.bytes.saturating_add(buf.len());
        Ok(buf.len())
    }

    fn flush(&mut self) -> IoResult<()> {
        Ok(())
    }
}

/// The warning of a folder of sockets in which every user may write. Its text cannot control a
/// terminal.
#[derive(Clone, Copy)]
struct Open<'a>(&'a str);

impl fmt::Display for Open<'_> {
    fn fmt<W: fmt::Write>(&self, f: &mut fmt::Formatter<W>) -> fmt::Result {
        let folder = Printable(self.0);
        write!(
            f,
            "{folder}: every user may write in this folder, and so put a socket in the place of a \
             node's: use a folder of mode 700"
        )
    }
}

/// The maximum number of columns in a line of progress, so that it does not wrap on most terminals.
const COLUMNS: usize = 79;

/// The rate per second of `count` items in this many milliseconds.
fn per_second(count: u128, milliseconds: u128) -> u128 {
    count.saturating_mul(1000) / milliseconds.max(1)
}

/// The sectors in use as a percentage of all; `None` if their number is unknown.
fn percent_of(used: u64, sectors: u64) -> Option<u128> {
    if sectors == 0 {
        return None;
    }
    Some(u128::from(used) * 100 / u128::from(sectors))
}

/// The seconds left until `end` by the pace since the first commit; `None` without progress since.
fn seconds_left(first: Mark, now: Mark, end: u64) -> Option<u128> {
    let done = now.time.saturating_sub(first.time);
    if done == 0 {
        return None;
    }
    let past = now.at.saturating_sub(first.at).as_millis();
    let left = end.saturating_sub(now.time);
    Some(past.saturating_mul(u128::from(left)) / u128::from(done) / 1000)
}

/// The maximum number of awaited nodes that are named, so that the line fits most terminals.
const NAMED: usize = 4;

impl<C: Clock + CpuClock, T: Write> Progress for TerminalProgress<'_, C, T> {
    fn begin(&mut self, end: u64) {
        self.end = end;
    }

    fn reads(&mut self) {
        self.done = "read";
    }

    fn every(&mut self, seconds: u32) {
        self.every = Some(Duration::from_secs(u64::from(seconds)));
    }

    fn with_advice(&mut self) {
        self.is_advised = true;
    }

    fn takes(&mut self, way: Way) {
        if self.is_advised || self.is_seen() {
            self.way = Some(way);
        }
    }

    fn opened(&mut self, time: u64, events: usize) {
        self.time = time;
        self.totals.events = events;
        self.begin_measuring();
        if self.terminal.is_none() {
            self.note(false);
        }
    }

    fn found_open(&mut self, folder: &str) {
        self.clear();
        let warning = Open(folder);
        if let Some(terminal) = &mut self.terminal {
            let _ = writeln!(terminal, "{warning}");
        } else if let Some(lines) = &mut self.lines {
            let _ = writeln!(lines, "{warning}");
        }
    }

    fn waiting(&mut self, nodes: &[usize]) {
        if nodes.is_empty() {
            self.clear();
            return;
        }
        let Some(terminal) = &mut self.terminal else {
            return;
        };
        let _ = terminal.write_all(b"\rwaits for");
        for (place, node) in nodes.iter().take(NAMED).enumerate() {
            let comma = if place == 0 { "" } else { "," };
            let _ = write!(terminal, "{comma} node {node}");
        }
        let more = nodes.len().saturating_sub(NAMED);
        if more > 0 {
            let _ = write!(terminal, " and {more} more");
        }
        let _ = terminal.write_all(b"\x1b[K");
        let _ = terminal.flush();
        self.is_written = true;
    }

    fn committed(&mut self, time: u64, events: usize) {
        self.totals.commits = self.totals.commits.saturating_add(1);
        self.totals.events = events;
        self.time = time;
        self.note(time >= self.end);
        self.hint();
    }

    fn stored(&mut self, used: u32, sectors: u32) {
        self.used = u64::from(used) + 1;
        self.sectors = u64::from(sectors);
    }

    fn turned(&mut self, turn: &Row) {
        let totals = &mut self.totals;
        totals.handled = totals.handled.saturating_add(turn.handled);
        totals.reported = totals.reported.saturating_add(turn.reported);
        totals.antimessages = totals.antimessages.saturating_add(turn.antimessages);
        if self.terminal.is_none() {
            self.note(false);
        }
    }

    fn clear(&mut self) {
        if self.is_written {
            self.is_written = false;
            if let Some(terminal) = &mut self.terminal {
                let _ = terminal.write_all(b"\r\x1b[K");
                let _ = terminal.flush();
            }
        }
    }

    fn finished(&mut self) {
        let (Some(terminal), Some(first), Some(last)) = (&mut self.terminal, self.first, self.last)
        else {
            return;
        };
        let Totals {
            handled,
            reported: _,
            antimessages,
            commits,
            events,
        } = self.totals;
        let past = last.at.saturating_sub(first.at).as_millis();
        let seconds = past / 1000;
        let tenths = past / 100 % 10;
        let _ = writeln!(
            terminal,
            "{events} events, {commits} commits in {seconds}.{tenths} seconds"
        );
        if let Some(efficiency) = self.totals.efficiency() {
            let _ = writeln!(
                terminal,
                "{handled} messages handled, efficiency {efficiency}%, {antimessages} antimessages"
            );
        }
        let (used, sectors) = (self.used, self.sectors);
        if sectors > 0 {
            let _ = writeln!(terminal, "{used} of {sectors} sectors of the disk are used");
        }
    }

    fn goes_on(&mut self, line: &str) {
        self.clear();
        if let Some(terminal) = &mut self.terminal {
            let _ = writeln!(terminal, "{line}");
        } else if let Some(lines) = &mut self.lines {
            let _ = writeln!(lines, "{line}");
        }
    }

    fn stopped(&mut self, file: &str, time: u64) {
        self.clear();
        let file = Printable(file);
        if let Some(terminal) = &mut self.terminal {
            let _ = writeln!(terminal, "stopped by {file} at {time}");
        } else if let Some(lines) = &mut self.lines {
            let _ = writeln!(lines, "stopped by {file} at {time}");
        }
    }

    fn is_seen(&self) -> bool {
        self.terminal.is_some()
    }

    fn is_bare(&self) -> bool {
        self.is_bare || self.lines.is_none()
    }

    fn failed(&mut self, advice: Option<&'static str>, cause: Option<Cause<'_>>) {
        let Some(terminal) = &mut self.terminal else {
            return;
        };
        if let Some(cause) = cause {
            let _ = writeln!(terminal, "{cause}");
        } else if let Some(advice) = advice {
            let _ = writeln!(terminal, "{advice}");
        }
    }
}
