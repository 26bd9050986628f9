// The trace of a run: a file with a row for each turn of a node.

ghost use Rattle.std.specs.Prelude.{◌≡◌};
ghost use Rattle.terminal.specs.Trace.{row_behind};

use crate::cause::Cause;
use crate::hints::Way;
use crate::progress::Progress;
use pictures::{Row, read_rows, write_names, write_turn};
use std::alloc::AllocError;
use std::fs::{self, File, OpenOptions};
use std::io::{
    BufWriter, Error as IoError, ErrorKind, Read, Result as IoResult, Seek, SeekFrom, Write,
};
use std::os::unix::fs::FileTypeExt;
use std::rt::Files;
use std::{mem, str};

/// Passes all calls on to another `Progress`, and writes a row for each turn of a node, after the
/// rows of earlier runs of the same disk. A trace of other runs stays as it is until the new one is
/// whole.
#[derive(Drop)]
pub struct Traced<'p, P> {
    progress: &'p mut P,
    file: TraceFile,
    // Whether the disk has been opened, as it is again where a run goes on after a fault.
    is_begun: bool,
    // Whether a row could not be written. No other is tried after it.
    is_lost: bool,
    // How many rounds earlier runs and attempts made, and the last round of this trace.
    rounds: u64,
    round: u64,
    // The last commit's time in ticks, and the number of events in the log; and whether no row has
    // them yet.
    time: u64,
    events: usize,
    is_new: bool,
}

/// Why the file of a trace is not opened.
#[derive(Drop)]
pub enum NoTrace {
    /// The file holds something else than a trace.
    Other,
    /// So does the file under whose name a trace is made anew.
    OtherUnfinished,
    /// A call of the system failed, or an allocation.
    System(IoError),
}

impl From<IoError> for NoTrace {
    fn from(error: IoError) -> NoTrace {
        NoTrace::System(error)
    }
}

/// The file of a trace, opened for writing. If it has a trace already, which may be of other runs, a
/// new one is made in a file beside it, which takes its name once it is whole.
#[derive(Drop)]
pub struct TraceFile {
    rows: BufWriter<File>,
    // The end of the trace that the file has, if it has one.
    earlier: Option<Earlier>,
    anew: Option<Anew>,
}

/// The file in which a trace is made anew.
#[derive(Drop)]
struct Anew {
    rows: BufWriter<File>,
    // The end of the trace that a killed run has left there.
    earlier: Option<Earlier>,
    // Its path, and that of the trace.
    unfinished: String,
    path: String,
    // Whether nothing was there before, and whether the rows are written to it.
    is_made: bool,
    is_used: bool,
}

/// The last row of a trace, and the number of bytes up to its end. A run that was killed may have
/// left a part of a row after it.
#[derive(Clone, Copy)]
struct Earlier {
    row: Row,
    bytes: u64,
}

/// What is under the name of a trace.
#[derive(Clone, Copy)]
enum Found {
    /// No file, or an empty one.
    Nothing,
    /// What is no plain file, such as a pipe.
    Stream,
    /// A trace, with its end if it has a row.
    Trace(Option<Earlier>),
    /// Anything else.
    Other,
}

impl TraceFile {
    /// Opens the file of a trace, which is made if it is not there. What is no plain file is written
    /// to as it is. Refuses a file that holds anything but a trace, a device of blocks, and a file
    /// under the name of the unfinished trace that is none. Nothing is written to a trace.
    pub fn open<R>(rt: &R, path: &str) -> Result<TraceFile, NoTrace>
    where
        R: Files<File = File> + AllocGlobal,
    {
        let mut anew = None;
        let mut earlier = None;
        match found_at(rt, path)? {
            Found::Nothing | Found::Stream => {}
            Found::Trace(found) => {
                earlier = found;
                anew = Some(Anew::beside(rt, path)?);
            }
            Found::Other => return Err(NoTrace::Other),
        }
        let rows = rows_to(rt, path)?;
        Ok(TraceFile {
            rows,
            earlier,
            anew,
        })
    }

    /// Takes the file in which a trace is made anew, unless the one that is there is of earlier runs
    /// of a disk with these commits. If both may be, the one with more events is.
    fn choose(&mut self, time: u64, events: usize) {
        let Some(anew) = &mut self.anew else {
            return;
        };
        let here = events_before(self.earlier, time, events);
        let there = events_before(anew.earlier, time, events);
        match (here, there) {
            (Some(_), None) => return,
            (Some(here), Some(there)) if here >= there => return,
            _ => {}
        }
        mem::swap(&mut self.rows, &mut anew.rows);
        self.earlier = anew.earlier;
        anew.is_used = true;
    }

    /// Begins after this number of bytes of the file, and cuts off what follows them. What is no
    /// file of bytes, such as a pipe, has nothing to cut off. Returns whether that is done.
    fn begin_behind(&mut self, bytes: u64) -> bool {
        let file = self.rows.get_mut();
        file.set_len(bytes).is_err() || file.seek(SeekFrom::Start(bytes)).is_ok()
    }

    /// Puts a trace that was made anew in the place of the earlier one, if it is whole; one that was
    /// not begun is removed. Returns whether that is done.
    fn finish<R: Files>(&mut self, rt: &R, is_whole: bool) -> bool {
        let Some(anew) = &self.anew else {
            return true;
        };
        let unfinished = anew.unfinished.as_str();
        if anew.is_used {
            return is_whole && fs::rename(rt, unfinished, anew.path.as_str()).is_ok();
        }
        if anew.is_made {
            let _left = fs::remove_file(rt, unfinished);
        }
        true
    }
}

impl Anew {
    /// Opens the file beside that of a trace, in the folder of the file to which the path leads.
    fn beside<R>(rt: &R, path: &str) -> Result<Anew, NoTrace>
    where
        R: Files<File = File> + AllocGlobal,
    {
        let path = real_path(rt, path).map_err(no_memory)?;
        let unfinished = format!(in rt.alloc(); "{path}.unfinished-trace").map_err(no_memory)?;
        if is_link(rt, unfinished.as_str()) {
            return Err(NoTrace::OtherUnfinished);
        }
        let (earlier, is_made) = match found_at(rt, unfinished.as_str())? {
            Found::Nothing => (None, true),
            Found::Trace(earlier) => (earlier, false),
            Found::Stream | Found::Other => return Err(NoTrace::OtherUnfinished),
        };
        let rows = rows_to(rt, unfinished.as_str())?;
        Ok(Anew {
            rows,
            earlier,
            unfinished,
            path,
            is_made,
            is_used: false,
        })
    }
}

/// Returns the path without links, or the path itself if the system does not say.
fn real_path<R>(rt: &R, path: &str) -> Result<String, AllocError>
where
    R: Files + AllocGlobal,
{
    match rt.canonicalize(rt.alloc(), path) {
        Ok(real) => String::from_str(rt.alloc(), real.as_str()),
        Err(_) => String::from_str(rt.alloc(), path),
    }
}

/// Whether this path is a link itself.
fn is_link<R: Files>(rt: &R, path: &str) -> bool {
    match fs::symlink_metadata(rt, path) {
        Ok(found) => found.is_symlink(),
        Err(_) => false,
    }
}

/// An allocation failure as an error of the system.
fn no_memory(_refused: AllocError) -> NoTrace {
    NoTrace::System(IoError::from(ErrorKind::OutOfMemory))
}

/// Opens a file to write rows, which is made if it is not there.
fn rows_to<R>(rt: &R, path: &str) -> IoResult<BufWriter<File>>
where
    R: Files<File = File> + AllocGlobal,
{
    let file = OpenOptions::new().write(true).create(true).open(rt, path)?;
    BufWriter::new(rt.alloc(), file)
}

/// Looks at what is under the name of a trace.
fn found_at<R>(rt: &R, path: &str) -> IoResult<Found>
where
    R: Files<File = File> + AllocGlobal,
{
    let found = match fs::metadata(rt, path) {
        Ok(found) => found,
        Err(error) if error.kind() == ErrorKind::NotFound => return Ok(Found::Nothing),
        Err(error) => return Err(error),
    };
    if found.file_type().is_block_device() {
        return Ok(Found::Other);
    }
    if !found.is_file() {
        return Ok(Found::Stream);
    }
    if found.len() == 0 {
        return Ok(Found::Nothing);
    }
    found_in(rt, path, found.len())
}

/// Looks at what a plain file of this many bytes holds: its first line, and its last 512 bytes.
fn found_in<R>(rt: &R, path: &str, bytes: u64) -> IoResult<Found>
where
    R: Files<File = File> + AllocGlobal,
{
    let mut names = Vec::new(rt.alloc());
    write_names(&mut names)?;
    let begin = names.len() as u64;
    if bytes < begin {
        return Ok(Found::Other);
    }
    let mut file = File::open(rt, path)?;
    let mut head = Vec::new(rt.alloc());
    if head.resize(names.len(), 0).is_err() {
        return Err(IoError::from(ErrorKind::OutOfMemory));
    }
    file.read_exact(&mut head)?;
    if head.as_slice() != names.as_slice() {
        return Ok(Found::Other);
    }
    let from = bytes.saturating_sub(512).max(begin);
    file.seek(SeekFrom::Start(from))?;
    let mut tail = Vec::new(rt.alloc());
    file.read_to_end(&mut tail)?;
    Ok(Found::Trace(earlier_in(rt, names, tail.as_slice(), bytes)))
}

/// Returns the end of a trace of this many bytes that begins with these names, by its last bytes;
/// none if it has no row.
fn earlier_in<R>(rt: &R, names: Vec<u8>, tail: &[u8], bytes: u64) -> Option<Earlier>
where
    R: AllocGlobal,
{
    let mut text = names;
    let (line, rest) = last_line(str::from_utf8(tail).ok()?)?;
    text.extend_from_slice(line.as_bytes()).ok()?;
    text.push(b'\n').ok()?;
    let row = *read_rows(rt.alloc(), &text).ok()?.last()?;
    let bytes = bytes.saturating_sub(rest.len() as u64);
    Some(Earlier { row, bytes })
}

impl Earlier {
    /// Whether the trace may be of earlier runs of a disk that has these commits: the disk has some,
    /// and its log is no shorter than that of the last row.
    fn is_before(self, time: u64, events: usize) -> bool {
        time > 0 && self.row.committed <= time && self.row.events <= events as u64
    }
}

/// The events in the last row of a trace that may be of earlier runs of a disk with these commits.
fn events_before(earlier: Option<Earlier>, time: u64, events: usize) -> Option<u64> {
    match earlier {
        Some(earlier) if earlier.is_before(time, events) => Some(earlier.row.events),
        _ => None,
    }
}

/// Returns the last line that ends, and what follows it.
fn last_line(text: &str) -> Option<(&str, &str)> {
    let mut line = None;
    let mut rest = None;
    for piece in text.split('\n') {
        line = rest;
        rest = Some(piece);
    }
    Some((line?, rest?))
}

impl<'p, P: Progress> Traced<'p, P> {
    /// Passes all calls on to `progress`, and writes rows to the file of a trace. The file is left as
    /// it is until a run begins.
    pub fn to(progress: &'p mut P, file: TraceFile) -> Traced<'p, P> {
        Traced {
            progress,
            file,
            is_begun: false,
            is_lost: false,
            rounds: 0,
            round: 0,
            time: 0,
            events: 0,
            is_new: false,
        }
    }

    /// Begins the trace, or goes on after that of earlier runs of the same disk.
    fn begin_trace(&mut self, time: u64, events: usize) {
        self.file.choose(time, events);
        match self.file.earlier {
            Some(earlier) if earlier.is_before(time, events) => {
                self.rounds = earlier.row.round;
                self.is_lost = !self.file.begin_behind(earlier.bytes);
            }
            _ => {
                self.is_lost = !self.file.begin_behind(0)
                    || write_names(&mut self.file.rows).is_err();
            }
        }
        self.round = self.rounds;
    }

    /// Writes a row, if all before it are written.
    fn write(&mut self, row: &Row) {
        if !self.is_lost {
            self.is_lost = write_turn(row, &mut self.file.rows).is_err();
        }
    }

    /// Writes a last row, of no work, if there is a commit that no row has, and flushes the rows. A
    /// trace that was made anew then takes the place of the earlier one. Returns whether all of the
    /// trace is written.
    pub fn is_whole<R: Files>(&mut self, rt: &R) -> bool {
        if self.is_new {
            self.is_new = false;
            let row = row_behind(&no_work(self.round, self.time), 0, self.time, self.events);
            self.write(&row);
        }
        let is_whole = !self.is_lost && self.file.rows.flush().is_ok();
        self.file.finish(rt, is_whole) && is_whole
    }
}

/// A row without work, in this round.
fn no_work(round: u64, gvt: u64) -> Row {
    Row {
        round,
        node: 0,
        budget: 0,
        gvt,
        delivered: 0,
        antimessages: 0,
        handled: 0,
        sent: 0,
        reported: 0,
        committed: 0,
        events: 0,
    }
}

/// The row of a turn after `rounds` rounds of earlier runs, with the time of the last commit before
/// it, in ticks, and the number of events committed by then.
fn row_behind(turn: &Row, rounds: u64, time: u64, events: usize) -> Row
    ensures { result ≡ row_behind turn.now rounds time events }
{
    Row {
        round: turn.round.saturating_add(rounds),
        committed: time,
        events: events as u64,
        ..*turn
    }
}

impl<P: Progress> Progress for Traced<'_, P> {
    fn begin(&mut self, end: u64) {
        self.progress.begin(end);
    }

    fn reads(&mut self) {
        self.progress.reads();
    }

    fn every(&mut self, seconds: u32) {
        self.progress.every(seconds);
    }

    fn with_advice(&mut self) {
        self.progress.with_advice();
    }

    fn takes(&mut self, way: Way) {
        self.progress.takes(way);
    }

    fn opened(&mut self, time: u64, events: usize) {
        self.time = time;
        self.events = events;
        if self.is_begun {
            // the run goes on after a fault: so do the rows
            self.rounds = self.round;
        } else {
            self.is_begun = true;
            self.begin_trace(time, events);
        }
        self.progress.opened(time, events);
    }

    fn found_open(&mut self, folder: &str) {
        self.progress.found_open(folder);
    }

    fn waiting(&mut self, nodes: &[usize]) {
        self.progress.waiting(nodes);
    }

    fn committed(&mut self, time: u64, events: usize) {
        if time != self.time || events != self.events {
            self.time = time;
            self.events = events;
            self.is_new = true;
        }
        self.progress.committed(time, events);
    }

    fn stored(&mut self, used: u32, sectors: u32) {
        self.progress.stored(used, sectors);
    }

    fn turned(&mut self, turn: &Row) {
        let row = row_behind(turn, self.rounds, self.time, self.events);
        self.round = row.round;
        self.is_new = false;
        self.write(&row);
        self.progress.turned(turn);
    }

    fn clear(&mut self) {
        self.progress.clear();
    }

    fn finished(&mut self) {
        self.progress.finished();
    }

    fn goes_on(&mut self, line: &str) {
        self.progress.goes_on(line);
    }

    fn stopped(&mut self, file: &str, time: u64) {
        self.progress.stopped(file, time);
    }

    fn is_seen(&self) -> bool {
        self.progress.is_seen()
    }

    fn is_bare(&self) -> bool {
        self.progress.is_bare()
    }

    fn failed(&mut self, advice: Option<&'static str>, cause: Option<Cause<'_>>) {
        self.progress.failed(advice, cause);
    }
}
