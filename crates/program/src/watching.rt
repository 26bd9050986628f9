// Passes the progress of a run on to what displays it, and looks for the file that ends it and for the
// name of its disk.

ghost use Rattle.std.specs.Prelude.{◌≡◌};
ghost use Rattle.program.specs.Turns.{row_of, row_of_commit};

use cli::RunArgs;
use disk::SystemError;
use pictures::Row;
use plain::PlainWatch;
use runs::{Turn, Watch};
use segments::archiving::ArchiveFault;
use std::fs;
use std::rt::Files;
use std::time::{Clock, Duration};
use terminal::{FileId, Progress, is_elsewhere, place_of};

/// Passes all that a run reports on to a `Progress`, and ends the run once a file is there, or once the
/// name of its disk leads to another file or to none.
#[derive(Drop)]
pub(crate) struct Watching<'p, R, P> {
    rt: &'p R,
    pub progress: &'p mut P,
    /// The virtual time of the last commit, in ticks.
    pub time: u64,
    /// After how many events a run without nodes commits; 0 for a run over nodes.
    pub commit_every: u32,
    /// The number of events before the disk, which a `Progress` sees too.
    pub before: u64,
    /// Why its full disk was not archived, and what the system says.
    pub not_archived: Option<(ArchiveFault, Option<SystemError>)>,
    // The number of commits that it made, and of events in the log.
    number: u64,
    events: usize,
    // The path of the disk, the file to which it leads, and whether that changes with an attempt.
    disk: &'p str,
    place: Option<FileId>,
    is_archived: bool,
    is_begun: bool,
    // The path of the file that ends the run, if there is one, and when both were last looked for.
    stop: Option<&'p str>,
    looked: Option<Duration>,
    is_stopped: bool,
}

impl<'p, R: Files + Clock, P> Watching<'p, R, P> {
    /// Passes on to `progress`, and ends the run of these arguments once its stop file is there, or its
    /// disk, which is open, has lost its name.
    pub(crate) fn new(rt: &'p R, progress: &'p mut P, args: &RunArgs<'p>) -> Watching<'p, R, P> {
        let disk = args.on.disk;
        Watching {
            rt,
            progress,
            time: 0,
            commit_every: 0,
            before: 0,
            not_archived: None,
            number: 0,
            events: 0,
            disk,
            place: place_of(rt, disk).ok(),
            is_archived: args.archive_when_full,
            is_begun: false,
            stop: args.stop_file,
            looked: None,
            is_stopped: false,
        }
    }

    /// Whether the last look was a tenth of a second ago, or there was none. Notes the time.
    fn is_due(&mut self) -> bool {
        let now = self.rt.monotonic().ok();
        if let (Some(now), Some(looked)) = (now, self.looked) {
            if now.saturating_sub(looked) < Duration::from_millis(100) {
                return false;
            }
        }
        self.looked = now;
        true
    }

    /// Returns whether the name of the disk leads to another file than when the run began, or to none.
    pub(crate) fn is_renamed(&self) -> bool {
        match self.place {
            Some(place) => is_elsewhere(self.rt, self.disk, place),
            None => false,
        }
    }

    /// Returns whether the run ends: the file that ends it is there, or its disk has lost its name.
    fn is_ended(&mut self) -> bool {
        if !self.is_stopped && self.is_due() {
            let is_asked = match self.stop {
                Some(path) => fs::exists(self.rt, path).unwrap_or(false),
                None => false,
            };
            self.is_stopped = is_asked || self.is_renamed();
        }
        self.is_stopped
    }
}

impl<R: Files + Clock, P: Progress> Watching<'_, R, P> {
    /// Passes on what a run begins with.
    fn begin(&mut self, time: u64, events: usize) {
        // a disk that was full may have been put aside, and another one have its name
        if self.is_begun && self.is_archived {
            self.place = place_of(self.rt, self.disk).ok();
        }
        self.is_begun = true;
        self.time = time;
        self.events = events;
        let all = self.of_all(events);
        self.progress.opened(time, all);
    }

    /// Passes a commit on.
    fn commit(&mut self, time: u64, events: usize) {
        self.time = time;
        self.events = events;
        let all = self.of_all(events);
        self.progress.committed(time, all);
    }

    /// The number of events of the simulation, of which the disk has this number.
    fn of_all(&self, events: usize) -> usize {
        events.saturating_add(self.before as usize)
    }
}

/// Returns the trace row of a turn, without what was committed before it.
fn row_of(turn: &Turn) -> Row
    ensures { result ≡ row_of turn.now }
{
    Row {
        round: u64::from(turn.round),
        node: u64::from(turn.node),
        budget: u64::from(turn.budget),
        gvt: turn.floor,
        delivered: turn.delivered as u64,
        antimessages: turn.antimessages as u64,
        handled: u64::from(turn.handled),
        sent: turn.sent as u64,
        reported: turn.reported as u64,
        committed: 0,
        events: 0,
    }
}

impl<R: Files + Clock, P: Progress> Watch for Watching<'_, R, P> {
    fn opened(&mut self, time: u64, events: usize) {
        self.begin(time, events);
    }

    fn committed(&mut self, time: u64, events: usize) {
        self.commit(time, events);
    }

    fn stored(&mut self, used: u32, sectors: u32) {
        self.progress.stored(used, sectors);
    }

    fn turned(&mut self, turn: &Turn) {
        self.progress.turned(&row_of(turn));
    }

    fn is_stopped(&mut self) -> bool {
        self.is_ended()
    }
}

/// Returns the trace row of the commit of this number in a run without nodes that commits after each
/// `commit_every` events: of `handled` further events from `time` on, without what was committed
/// before it.
fn row_of_commit(commit_every: u32, number: u64, time: u64, handled: u64) -> Row
    ensures { result ≡ row_of_commit commit_every number time handled }
{
    Row {
        round: number,
        node: 0,
        budget: u64::from(commit_every),
        gvt: time,
        delivered: 0,
        antimessages: 0,
        handled,
        sent: 0,
        reported: handled,
        committed: 0,
        events: 0,
    }
}

/// Each commit of a run without nodes is a turn of node 0.
impl<R: Files + Clock, P: Progress> PlainWatch for Watching<'_, R, P> {
    fn opened(&mut self, time: u64, events: usize) {
        self.begin(time, events);
    }

    fn committed(&mut self, time: u64, events: usize) {
        self.number = self.number.saturating_add(1);
        let handled = events.saturating_sub(self.events) as u64;
        let row = row_of_commit(self.commit_every, self.number, self.time, handled);
        self.progress.turned(&row);
        self.commit(time, events);
    }

    fn stored(&mut self, used: u32, sectors: u32) {
        self.progress.stored(used, sectors);
    }

    fn is_stopped(&mut self) -> bool {
        self.is_ended()
    }
}
