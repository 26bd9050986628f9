// Which other way to run a model would be faster, by what a run measured of itself.

ghost use Rattle.std.specs.Prelude.{◌≡◌};
ghost use Rattle.terminal.specs.Hints.{hint_of, is_dear};

use std::fmt;

/// How a run is made.
#[derive(Clone, Copy, Debug, PartialEq, Eq)]
pub enum Way {
    /// Without nodes, one event at a time.
    Plain {
        /// How many processors node programs could use instead.
        processors: u32,
    },
    /// Over nodes in one process.
    OneProcess,
    /// So that the processor time of the process is not that of its handlings: over node programs,
    /// or without nodes and with checkpoints.
    Other,
}

/// What a run has done.
#[derive(Clone, Copy, Debug, PartialEq, Eq)]
pub struct Work {
    /// The processor time that it took, in nanoseconds.
    pub nanoseconds: u64,
    /// Messages handled, including those rolled back.
    pub handled: u64,
    /// Commits made.
    pub commits: u64,
}

/// A way that would be faster than that of a run. It has the processor time of the run for each
/// handling, in nanoseconds.
#[derive(Clone, Copy, Debug, PartialEq, Eq)]
pub enum RunHint {
    /// Without nodes.
    Plain { each: u64 },
    /// Over node programs, on this many processors.
    NodePrograms { each: u64, processors: u32 },
}

/// Whether a handling takes so long that node programs on several processors gain more than their
/// messages cost: 10 microseconds or more, where a commit has at least 1,024 events, so that the
/// time is not that of the commits.
fn is_dear(each: u64, work: Work) -> bool
    ensures { result ≡ is_dear each work }
{
    each >= 10_000 && work.handled / 1024 >= work.commits
}

/// Returns which way would be faster, by what a run that is made this way has done.
///
/// Over nodes in one process each event is handled at least once, on one processor, and the nodes
/// have to be coordinated. So a run without nodes is always faster.
pub fn hint_of(way: Way, work: Work) -> Option<RunHint>
    ensures { result ≡ hint_of way work }
{
    if work.handled == 0 {
        return None;
    }
    let each = work.nanoseconds / work.handled;
    match way {
        Way::OneProcess => Some(RunHint::Plain { each }),
        Way::Plain { processors } => {
            if processors > 1 && is_dear(each, work) {
                Some(RunHint::NodePrograms { each, processors })
            } else {
                None
            }
        }
        Way::Other => None,
    }
}

/// A time in nanoseconds, as text in microseconds: with one decimal below 10.
#[derive(Clone, Copy)]
struct Microseconds(u64);

impl fmt::Display for Microseconds {
    fn fmt<W: fmt::Write>(&self, f: &mut fmt::Formatter<W>) -> fmt::Result {
        let whole = self.0 / 1000;
        if whole < 10 {
            write!(f, "{whole}.{} microseconds", self.0 / 100 % 10)
        } else {
            write!(f, "{whole} microseconds")
        }
    }
}

impl fmt::Display for RunHint {
    fn fmt<W: fmt::Write>(&self, f: &mut fmt::Formatter<W>) -> fmt::Result {
        match *self {
            RunHint::Plain { each } => {
                let each = Microseconds(each);
                write!(
                    f,
                    "run --plain would be faster here: one process, {each} a handling"
                )
            }
            RunHint::NodePrograms { each, processors } => {
                let each = Microseconds(each);
                write!(
                    f,
                    "run --sockets --overlap would be faster here: {each} a handling, \
                     {processors} processors"
                )
            }
        }
    }
}
