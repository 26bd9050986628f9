// The summary that a node keeps of each process, so that it visits only processes with something to
// do.

ghost use Rattle.std.specs.Prelude.{◌≡◌, ◌<◌, ◌^◌, ◌↔◌, IfSome, IsTrue};
ghost use Rattle.node.specs.Seats.{represented_of};
ghost use Rattle.node.specs.Tournament.{IsLowInRange};

use eventkey::Message;
use process::Process;

/// The summary of one process.
#[derive(Clone, Copy)]
pub(crate) struct Summary {
    /// The least waiting message, if its time is below the end.
    pub next: Option<Message>,
    /// The least time, in ticks, of the waiting messages and antimessages.
    pub low: Option<u64>,
    /// The time, in ticks, of the earliest handling in the history.
    pub oldest: Option<u64>,
}

impl Summary {
    /// The empty summary.
    pub(crate) const ABSENT: Summary = Summary {
        next: None,
        low: None,
        oldest: None,
    };

    /// Returns the summary of a process that handles messages below `end`, in ticks. Allocates
    /// nothing.
    #[inline(always)]
    pub(crate) fn of(process: &Process, end: u64) -> Summary
        ensures summary { result ≡ represented_of end process.now }
        ensures range { IsLowInRange result }
    {
        Summary {
            next: process.next(end),
            low: process.low(),
            oldest: process.oldest(),
        }
    }

    /// Returns whether both summaries have the same next message.
    #[inline(always)]
    pub(crate) fn has_next_of(&self, other: &Summary) -> bool
        ensures { IsTrue result ↔ (self.now.next ≡ other.now.next) }
    {
        self.next == other.next
    }
}
