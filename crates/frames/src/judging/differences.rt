// What was noted of the reports that ports refused: of which event the first one is.

ghost use Rattle.std.specs.Prelude.{◌≡◌, IsSome, None, Some};
ghost use Rattle.frames.specs.Judging.{event_of};

use process::Report;
use std::cell::Cell;

/// The event of a report that a port refused.
#[derive(Clone, Copy, Debug, PartialEq, Eq)]
pub struct ReportDifference {
    /// The process that handled the event, by the report.
    pub process: u32,
    /// The event's virtual time, in ticks.
    pub time: u64,
}

impl ReportDifference {
    /// The event of this report.
    pub(crate) fn of_report(report: &Report<'_>) -> ReportDifference
        ensures { result ≡ event_of report.now }
    {
        let message = report.message();
        ReportDifference {
            process: message.to(),
            time: message.time(),
        }
    }
}

/// Keeps which report was refused first by the ports that share it. A run ends at the first reply
/// that is refused, and drops its ports, so a caller that wants to know the event keeps this.
///
/// A port that refuses a report knows its event too: `Judged::refused`.
#[derive(Drop)]
pub struct Differences {
    first: Cell<Option<ReportDifference>>,
}

impl Differences {
    /// Without a refused report.
    pub fn none() -> Differences {
        Differences {
            first: Cell::new(None),
        }
    }

    /// The event of the report that was refused first, if one was.
    pub fn first(&self) -> Option<ReportDifference> {
        self.first.get()
    }

    /// Keeps the event of a refused report, if none was refused before. No clause sees what a cell
    /// holds, so `first_of` decides what it holds next.
    pub(crate) fn note(&self, event: ReportDifference) {
        self.first.set(first_of(self.first.get(), event));
    }
}

/// The event that was refused first, once this one is refused after those that were noted.
fn first_of(noted: Option<ReportDifference>, event: ReportDifference) -> Option<ReportDifference>
    ensures empty { noted ≡ None → result ≡ Some event }
    ensures stays { IsSome noted → result ≡ noted }
{
    noted.or(Some(event))
}
