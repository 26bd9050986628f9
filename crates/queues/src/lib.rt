//! The input queue of a logical process (Jefferson 1985).
#![tactic(auto)]

ghost use Rattle.queues.specs.Queue.{QueuesArriveByCases, QueuesStayApart, QueuesStayInOrder};
ghost use Rattle.queues.specs.Queue.{QueuesCount, ArrivalsCountUndone, back_of};
ghost use Rattle.queues.specs.Record.{RecordsPart};
ghost use Rattle.std.specs.Prelude.{◌≡◌};

mod bag;
mod bucket;
mod done;
mod event_list;
mod input;

pub use input::InputQueue;

/// The outcome of the arrival of a message or an antimessage.
#[derive(Clone, Copy, Debug, PartialEq, Eq)]
pub enum Arrival {
    /// It waits to be handled; `back` handled messages wait again.
    Queued { back: usize },
    /// It met its opposite, and both are gone; `back` handled messages were undone: they wait
    /// again, except the annihilated message itself.
    Annihilated { back: usize },
    /// The antimessage waits for its message.
    Waits,
}

impl Arrival {
    /// Returns the number of handled messages that the arrival undid.
    pub fn back(&self) -> usize
        ensures { result ≡ back_of self.now }
    {
        match self {
            Arrival::Queued { back } | Arrival::Annihilated { back } => *back,
            Arrival::Waits => 0,
        }
    }
}

/// States the laws of an input queue: the five cases of an arrival, no antimessage in a queue
/// beside its message, the lists in order, the count of each message before and after an arrival,
/// and how a time splits an ascending list of records.
pub fn law_of_queues()
    ensures cases { QueuesArriveByCases }
    ensures apart { QueuesStayApart }
    ensures in_order { QueuesStayInOrder }
    ensures count { QueuesCount }
    ensures back { ArrivalsCountUndone }
    ensures parts { RecordsPart }
{}
