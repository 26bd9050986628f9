//! One logical process (Jefferson 1985): it handles its messages in order, and rolls back what it
//! handled too early.
#![tactic(auto)]

ghost use Rattle.std.specs.Prelude.{◌≡◌};
ghost use Rattle.process.specs.Consistent.{HistoriesAreKept, ReportsFollowModel, ArrivalStaysConsistent};
ghost use Rattle.process.specs.Consistent.{ArrivalIsBalanced, ArrivalCancelsSends, ArrivalLooksAhead};
ghost use Rattle.process.specs.Consistent.{HandlingStaysConsistent, HandlingIsBalanced, ReportsStayConsistent};
ghost use Rattle.process.specs.Consistent.{ReportIsBalanced, RollbacksStayAbove, FossilsAreFinal};
ghost use Rattle.process.specs.Consistent.{ReleasesAreUnseen};
ghost use Rattle.process.specs.View.{HistoriesBegin};
ghost use Rattle.process.specs.declared.ProcessFault.TheVariants.{NoMemory};

mod encoding;
mod handlings;
mod history;
mod logical;
mod reports;
mod sends;

use eventkey::Message;
pub use logical::Process;
use model::{Sent, State};
pub use reports::{Report, Reports, ReportsLeft};
use std::alloc::{AllocError, AllocFailed};
use thiserror::Error;

/// The reason why a process refuses a call.
#[derive(Clone, Copy, Debug, PartialEq, Eq, Error)]
pub enum ProcessFault {
    /// The message is for another process.
    #[error("NotMine")]
    NotMine,
    /// The time of the message is below the floor of the process.
    #[error("BelowFloor")]
    BelowFloor,
    /// An allocation failed.
    #[error("NoMemory")]
    NoMemory,
    /// The sends would take the send number past its limit.
    #[error("NumberLimit")]
    NumberLimit,
    /// Poisoned by an earlier allocation failure or by the number limit.
    #[error("Spent")]
    Spent,
}

impl From<AllocError> for ProcessFault {
    ghost from_gives = { λ _ e. e ≡ NoMemory };

    fn from(_error: AllocError) -> ProcessFault {
        ProcessFault::NoMemory
    }
}

impl<T: Drop> From<AllocFailed<T>> for ProcessFault {
    ghost from_gives = { λ _ e. e ≡ NoMemory };

    fn from(_error: AllocFailed<T>) -> ProcessFault {
        ProcessFault::NoMemory
    }
}

/// A handling that no rollback reaches any more, with what the process was after it.
#[derive(Drop)]
pub struct Done {
    /// The handled message.
    pub message: Message,
    /// The messages that the handling sent, in the order of sending.
    pub sent: Sent,
    /// The state words after the handling.
    pub after: State,
    /// The send number after the handling.
    pub number_after: u64,
}

/// States the law of histories: the handlings of a process are what the model does, after it is
/// loaded and after any calls, and so are the handlings that it reports.
pub fn law_of_histories()
    ensures begin { HistoriesBegin }
    ensures kept { HistoriesAreKept }
    ensures reported { ReportsFollowModel }
{}

/// States the laws of one message that arrives at one process.
pub fn law_of_arrivals()
    ensures reported { ArrivalStaysConsistent }
    ensures balanced { ArrivalIsBalanced }
    ensures cancels { ArrivalCancelsSends }
    ensures looks_ahead { ArrivalLooksAhead }
{}

/// States the laws of one message that a process handles.
pub fn law_of_handlings()
    ensures reported { HandlingStaysConsistent }
    ensures balanced { HandlingIsBalanced }
{}

/// States the laws of what a process reports below a floor.
pub fn law_of_reports()
    ensures reported { ReportsStayConsistent }
    ensures balanced { ReportIsBalanced }
{}

/// States that no rollback reaches the handlings before a floor if no message arrives before it.
pub fn law_of_rollbacks()
    ensures above { RollbacksStayAbove }
    ensures fossils { FossilsAreFinal }
    ensures unseen { ReleasesAreUnseen }
{}
