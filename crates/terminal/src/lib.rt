//! What a terminal shows of a run and of a fault, and the trace of a run. Nothing here needs a
//! session.
#![tactic(auto)]

mod cause;
mod hints;
mod paths;
mod progress;
mod tracing;

pub use cause::{
    Cause, FileRefusal, Held, Unmet, cause_of, cause_of_device, cause_of_kept, cause_of_refusal,
    is_locked,
};
pub use hints::{RunHint, Way, Work, hint_of};
pub use paths::{FileId, are_one_file, is_elsewhere, place_of};
pub use progress::{Progress, TerminalProgress};
pub use tracing::{NoTrace, TraceFile, Traced};
