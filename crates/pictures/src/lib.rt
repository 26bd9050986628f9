//! Views of a committed run: parts of its log, figures, and drawings.
#![tactic(auto)]

mod barred;
mod changes;
mod chosen;
mod counted;
mod courses;
mod delays;
mod diagrams;
mod drawn;
mod dumped;
mod filled;
mod histograms;
mod levels;
mod loads;
mod quotients;
mod senders;
mod statistics;
mod stepping;
mod tables;
mod tallies;
mod traced;
mod turns;
mod watched;

pub use barred::{Histogram, write_histogram};
pub use changes::{Changes, changes_of};
pub use chosen::{Choice, write_chosen};
pub use counted::{Busy, Figures, Rate, Spread, figures_of};
pub use courses::write_course;
pub use diagrams::{Diagram, diagram_of};
pub use drawn::{View, write_drawing};
pub use dumped::write_changes;
pub use histograms::{Bins, Word, bins_of, tally_of};
pub use levels::Level;
pub use loads::{LoadMap, load_of, write_load};
pub use quotients::Decimal;
pub use statistics::{Cell, LEVEL_NAMES, LevelRow, Statistics, WORD_NAMES, WordRow, statistics_of};
pub use stepping::{EVENTS_AT_FIRST, EVENTS_AT_MOST, forget, next_piece, step_some};
pub use tables::{write_stats, write_stats_csv};
pub use tallies::{Tallied, Tally};
pub use traced::{Trace, trace_before, trace_of};
pub use turns::{NotRead, Row, read_rows, write_names, write_turn};
