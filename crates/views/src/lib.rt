//! The read-only commands, over any files and writers: on a model file, on what is committed on a
//! disk, for the figures and the picture of a run, and on its trace. None of them needs a session.
#![tactic(auto)]

mod apart;
mod beginnings;
mod cells;
mod differing;
mod drawing;
mod fault;
mod files;
mod histograms;
mod info;
mod inspecting;
mod kept;
mod levels;
mod listing;
mod looking;
mod looks;
mod named;
mod reading;
mod replaying;
mod rows;
mod statistics;
mod streaming;
mod tables;
mod totals;

pub use apart::{apart_of, difference_in};
pub use beginnings::{Beginning, BegunDisk, events_before_origin, front_of, write_believed_line};
pub use differing::{
    DiskSimulation, Identity, ModelDifference, committed_on, difference_of, simulation_in,
};
pub use fault::{SegmentFault, ViewFault, unreadable};
pub use files::{
    ModelText, Wrong, check, mistakes_of, open_disk, read_model_file, read_model_text, seq,
};
pub use kept::{keeper_of, kept_name, model_path};
pub use looks::{Look, look_at};
pub use reading::Shows;
