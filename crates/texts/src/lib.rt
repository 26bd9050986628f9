//! Texts that a user reads and writes: logs, worlds, and model files.
#![tactic(auto)]

mod any_model;
mod findings;
mod inside;
mod mistakes;
mod model_file;
mod names;
mod naming;
mod printable;
mod report;
mod settings;
mod text;

pub use any_model::{ANY_MODEL_KEYS, mistakes_among};
pub use findings::{
    Expected, Finding, Findings, Found, Inside, NameMistake, TextMistake, found_in,
};
pub use mistakes::{Mistakes, find_mistakes};
pub use model_file::{
    Described, LONGEST_MODEL_FILE, Mistake, ModelFault, number_at, only, read_model, string_at,
};
pub use names::{Column, Kind, Names, Sort};
pub use printable::Printable;
pub use report::MistakeReport;
pub use settings::{SettingFault, SettingsFault, with_settings};
pub use text::{write_log, write_message, write_number, write_text, write_world};
