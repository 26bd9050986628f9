//! The command line of a program over models of any kind: the command that its words name, and the
//! values of that command.
#![tactic(auto)]

mod command;
mod company;
mod grammar;
mod helping;
mod hint;
mod reading;
mod settings;
mod topics;
mod values;
mod words;

pub use command::{
    BatchOption, Command, DiskArgs, DrawArgs, Format, GrowArgs, InfoArgs, LogArgs, MigrateArgs,
    ModelArgs, ModelFile, NewArgs, NodeArgs, RecoverArgs, RunArgs, SeqArgs, Settings, ShowArgs,
    SourceArgs, StatsArgs, StatsTable, StatusArgs, VerifyArgs,
};
pub use grammar::{Texts, most_sectors, program_help, seq_help};
pub use helping::help_text;
pub use hint::{UsageHint, hint_of};
pub use reading::read_command;
pub use settings::settings_of;
pub use topics::{TOPICS, Topic, asks_help, topic_of};
pub use words::{says_advice, says_quiet};
