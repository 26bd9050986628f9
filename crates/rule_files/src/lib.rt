//! Model files of all models: those of this project, and models that are described by rules.
#![tactic(auto)]

mod arrays;
mod chosen;
mod described;
mod dictionary;
mod digest;
mod entries;
mod file_model;
mod given;
/// The grammar of rules: which text is which rule, and the mistakes in a text that is none.
pub mod grammar;
mod kind_mistakes;
mod kind_rules;
mod kinds;
mod naming;
mod printed;
mod reading;
mod scope;
mod shown;

pub use arrays::NamedArray;
pub use chosen::law_of_kinds;
pub use described::RULES_KEYS;
pub use digest::law_of_digests;
pub use file_model::{FileModel, FileNames, Form, KindNames, ModelNames};
pub use kinds::{KindHead, KindTable};
pub use reading::RuleMistake;
pub use scope::{Field, Named, NamedSort, Scope};
