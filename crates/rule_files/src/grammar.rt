// Which text is which rule: names, numbers and signs, their meaning in a scope, and the grammar.

mod lexemes;
mod mending;
mod mistakes;
mod read;
mod scope;
mod sends;
mod statements;
mod stop;
mod token;
mod values;
mod words;

pub use lexemes::{Lexeme, Placed, tokens};
pub use mistakes::{MistakeKind, ReadMistake};
pub use read::{ReadError, find_mistakes, read_rule};
pub use scope::{Meaning, RuleScope, ScopeError};
pub use stop::{ReadStop, Refusal, Wanted};
pub use token::{Mark, Token};
