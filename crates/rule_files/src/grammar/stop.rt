//! Why reading stops.

ghost use Rattle.std.specs.Prelude.{◌≡◌, length};
ghost use Rattle.rule_files.specs.declared.grammar.stop.ReadStop.TheVariants.{Memory, Refused};

use crate::grammar::token::{Mark, Token};
use std::alloc::{AllocError, AllocFailed};

/// What was expected where a text is no rule.
#[derive(Clone, Copy, Debug, PartialEq, Eq)]
pub enum Wanted {
    /// A name of at most 64 letters, a number below 2^64, a sign or white space.
    Lexeme,
    /// A text of at most 65,536 bytes.
    LessText,
    /// A value.
    Value,
    /// A statement.
    Statement,
    /// A table.
    Table,
    /// An index or `.count`, after a kind of processes.
    Member,
    /// A sort of messages, after `on`.
    Sort,
    /// This sign or word.
    Mark(Mark),
    /// A name that is not in use.
    NewName,
    /// A count for `repeat`, below 2^32.
    Count,
    /// Less nesting: 64 deep is the limit.
    LessNesting,
    /// A value of fewer operators: 256 deep is the limit.
    LowerValue,
    /// Fewer blocks, `else if` and `on` around one another: 1,024 in all is the limit.
    FewerLinks,
    /// Fewer names at once: 16 is the limit.
    FewerNames,
    /// A process, where `self` is a place within a kind.
    Process,
    /// The name of a sort, as the first word of content.
    FirstSort,
    /// As many words after a sort as it has; how many there are.
    Words(usize, usize),
}

/// A place where a text is no rule: how many tokens are left there, and what was expected.
#[derive(Clone, Copy, Debug, PartialEq, Eq)]
pub struct Refusal {
    pub left: usize,
    pub wanted: Wanted,
}

/// Why reading stops.
#[derive(Clone, Copy, Debug, PartialEq, Eq)]
pub enum ReadStop {
    /// An allocation failed.
    Memory,
    /// The tokens form nothing.
    Refused(Refusal),
}

/// The first of these tokens, as the place of a refusal.
pub(crate) fn at_first(tokens: &[Token], wanted: Wanted) -> Refusal {
    Refusal {
        left: tokens.len(),
        wanted,
    }
}

/// Refuses the first of these tokens.
pub(crate) fn refused(tokens: &[Token], wanted: Wanted) -> ReadStop
    ensures { result ≡ Refused (record { left = length tokens.now; wanted = wanted }) }
{
    ReadStop::Refused(Refusal {
        left: tokens.len(),
        wanted,
    })
}

impl From<AllocError> for ReadStop {
    ghost from_gives = { λ _ e. e ≡ Memory };

    fn from(_e: AllocError) -> ReadStop {
        ReadStop::Memory
    }
}

impl<T: Drop> From<AllocFailed<T>> for ReadStop {
    ghost from_gives = { λ _ e. e ≡ Memory };

    fn from(_e: AllocFailed<T>) -> ReadStop {
        ReadStop::Memory
    }
}
