//! What the tokens of a rule mean.

use rules::{Array, Known, Law, Operator};

/// A token of a rule by what it means in the rule's scope.
#[derive(Clone, Copy, Debug, PartialEq, Eq)]
pub enum Token {
    /// A number, or the value of a named number.
    Number(u64),
    /// A binary operator.
    Sign(Operator),
    /// Any other sign, or a word of the language.
    Mark(Mark),
    /// A word for what is known of the handling.
    Known(Known),
    /// A word of the state, by its place.
    Word(u8),
    /// A word of the content, by its place.
    Content(u8),
    /// A table, by its place.
    Table(u32),
    /// An array in the state.
    Array(Array),
    /// A kind of processes: the first one, and how many there are.
    Kind(u32, u32),
    /// `self` in a scope of a kind, by the first process of the kind.
    Own(u32),
    /// A sort of messages.
    Sort(SortToken),
    /// A name that the scope lacks; equal names have equal numbers.
    Name(usize),
}

/// A sort of messages.
#[derive(Clone, Copy, Debug, PartialEq, Eq)]
pub struct SortToken {
    /// Its number, the first word of a message.
    pub number: u64,
    /// How many words stand after its number.
    pub words: usize,
}

/// A sign that is no operator, or a word of the language.
#[derive(Clone, Copy, Debug, PartialEq, Eq)]
pub enum Mark {
    /// `!`
    Not,
    /// `=`
    Is,
    /// `,`
    Comma,
    /// `(`
    Open,
    /// `)`
    Close,
    /// `[`
    OpenIndex,
    /// `]`
    CloseIndex,
    /// `{`
    OpenBlock,
    /// `}`
    CloseBlock,
    Let,
    Send,
    To,
    After,
    With,
    If,
    Else,
    Repeat,
    Min,
    Max,
    /// `draw`, `exponential` or `geometric`, by its distribution.
    Draw(Law),
    Normal,
    Triangular,
    Choose,
    /// `.count`
    Count,
    /// A word that this scope keeps from rules: `key`, and the words that draw where the state has
    /// no `key`.
    Kept,
}
