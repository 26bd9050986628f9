// What the names of a rule mean.

ghost use Rattle.std.specs.Prelude.{◌≡◌, [], None, Some, IsSome, OnErr, OnOk, true, false};
ghost use Rattle.std.specs.Result.{IsErrOf};
ghost use Rattle.std.specs.Str.{bytes_eq};
ghost use Rattle.rule_files.specs.Lexical.{is_name};
ghost use Rattle.rule_files.specs.Scopes.{dictionary_of, drawing_word, any_sort, entries_of, has_sort, lookup, meaning, statement_word, token_meant, value_word, with_entry};
ghost use Rattle.rule_files.specs.declared.grammar.scope.ScopeError.TheVariants.{Memory, InUse, NotAName};

use crate::grammar::lexemes::is_whole_name;
use crate::grammar::token::{Mark, SortToken, Token};
use rules::{Array, Known, Law};
use std::alloc::{AllocError, AllocFailed, Global};
use thiserror::Error;

/// What a name of a model file means in its rules.
#[derive(Clone, Copy, Debug, PartialEq, Eq)]
pub enum Meaning {
    /// A word of the state, by its place.
    Word(u8),
    /// A word of the content, by its place.
    Content(u8),
    /// A number.
    Number(u64),
    /// A table, by its place.
    Table(u32),
    /// An array in the state.
    Array(Array),
    /// A kind of processes.
    Kind {
        /// The first of its processes.
        first: u32,
        /// How many there are; they follow each other.
        count: u32,
    },
    /// A sort of messages.
    Sort {
        /// Its number, the first word of a message.
        number: u64,
        /// How many words stand after its number.
        words: usize,
    },
}

impl Meaning {
    fn token(self) -> Token
        ensures { result ≡ token_meant self }
    {
        match self {
            Meaning::Word(place) => Token::Word(place),
            Meaning::Content(place) => Token::Content(place),
            Meaning::Number(n) => Token::Number(n),
            Meaning::Table(place) => Token::Table(place),
            Meaning::Array(array) => Token::Array(array),
            Meaning::Kind { first, count } => Token::Kind(first, count),
            Meaning::Sort { number, words } => Token::Sort(SortToken { number, words }),
        }
    }
}

/// Why a scope does not take a name; the scope is as it was.
#[derive(Clone, Copy, Debug, PartialEq, Eq, Error)]
pub enum ScopeError {
    /// An allocation failed.
    #[error("out of memory")]
    Memory,
    /// Names have 1 to 64 letters, digits and `_`, and begin with no digit.
    #[error("a name has 1 to 64 letters, digits and _, and begins with no digit")]
    NotAName,
    /// The name is in use, or a word of the language.
    #[error("the name is in use")]
    InUse,
}

/// A name, and the token that it means.
#[derive(Debug, Drop)]
struct Entry {
    name: Vec<u8>,
    token: Token,
}

/// What the names of a model file mean in its rules, each one thing.
#[derive(Debug, Drop)]
pub struct RuleScope {
    draws: bool,
    own: Option<u32>,
    entries: Vec<Entry>,
}

impl std::marker::Model for RuleScope {
    ghost use Rattle.rule_files.specs.Scopes.{Dictionary, dictionary_of};

    ghost Value = { Dictionary };

    ghost view = { λ s. dictionary_of s.draws s.own s.entries.items };
}

fn is(name: &[u8], word: &str) -> bool
    ensures { result ≡ bytes_eq name.now word.now }
{
    name == word.as_bytes()
}

/// A word of the language with which a statement or a part of one begins.
fn word_of_statement(name: &[u8]) -> Option<Token>
    ensures { result ≡ statement_word name.now }
{
    if is(name, "let") {
        return Some(Token::Mark(Mark::Let));
    }
    if is(name, "send") {
        return Some(Token::Mark(Mark::Send));
    }
    if is(name, "to") {
        return Some(Token::Mark(Mark::To));
    }
    if is(name, "after") {
        return Some(Token::Mark(Mark::After));
    }
    if is(name, "with") {
        return Some(Token::Mark(Mark::With));
    }
    if is(name, "if") {
        return Some(Token::Mark(Mark::If));
    }
    if is(name, "else") {
        return Some(Token::Mark(Mark::Else));
    }
    if is(name, "repeat") {
        return Some(Token::Mark(Mark::Repeat));
    }
    None
}

/// A word of the language that draws.
fn word_that_draws(name: &[u8]) -> Option<Mark>
    ensures { result ≡ drawing_word name.now }
{
    if is(name, "draw") {
        return Some(Mark::Draw(Law::Uniform));
    }
    if is(name, "exponential") {
        return Some(Mark::Draw(Law::Exponential));
    }
    if is(name, "geometric") {
        return Some(Mark::Draw(Law::Geometric));
    }
    if is(name, "normal") {
        return Some(Mark::Normal);
    }
    if is(name, "triangular") {
        return Some(Mark::Triangular);
    }
    if is(name, "choose") {
        return Some(Mark::Choose);
    }
    None
}

/// A word of the language that may be part of a value.
#[tactic(auto, unfolding(crate::specs::Scopes::value_word))]
fn word_of_value(draws: bool, own: Option<u32>, name: &[u8]) -> Option<Token>
    ensures { result ≡ value_word draws own name.now }
{
    if let Some(mark) = word_that_draws(name) {
        return Some(Token::Mark(if draws { mark } else { Mark::Kept }));
    }
    if is(name, "min") {
        return Some(Token::Mark(Mark::Min));
    }
    if is(name, "max") {
        return Some(Token::Mark(Mark::Max));
    }
    if is(name, "key") {
        return Some(Token::Mark(Mark::Kept));
    }
    if is(name, "self") {
        return Some(match own {
            Some(first) => Token::Own(first),
            None => Token::Known(Known::Process),
        });
    }
    if is(name, "sender") {
        return Some(Token::Known(Known::Sender));
    }
    if is(name, "now") {
        return Some(Token::Known(Known::Now));
    }
    if is(name, "lps") {
        return Some(Token::Known(Known::Processes));
    }
    None
}

impl RuleScope {
    /// The scope of a model file without names; `draws` says whether the state has `key`, so that rules may draw.
    pub fn new(alloc: Global, draws: bool) -> RuleScope
        ensures { result ≡ record { draws = draws; own = None; entries = [] } }
    {
        RuleScope {
            draws,
            own: None,
            entries: Vec::new(alloc),
        }
    }

    /// The same for the rules of one kind of processes, of which this one is the first: there `self` is the place of
    /// the process within the kind.
    pub fn of_kind(alloc: Global, draws: bool, first: u32) -> RuleScope
        ensures { result ≡ record { draws = draws; own = Some first; entries = [] } }
    {
        RuleScope {
            draws,
            own: Some(first),
            entries: Vec::new(alloc),
        }
    }

    /// What a name means, if it means anything: a word of the language, or a name that was added.
    pub(crate) fn meaning(&self, name: &[u8]) -> Option<Token>
        ensures { result ≡ meaning self.now name.now }
    {
        if let Some(token) = word_of_statement(name) {
            return Some(token);
        }
        if let Some(token) = word_of_value(self.draws, self.own, name) {
            return Some(token);
        }
        find(&self.entries, name)
    }

    /// Adds a name of the model file: one that means nothing so far.
    pub fn add(&mut self, alloc: Global, name: &str, what: Meaning) -> Result<(), ScopeError>
        ensures added { OnOk result (self.new ≡ with_entry self.old name.now (token_meant what)) }
        ensures free { OnOk result (meaning self.old name.now ≡ None) }
        ensures is_name { OnOk result (is_name name.now ≡ true) }
        ensures in_use { IsErrOf result InUse → IsSome (meaning self.old name.now) }
        ensures no_name { IsErrOf result NotAName → is_name name.now ≡ false }
        ensures err { OnErr result (self.new ≡ self.old) }
    {
        let name = name.as_bytes();
        if !is_whole_name(name) {
            return Err(ScopeError::NotAName);
        }
        if self.meaning(name).is_some() {
            return Err(ScopeError::InUse);
        }
        let name = Vec::from_slice(alloc, name)?;
        self.entries.push(Entry {
            name,
            token: what.token(),
        })?;
        Ok(())
    }

    /// The name that was added at this index.
    pub(crate) fn name(&self, index: usize) -> Option<&[u8]> {
        match self.entries.get(index) {
            Some(entry) => Some(entry.name.as_slice()),
            None => None,
        }
    }

    /// Whether a sort of messages was added.
    pub(crate) fn has_sort(&self) -> bool
        ensures { result ≡ has_sort self.now }
    {
        any_sort(&self.entries)
    }

    /// The kind that begins with this process, by its name.
    pub(crate) fn kind_of(&self, own: u32) -> Option<&[u8]> {
        'entries: for entry in &self.entries {
            if let Token::Kind(first, _) = entry.token
                && first == own
            {
                return Some(entry.name.as_slice());
            }
        }
        None
    }

    /// How many names were added.
    pub(crate) fn count(&self) -> usize {
        self.entries.len()
    }
}

/// Whether one of the names is that of a sort.
fn any_sort(entries: &[Entry]) -> bool
    ensures { result ≡ any_sort (entries_of entries.now) }
{
    'entries: for entry in entries {
        if let Token::Sort(_) = entry.token {
            return true;
        }
    }
    false
}

/// What a name means among those that were added.
fn find(entries: &[Entry], name: &[u8]) -> Option<Token>
    ensures { result ≡ lookup name.now (entries_of entries.now) }
{
    'entries: for entry in entries {
        if entry.name.as_slice() == name {
            return Some(entry.token);
        }
    }
    None
}

impl From<AllocError> for ScopeError {
    ghost from_gives = { λ _ e. e ≡ Memory };

    fn from(_e: AllocError) -> ScopeError {
        ScopeError::Memory
    }
}

impl<T: Drop> From<AllocFailed<T>> for ScopeError {
    ghost from_gives = { λ _ e. e ≡ Memory };

    fn from(_e: AllocFailed<T>) -> ScopeError {
        ScopeError::Memory
    }
}
