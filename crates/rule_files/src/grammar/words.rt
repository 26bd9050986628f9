// Gives the names of a text their meaning.

ghost use Rattle.std.specs.Prelude.{◌≡◌, ◌-◌, IfOk, drop, take};
ghost use Rattle.rule_files.specs.Scopes.{first_place as place_at, is_same_name, name_number, token_by, token_of, tokens_of};

use crate::grammar::lexemes::{Lexeme, Placed};
use crate::grammar::scope::RuleScope;
use crate::grammar::token::Token;
use std::alloc::{AllocError, Global};

/// The bytes from `start` up to `end`, as far as they are there.
pub(crate) fn part(text: &[u8], start: usize, end: usize) -> &[u8]
    ensures { result.now ≡ take (end - start) (drop start text.now) }
{
    let behind = text.split_at(start.min(text.len())).1;
    behind
        .split_at(end.saturating_sub(start).min(behind.len()))
        .0
}

/// Whether this is a name with these letters.
fn is_same(text: &[u8], letters: &[u8], one: &Placed) -> bool
    ensures { result ≡ is_same_name text.now letters.now one.now }
{
    match one.lexeme {
        Lexeme::Name => part(text, one.start, one.end) == letters,
        _ => false,
    }
}

/// Where a name is first used.
fn first_place(text: &[u8], letters: &[u8], all: &[Placed]) -> usize
    ensures { result ≡ place_at text.now letters.now all.now }
{
    'all: for one in all {
        if is_same(text, letters, one) {
            return one.start;
        }
    }
    0
}

/// The number of the name `until`, which no place in a rule has.
pub(crate) const UNTIL: usize = 65_536;

/// The number of the name `on`, which no place in a rule has either.
pub(crate) const ON: usize = 65_537;

/// The number of a name that means nothing by itself.
fn number(text: &[u8], letters: &[u8], all: &[Placed]) -> usize
    ensures { result ≡ name_number text.now letters.now all.now }
{
    if letters == "until".as_bytes() {
        return UNTIL;
    }
    if letters == "on".as_bytes() {
        return ON;
    }
    first_place(text, letters, all)
}

/// What a lexeme means.
fn token(scope: &RuleScope, text: &[u8], all: &[Placed], one: &Placed) -> Token
    ensures { result ≡ token_of scope.now text.now all.now one.now }
{
    match one.lexeme {
        Lexeme::Number(n) => Token::Number(n),
        Lexeme::Sign(operator) => Token::Sign(operator),
        Lexeme::Mark(mark) => Token::Mark(mark),
        Lexeme::Name => {
            let letters = part(text, one.start, one.end);
            match scope.meaning(letters) {
                Some(token) => token,
                None => Token::Name(number(text, letters, all)),
            }
        }
    }
}

/// What the lexemes of a text mean.
pub(crate) fn words(
    alloc: Global,
    scope: &RuleScope,
    text: &[u8],
    all: &[Placed],
) -> Result<Vec<Token>, AllocError>
    ensures { IfOk result (λ v. v.items ≡ tokens_of scope.now text.now all.now) }
{
    let mut tokens = Vec::new(alloc);
    'all: for one in all {
        tokens.push(token(scope, text, all, one))?;
    }
    Ok(tokens)
}
