// Where a text stops being a rule, and what was wanted there. No clause speaks of it: tests hold it.

use crate::grammar::lexemes::{Lexeme, Placed, pieces};
use crate::grammar::scope::RuleScope;
use crate::grammar::stop::{ReadStop, Refusal, Wanted};
use crate::grammar::token::{Mark, Token};
use crate::grammar::words::{ON, part, words};
use rules::{Law, Operator};
use std::alloc::{AllocError, Global};
use std::fmt;
use strsim::levenshtein;

/// What is wrong at a place of a text.
#[derive(Debug, Drop)]
pub enum MistakeKind {
    /// There is nothing of this name; the nearest one that there is.
    Unknown(String, Option<String>),
    /// A name that rules neither read nor set.
    Kept(String),
    /// A name that is in use.
    InUse(String),
    /// A word of the language in place of a new name.
    Reserved(String),
    /// A name of `let` or `repeat` that is set.
    Fixed(String),
    /// A second comparison in a row.
    Chain,
    /// `self` in a receiver: the kind whose process it is.
    Place(String),
    /// A sort with another number of words: its name, how many it has, and how many stand there.
    Words(String, usize, usize),
    /// The text ends, where something else was expected.
    End(Wanted),
    /// Something else was expected.
    Wanted(Wanted),
}

/// A place where a text stops being a rule.
#[derive(Debug, Drop)]
pub struct ReadMistake {
    /// The line, from 1.
    pub line: usize,
    /// The column, from 1, in characters.
    pub column: usize,
    /// What is wrong there.
    pub kind: MistakeKind,
}

/// The mistake that a refusal names.
pub(crate) fn find_mistake(
    alloc: Global,
    scope: &RuleScope,
    text: &str,
    refusal: Refusal,
) -> Result<ReadMistake, AllocError> {
    let bytes = text.as_bytes();
    if refusal.wanted == Wanted::LessText {
        return Ok(ReadMistake {
            line: 1,
            column: 1,
            kind: MistakeKind::Wanted(refusal.wanted),
        });
    }
    if refusal.wanted == Wanted::Lexeme {
        return Ok(at(
            bytes,
            bytes.len().saturating_sub(refusal.left),
            MistakeKind::Wanted(refusal.wanted),
        ));
    }
    let lexemes = match pieces(alloc, bytes) {
        Ok(lexemes) => lexemes,
        Err(_) => return Err(AllocError),
    };
    let tokens = words(alloc, scope, bytes, &lexemes)?;
    mistake_at(alloc, scope, bytes, &lexemes, &tokens, refusal)
}

/// The mistake that a refusal of one of these tokens names, whose places in the text are those of the lexemes.
pub(crate) fn mistake_at(
    alloc: Global,
    scope: &RuleScope,
    bytes: &[u8],
    lexemes: &[Placed],
    tokens: &[Token],
    refusal: Refusal,
) -> Result<ReadMistake, AllocError> {
    let index = tokens.len().saturating_sub(refusal.left);
    if ends_statements(refusal.wanted) && is_on_without_sort(scope, tokens, index) {
        let place = match lexemes.get(index.saturating_add(1)) {
            Some(lexeme) => lexeme.start,
            None => bytes.len(),
        };
        return Ok(at(bytes, place, MistakeKind::Wanted(Wanted::Sort)));
    }
    match (lexemes.get(index), tokens.get(index)) {
        (Some(lexeme), Some(_)) if is_set(tokens, index, refusal.wanted) => {
            let name = owned(alloc, part(bytes, lexeme.start, lexeme.end))?;
            Ok(at(bytes, lexeme.start, MistakeKind::Fixed(name)))
        }
        (Some(lexeme), Some(token)) => {
            let kind = kind_at(alloc, scope, bytes, lexeme, token, refusal.wanted)?;
            Ok(at(bytes, lexeme.start, kind))
        }
        _ => Ok(at(bytes, bytes.len(), MistakeKind::End(refusal.wanted))),
    }
}

/// Whether `on` stands where a sort was wanted after it.
fn is_on_without_sort(scope: &RuleScope, tokens: &[Token], index: usize) -> bool {
    let next_is_sign = matches!(
        tokens.get(index.saturating_add(1)),
        Some(Token::Mark(Mark::Is)) | Some(Token::Sort(_))
    );
    tokens.get(index) == Some(&Token::Name(ON)) && !next_is_sign && scope.has_sort()
}

/// Whether the statements of a rule or a block end, and one more or the end was expected.
pub(crate) fn ends_statements(wanted: Wanted) -> bool {
    wanted == Wanted::Statement || wanted == Wanted::Mark(Mark::CloseBlock)
}

/// Whether a name that `let` or `repeat` gives before is followed by `=`, where a statement is
/// expected.
fn is_set(tokens: &[Token], index: usize, wanted: Wanted) -> bool {
    let (Some(name), Some(sign)) = (tokens.get(index), tokens.get(index.saturating_add(1))) else {
        return false;
    };
    if !ends_statements(wanted) || *sign != Token::Mark(Mark::Is) {
        return false;
    }
    let mut gives = false;
    'tokens: for (i, token) in tokens.iter().enumerate() {
        if i < index && gives && *token == *name {
            return true;
        }
        gives = *token == Token::Mark(Mark::Let) || *token == Token::Mark(Mark::Repeat);
    }
    false
}

/// What is wrong at a token.
fn kind_at(
    alloc: Global,
    scope: &RuleScope,
    text: &[u8],
    lexeme: &Placed,
    token: &Token,
    wanted: Wanted,
) -> Result<MistakeKind, AllocError> {
    let name = part(text, lexeme.start, lexeme.end);
    if let Wanted::Words(has, given) = wanted {
        return Ok(MistakeKind::Words(owned(alloc, name)?, has, given));
    }
    let is_read = wanted == Wanted::Value || ends_statements(wanted);
    match *token {
        Token::Own(own) if wanted == Wanted::Process => {
            let kind = scope.kind_of(own).unwrap_or("KIND".as_bytes());
            Ok(MistakeKind::Place(owned(alloc, kind)?))
        }
        Token::Mark(Mark::Kept) => Ok(MistakeKind::Kept(owned(alloc, name)?)),
        Token::Name(_) if is_read => {
            let near = nearest(alloc, scope, name)?;
            Ok(MistakeKind::Unknown(owned(alloc, name)?, near))
        }
        Token::Sign(operator) if is_comparison(operator) && ends_statements(wanted) => Ok(
            MistakeKind::Chain,
        ),
        _ if lexeme.lexeme == Lexeme::Name && wanted == Wanted::NewName => {
            let name = owned(alloc, name)?;
            Ok(match *token {
                Token::Mark(_) | Token::Known(_) | Token::Own(_) => MistakeKind::Reserved(name),
                _ => MistakeKind::InUse(name),
            })
        }
        _ => Ok(MistakeKind::Wanted(wanted)),
    }
}

fn is_comparison(operator: Operator) -> bool {
    matches!(
        operator,
        Operator::Same
            | Operator::Different
            | Operator::Below
            | Operator::AtMost
            | Operator::Above
            | Operator::AtLeast
    )
}

/// The text of a name, whose bytes are ASCII.
fn owned(alloc: Global, name: &[u8]) -> Result<String, AllocError> {
    let mut text = String::new(alloc);
    'bytes: for byte in name {
        text.push(char::from(*byte))?;
    }
    Ok(text)
}

/// The name of the scope that is nearest to this one, if at most two letters differ.
fn nearest(alloc: Global, scope: &RuleScope, name: &[u8]) -> Result<Option<String>, AllocError> {
    let name = owned(alloc, name)?;
    let mut best: Option<String> = None;
    let mut least: usize = 3;
    'entries: for index in 0..scope.count() {
        let other = owned(alloc, scope.name(index).unwrap_or(&[]))?;
        let edits = levenshtein(alloc, name.as_str(), other.as_str())?;
        if edits < least && edits < other.len() {
            least = edits;
            best = Some(other);
        }
    }
    Ok(best)
}

/// The mistake at a byte of the text.
pub(crate) fn at(text: &[u8], byte: usize, kind: MistakeKind) -> ReadMistake {
    let mut line: usize = 1;
    let mut column: usize = 1;
    'bytes: for (i, b) in text.iter().enumerate() {
        if i >= byte {
            break;
        }
        if *b == 10 {
            line = line.saturating_add(1);
            column = 1;
        } else if *b < 128 || *b >= 192 {
            // bytes from 128 to 191 go on with a character
            column = column.saturating_add(1);
        }
    }
    ReadMistake { line, column, kind }
}

impl fmt::Display for ReadMistake {
    fn fmt<W: fmt::Write>(&self, f: &mut fmt::Formatter<W>) -> fmt::Result {
        let ReadMistake { line, column, kind } = self;
        write!(f, "line {line}, column {column}: {kind}")
    }
}

impl fmt::Display for MistakeKind {
    fn fmt<W: fmt::Write>(&self, f: &mut fmt::Formatter<W>) -> fmt::Result {
        match self {
            MistakeKind::Unknown(name, Some(near)) => {
                let (name, near) = (name.as_str(), near.as_str());
                write!(
                    f,
                    "there is nothing named \"{name}\"; did you mean \"{near}\"?"
                )
            }
            MistakeKind::Unknown(name, None) => {
                let name = name.as_str();
                write!(f, "there is nothing named \"{name}\"")
            }
            MistakeKind::Kept(name) => {
                let name = name.as_str();
                if name == "key" {
                    f.write_str("\"key\" is neither read nor set")
                } else {
                    write!(f, "{name} wants the word key in the state")
                }
            }
            MistakeKind::InUse(name) => {
                let name = name.as_str();
                write!(f, "the name \"{name}\" is in use")
            }
            MistakeKind::Reserved(name) => {
                let name = name.as_str();
                write!(f, "\"{name}\" is a word of the language")
            }
            MistakeKind::Fixed(name) => {
                let name = name.as_str();
                write!(
                    f,
                    "\"{name}\" is a name of let or repeat, and only words of the state are set"
                )
            }
            MistakeKind::Chain => f.write_str("comparisons do not chain: use brackets"),
            MistakeKind::Place(kind) => {
                let kind = kind.as_str();
                write!(f, "a process of this kind is {kind}[self]")
            }
            MistakeKind::Words(sort, has, given) => {
                let sort = sort.as_str();
                let plural = if *has == 1 { "" } else { "s" };
                write!(f, "{sort} has {has} word{plural}, not {given}")
            }
            MistakeKind::End(wanted) => write!(f, "the text ends, but {wanted}"),
            MistakeKind::Wanted(wanted) => write!(f, "{wanted}"),
        }
    }
}

impl fmt::Display for Wanted {
    fn fmt<W: fmt::Write>(&self, f: &mut fmt::Formatter<W>) -> fmt::Result {
        match self {
            Wanted::Lexeme => f.write_str(
                "a sign, a name of at most 64 letters or a number below 2^64 is wanted here",
            ),
            Wanted::LessText => f.write_str("a rule has at most 65,536 bytes"),
            Wanted::Value => f.write_str("a value is wanted here"),
            Wanted::Table => f.write_str("a table is wanted here"),
            Wanted::Member => {
                f.write_str("\"[\" or \".count\" is wanted here, behind a kind of processes")
            }
            Wanted::Sort => f.write_str("a sort of messages is wanted here, behind on"),
            Wanted::Statement => f.write_str("a statement is wanted here"),
            Wanted::Mark(mark) => {
                let sign = spelling(*mark);
                write!(f, "\"{sign}\" is wanted here")
            }
            Wanted::NewName => f.write_str("a new name is wanted here"),
            Wanted::Count => f.write_str("a number below 2^32 is wanted here"),
            Wanted::LessNesting => f.write_str("this is nested more than 64 deep"),
            Wanted::FewerLinks => f.write_str(
                "this stands within more than 1,024 blocks, else if and on",
            ),
            Wanted::LowerValue => f.write_str("this value is more than 256 operators deep"),
            Wanted::FewerNames => f.write_str("more than 16 names are in scope here"),
            Wanted::Process => f.write_str("a process is wanted here, and self is a place"),
            Wanted::FirstSort => f.write_str("a message begins with its sort"),
            Wanted::Words(has, given) => write!(f, "{has} words are wanted here, not {given}"),
        }
    }
}

/// How a mark is written.
fn spelling(mark: Mark) -> &'static str {
    match mark {
        Mark::Not => "!",
        Mark::Is => "=",
        Mark::Comma => ",",
        Mark::Open => "(",
        Mark::Close => ")",
        Mark::OpenIndex => "[",
        Mark::CloseIndex => "]",
        Mark::OpenBlock => "{",
        Mark::CloseBlock => "}",
        Mark::Let => "let",
        Mark::Send => "send",
        Mark::To => "to",
        Mark::After => "after",
        Mark::With => "with",
        Mark::If => "if",
        Mark::Else => "else",
        Mark::Repeat => "repeat",
        Mark::Min => "min",
        Mark::Max => "max",
        Mark::Draw(Law::Uniform) => "draw",
        Mark::Draw(Law::Exponential) => "exponential",
        Mark::Draw(Law::Geometric) => "geometric",
        Mark::Normal => "normal",
        Mark::Triangular => "triangular",
        Mark::Choose => "choose",
        Mark::Count => ".count",
        Mark::Kept => "key",
    }
}
