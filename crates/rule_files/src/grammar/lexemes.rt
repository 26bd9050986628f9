// Splits a text into names, numbers and signs.

ghost use Rattle.std.specs.Prelude.{◌≡◌, ◌+◌, ◌≤◌, ◌++◌, true, None, Some, List, IfOk, IfSome, OnOk, length};
ghost use Rattle.rule_files.specs.declared.grammar.lexemes.Placed.{Placed as PlacedLexeme};
ghost use Rattle.rule_files.specs.Lexical.{Splits, belongs as belongs_to, digit_step, double as double_sign, is_counting, is_digit as is_digit_byte, is_letter as is_letter_byte, is_name, is_white as is_white_byte, lexemes_at, number_of, piece as piece_at, placed, run as run_of, sign_piece, single as single_sign, word_of};
ghost use Rattle.rule_files.specs.ReadingValues.{Gives};

use crate::grammar::stop::{ReadStop, Refusal, Wanted};
use crate::grammar::token::Mark;
use rules::Operator;
use std::alloc::{AllocError, Global};

/// A name, a number or a sign.
#[derive(Clone, Copy, Debug, PartialEq, Eq)]
pub enum Lexeme {
    /// A name, or a word of the language.
    Name,
    /// A number.
    Number(u64),
    /// A binary operator.
    Sign(Operator),
    /// Any other sign.
    Mark(Mark),
}

/// A name, a number or a sign, and where it stands: the bytes from `start` up to `end`.
#[derive(Clone, Copy, Debug, PartialEq, Eq)]
pub struct Placed {
    pub lexeme: Lexeme,
    pub start: usize,
    pub end: usize,
}

/// Bytes that go on with what they began.
#[derive(Clone, Copy, Debug, PartialEq, Eq)]
pub(crate) enum Run {
    /// Letters, digits and `_`.
    Word,
    /// All but the end of the line.
    Line,
}

fn is_letter(byte: u8) -> bool
    ensures { result ≡ is_letter_byte byte }
{
    (byte >= 65 && byte <= 90) || (byte >= 97 && byte <= 122) || byte == 95
}

fn is_digit(byte: u8) -> bool
    ensures { result ≡ is_digit_byte byte }
{
    byte >= 48 && byte <= 57
}

fn is_white(byte: u8) -> bool
    ensures { result ≡ is_white_byte byte }
{
    byte == 32 || byte == 9 || byte == 10 || byte == 13
}

fn belongs(run: Run, byte: u8) -> bool
    ensures { result ≡ belongs_to run byte }
{
    match run {
        Run::Word => is_letter(byte) || is_digit(byte),
        Run::Line => byte != 10,
    }
}

/// How many bytes at the front belong to the run.
pub(crate) fn run_length(run: Run, bytes: &[u8]) -> usize
    ensures length { result ≡ run_of run bytes.now }
    ensures within { result ≤ length bytes.now }
{
    let mut count: usize = 0;
    'bytes: for byte in bytes {
        if !belongs(run, *byte) {
            return count;
        }
        count += 1;
    }
    count
}

/// Whether this is a name: 1 to 64 letters, digits and `_`, the first of them no digit.
pub(crate) fn is_whole_name(bytes: &[u8]) -> bool
    ensures { result ≡ is_name bytes.now }
{
    match bytes.first() {
        None => false,
        Some(first) => {
            is_letter(*first) && bytes.len() <= 64 && run_length(Run::Word, bytes) == bytes.len()
        }
    }
}

/// One more byte of a number: whether a digit came last, and the value.
fn next_digit(after_digit: bool, value: u64, byte: u8) -> Option<(bool, u64)>
    ensures { result ≡ digit_step after_digit value byte }
{
    if is_digit(byte) {
        let more = u128::from(value) * 10 + u128::from(byte - 48);
        if more < 0x1_0000_0000_0000_0000 {
            Some((true, more as u64))
        } else {
            None
        }
    } else if after_digit && byte == 95 {
        Some((false, value))
    } else {
        None
    }
}

/// The value of a number: digits, with `_` between two of them.
fn number(bytes: &[u8]) -> Option<u64>
    ensures { result ≡ number_of bytes.now }
{
    let mut value: u64 = 0;
    let mut after_digit = false;
    'digits: for byte in bytes {
        let (after, more) = next_digit(after_digit, value, *byte)?;
        value = more;
        after_digit = after;
    }
    if after_digit { Some(value) } else { None }
}

/// What a longest run of letters, digits and `_` is: a number or a name.
fn word(bytes: &[u8]) -> Option<Lexeme>
    ensures { result ≡ word_of bytes.now }
{
    match bytes.first() {
        None => None,
        Some(first) => {
            if is_digit(*first) {
                match number(bytes) {
                    Some(n) => Some(Lexeme::Number(n)),
                    None => None,
                }
            } else if bytes.len() <= 64 {
                Some(Lexeme::Name)
            } else {
                None
            }
        }
    }
}

/// The sign that is one byte.
fn single(byte: u8) -> Option<Lexeme>
    ensures { result ≡ single_sign byte }
{
    match byte {
        b'+' => Some(Lexeme::Sign(Operator::Plus)),
        b'-' => Some(Lexeme::Sign(Operator::Minus)),
        b'*' => Some(Lexeme::Sign(Operator::Times)),
        b'/' => Some(Lexeme::Sign(Operator::Over)),
        b'%' => Some(Lexeme::Sign(Operator::Modulo)),
        b'&' => Some(Lexeme::Sign(Operator::BitAnd)),
        b'^' => Some(Lexeme::Sign(Operator::BitXor)),
        b'|' => Some(Lexeme::Sign(Operator::BitOr)),
        b'<' => Some(Lexeme::Sign(Operator::Below)),
        b'>' => Some(Lexeme::Sign(Operator::Above)),
        b'!' => Some(Lexeme::Mark(Mark::Not)),
        b'=' => Some(Lexeme::Mark(Mark::Is)),
        b',' => Some(Lexeme::Mark(Mark::Comma)),
        b'(' => Some(Lexeme::Mark(Mark::Open)),
        b')' => Some(Lexeme::Mark(Mark::Close)),
        b'[' => Some(Lexeme::Mark(Mark::OpenIndex)),
        b']' => Some(Lexeme::Mark(Mark::CloseIndex)),
        b'{' => Some(Lexeme::Mark(Mark::OpenBlock)),
        b'}' => Some(Lexeme::Mark(Mark::CloseBlock)),
        _ => None,
    }
}

/// The sign that is two bytes.
fn double(one: u8, two: u8) -> Option<Lexeme>
    ensures { result ≡ double_sign one two }
{
    match (one, two) {
        (b'<', b'<') => Some(Lexeme::Sign(Operator::ShiftLeft)),
        (b'>', b'>') => Some(Lexeme::Sign(Operator::ShiftRight)),
        (b'=', b'=') => Some(Lexeme::Sign(Operator::Same)),
        (b'!', b'=') => Some(Lexeme::Sign(Operator::Different)),
        (b'<', b'=') => Some(Lexeme::Sign(Operator::AtMost)),
        (b'>', b'=') => Some(Lexeme::Sign(Operator::AtLeast)),
        (b'&', b'&') => Some(Lexeme::Sign(Operator::Both)),
        (b'|', b'|') => Some(Lexeme::Sign(Operator::Either)),
        _ => None,
    }
}

/// `.count`, after its point: the letters go no further.
fn is_count(rest: &[u8]) -> bool
    ensures value { result ≡ is_counting rest.now }
    ensures within { result ≡ true → 5 ≤ length rest.now }
{
    run_length(Run::Word, rest) == 5 && rest.split_at(5).0 == "count".as_bytes()
}

/// The longest sign that comes first, and its length.
fn sign(first: u8, rest: &[u8]) -> Option<(Lexeme, usize)>
    ensures piece { result ≡ sign_piece first rest.now }
    ensures within { IfSome result (λ p. p.1 ≤ length rest.now + 1) }
{
    let two = match rest.first() {
        Some(second) => double(first, *second),
        None => None,
    };
    match two {
        Some(lexeme) => Some((lexeme, 2)),
        None => match single(first) {
            Some(lexeme) => Some((lexeme, 1)),
            None => {
                if first == b'.' && is_count(rest) {
                    Some((Lexeme::Mark(Mark::Count), 6))
                } else {
                    None
                }
            }
        },
    }
}

/// What comes first and how long it is: a lexeme, or white space or a comment, which are none.
fn piece(bytes: &[u8]) -> Option<(Option<Lexeme>, usize)>
    ensures piece { result ≡ piece_at bytes.now }
    ensures within { IfSome result (λ p. p.1 ≤ length bytes.now) }
{
    let (first, rest) = bytes.split_first()?;
    if is_white(*first) {
        return Some((None, 1));
    }
    if *first == b'#' {
        return Some((None, 1 + run_length(Run::Line, rest)));
    }
    if belongs(Run::Word, *first) {
        let length = run_length(Run::Word, bytes);
        return match word(bytes.split_at(length).0) {
            Some(lexeme) => Some((Some(lexeme), length)),
            None => None,
        };
    }
    match sign(*first, rest) {
        Some((lexeme, length)) => Some((Some(lexeme), length)),
        None => None,
    }
}

/// The names, numbers and signs of a text, each with its place.
///
/// Longest match: a run of letters, digits and `_` is one name or one number, and a sign of two bytes is not two
/// signs. White space and comments, from `#` to the end of the line, only part them.
///
/// # Errors
///
/// `Refused` just where the text is not split so: a byte begins nothing, a name has more than 64 letters, or a number
/// is no decimal number below 2^64 (`_` stands between two digits only). `left` counts the bytes from there on.
pub fn tokens(alloc: Global, text: &str) -> Result<Vec<Placed>, ReadStop>
    ensures found { IfOk result (λ v. Splits 0 text.now v.items) }
    ensures only { (ts : List PlacedLexeme) → Splits 0 text.now ts → Gives (λ v. v.items) result (Some ts) }
{
    pieces(alloc, text.as_bytes())
}

/// The same of bytes, by one pass from the left.
pub(crate) fn pieces(alloc: Global, text: &[u8]) -> Result<Vec<Placed>, ReadStop>
    ensures { Gives (λ v. v.items) result (lexemes_at text.now) }
{
    let mut tokens = Vec::new(alloc);
    let mut rest = text;
    let mut at: usize = 0;
    'parts: for _turn in 0..text.len() {
        if rest.is_empty() {
            return Ok(tokens);
        }
        let Some((found, length)) = piece(rest) else {
            return Err(ReadStop::Refused(Refusal {
                left: rest.len(),
                wanted: Wanted::Lexeme,
            }));
        };
        let start = at;
        at += length;
        add_found(&mut tokens, found, start, at)?;
        rest = rest.split_at(length).1;
    }
    Ok(tokens)
}

/// Adds what was found, unless it was white space or a comment.
fn add_found(
    tokens: &mut Vec<Placed>,
    found: Option<Lexeme>,
    start: usize,
    end: usize,
) -> Result<(), AllocError>
    ensures { OnOk result (tokens.new.items ≡ tokens.old.items ++ placed found start end) }
{
    match found {
        Some(lexeme) => tokens.push(Placed { lexeme, start, end })?,
        None => {}
    }
    Ok(())
}
