// What each send of a rule says beside the grammar.

ghost use Rattle.std.specs.Prelude.{◌≡◌, None, Some, IfSome, is_some, not};
ghost use Rattle.rule_files.specs.Sends.{are_right, goes_on as goes_on_at, has_bare_self, has_its_sort, is_mark as is_mark_of, is_of_sort, is_own as is_own_token, is_right, is_sign as is_sign_token, words_from};

use crate::grammar::stop::{Refusal, Wanted, at_first};
use crate::grammar::token::{Mark, Token};
use crate::grammar::values::{code_of, first};

/// Whether a token is this mark.
fn is_mark(mark: Mark, token: Token) -> bool
    ensures { result ≡ is_mark_of mark token }
{
    match token {
        Token::Mark(other) => code_of(other) == code_of(mark),
        _ => false,
    }
}

/// Whether a token is `self`, where it is a place within a kind.
fn is_own(token: Token) -> bool
    ensures { result ≡ is_own_token token }
{
    match token {
        Token::Own(_) => true,
        _ => false,
    }
}

/// Whether a token is an operator.
fn is_sign(token: Token) -> bool
    ensures { result ≡ is_sign_token token }
{
    match token {
        Token::Sign(_) => true,
        _ => false,
    }
}

/// A `self` outside of all `[ ]` in a receiver, where it is a place within a kind.
fn bare_self(receiver: &[Token]) -> Option<Refusal>
    ensures { is_some result ≡ has_bare_self 0 receiver.now }
{
    let mut open: usize = 0;
    'tokens: for (i, token) in receiver.iter().enumerate() {
        if is_mark(Mark::After, *token) {
            return None;
        }
        if is_mark(Mark::OpenIndex, *token) {
            open += 1;
        } else if is_mark(Mark::CloseIndex, *token) {
            open = open.saturating_sub(1);
        } else if is_own(*token) && open == 0 {
            return Some(at_first(&receiver[i..], Wanted::Process));
        }
    }
    None
}

/// How many words of content stand after the first one.
fn words_behind(content: &[Token]) -> usize
    ensures { result ≡ words_from 0 content.now }
{
    let mut open: usize = 0;
    let mut words: usize = 0;
    'tokens: for token in content {
        if is_mark(Mark::Send, *token) {
            return words;
        }
        if is_mark(Mark::Open, *token) {
            open += 1;
        } else if is_mark(Mark::Close, *token) {
            open = open.saturating_sub(1);
        } else if is_mark(Mark::Comma, *token) && open == 0 {
            words += 1;
        }
    }
    words
}

/// Whether an operator comes first.
fn goes_on(tokens: &[Token]) -> bool
    ensures { result ≡ goes_on_at tokens.now }
{
    match first(tokens) {
        Some((token, _)) => is_sign(token),
        None => false,
    }
}

/// What is wrong with the content after `with`, in a model with sorts.
fn wrong_content(content: &[Token]) -> Option<Refusal>
    ensures { is_some result ≡ not (is_of_sort content.now) }
{
    match first(content) {
        Some((Token::Sort(sort), rest)) => {
            if goes_on(rest) {
                return Some(at_first(content, Wanted::FirstSort));
            }
            let given = words_behind(rest);
            if given == sort.words {
                None
            } else {
                Some(at_first(content, Wanted::Words(sort.words, given)))
            }
        }
        _ => Some(at_first(content, Wanted::FirstSort)),
    }
}

/// The refusal of a send without a sort, at its `send`.
fn without_sort(sending: &[Token]) -> Refusal {
    Refusal {
        left: sending.len().saturating_add(1),
        wanted: Wanted::FirstSort,
    }
}

/// What is wrong with the content of a send, after `send`, in a model with sorts.
fn wrong_sort(sending: &[Token]) -> Option<Refusal>
    ensures { is_some result ≡ not (has_its_sort sending.now) }
{
    'tokens: for (i, token) in sending.iter().enumerate() {
        if is_mark(Mark::Send, *token) {
            return Some(without_sort(sending));
        }
        if is_mark(Mark::With, *token) {
            return wrong_content(&sending[i + 1..]);
        }
    }
    Some(without_sort(sending))
}

/// What is wrong with a send, after `send`.
pub(crate) fn wrong_send(sorted: bool, sending: &[Token]) -> Option<Refusal>
    ensures { is_some result ≡ not (is_right sorted sending.now) }
{
    match bare_self(sending) {
        Some(refusal) => Some(refusal),
        None => if sorted { wrong_sort(sending) } else { None },
    }
}

/// The first send that is wrong, if there is one.
pub(crate) fn first_wrong(sorted: bool, tokens: &[Token]) -> Option<Refusal>
    ensures { is_some result ≡ not (are_right sorted tokens.now) }
{
    'tokens: for (i, token) in tokens.iter().enumerate() {
        if is_mark(Mark::Send, *token) {
            let wrong = wrong_send(sorted, &tokens[i + 1..]);
            if wrong.is_some() {
                return wrong;
            }
        }
    }
    None
}
