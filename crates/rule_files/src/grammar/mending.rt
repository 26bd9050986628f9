// Goes on after what a rule is refused for, so that several mistakes of a text are found. Of what
// is found a clause says only that it is something: tests hold the rest.

ghost use Rattle.std.specs.Prelude.{◌≤◌, ◌≡◌, IfOk, OnOk, length};

use crate::grammar::lexemes::{Placed, Run, pieces, run_length};
use crate::grammar::mistakes::{
    MistakeKind, ReadMistake, at, ends_statements, find_mistake, mistake_at,
};
use crate::grammar::scope::RuleScope;
use crate::grammar::sends::wrong_send;
use crate::grammar::statements::{begins, rule};
use crate::grammar::stop::{ReadStop, Refusal, Wanted};
use crate::grammar::token::{Mark, Token};
use crate::grammar::words::{ON, part, words};
use std::alloc::{AllocError, Global};

/// The most mistakes that are found.
const MOST_MISTAKES: usize = 20;

/// How often a text is read again: some mistakes stand on a line that has one already.
const MOST_TURNS: u32 = 64;

/// The tokens of a text, without what was refused, and their places in it.
#[derive(Debug, Drop)]
struct Draft {
    tokens: Vec<Token>,
    places: Vec<Placed>,
}

/// The tokens that are left out: those from one index up to another, and the place of what was
/// refused.
#[derive(Clone, Copy, Debug, PartialEq, Eq)]
struct Cut {
    from: usize,
    to: usize,
    place: Placed,
}

/// The mistakes of a text, from the one that a refusal names on.
pub(crate) fn all_mistakes(
    alloc: Global,
    scope: &RuleScope,
    text: &str,
    refusal: Refusal,
) -> Result<Vec<ReadMistake>, AllocError>
    ensures { IfOk result (λ v. 1 ≤ length v.items) }
{
    let mut found = Vec::new(alloc);
    found.push(find_mistake(alloc, scope, text, refusal)?)?;
    if refusal.wanted != Wanted::LessText {
        find_more(alloc, scope, text.as_bytes(), &mut found)?;
    }
    Ok(found)
}

/// Adds the further mistakes of a text.
fn find_more(
    alloc: Global,
    scope: &RuleScope,
    text: &[u8],
    found: &mut Vec<ReadMistake>,
) -> Result<(), AllocError>
    ensures { OnOk result (length found.old.items ≤ length found.new.items) }
{
    let mut draft = match draft_of(alloc, scope, text, found)? {
        Some(draft) => draft,
        None => return Ok(()),
    };
    'turns: for _turn in 0..MOST_TURNS {
        let refusal = match rule(alloc, &draft.tokens) {
            Ok(_) => return add_sends(alloc, scope, text, &draft, found),
            Err(ReadStop::Memory) => return Err(AllocError),
            Err(ReadStop::Refused(refusal)) => refusal,
        };
        let mistake = mistake_at(alloc, scope, text, &draft.places, &draft.tokens, refusal)?;
        add(found, mistake)?;
        if is_limit(refusal.wanted) {
            return Ok(());
        }
        draft = match cut_of(text, &draft, refusal) {
            Some(cut) => without(alloc, &draft, cut, refusal.wanted)?,
            None => return Ok(()),
        };
    }
    Ok(())
}

/// Adds the mistakes of sends.
fn add_sends(
    alloc: Global,
    scope: &RuleScope,
    text: &[u8],
    draft: &Draft,
    found: &mut Vec<ReadMistake>,
) -> Result<(), AllocError>
    ensures { OnOk result (length found.old.items ≤ length found.new.items) }
{
    let sorted = scope.has_sort();
    'tokens: for (i, token) in draft.tokens.iter().enumerate() {
        if *token == Token::Mark(Mark::Send) {
            let behind = draft
                .tokens
                .split_at(i.saturating_add(1).min(draft.tokens.len()))
                .1;
            if let Some(refusal) = wrong_send(sorted, behind) {
                let places = &draft.places;
                let mistake = mistake_at(alloc, scope, text, places, &draft.tokens, refusal)?;
                add(found, mistake)?;
            }
        }
    }
    Ok(())
}

/// Whether a text nests too much: after that, each part of it would.
fn is_limit(wanted: Wanted) -> bool {
    wanted == Wanted::LessNesting || wanted == Wanted::FewerLinks
}

/// Adds a mistake, if there are few and none is on its line.
fn add(found: &mut Vec<ReadMistake>, mistake: ReadMistake) -> Result<(), AllocError>
    ensures { OnOk result (length found.old.items ≤ length found.new.items) }
{
    if found.len() >= MOST_MISTAKES || has_line(found, mistake.line) {
        return Ok(());
    }
    found.push(mistake)?;
    Ok(())
}

/// Whether one of the mistakes is on this line.
fn has_line(found: &[ReadMistake], line: usize) -> bool {
    'found: for other in found {
        if other.line == line {
            return true;
        }
    }
    false
}

/// The tokens of a text, with a 0 in place of each word that is no name and no number, and of each
/// byte that begins nothing: these are mistakes. There are no tokens if they are too many.
fn draft_of(
    alloc: Global,
    scope: &RuleScope,
    text: &[u8],
    found: &mut Vec<ReadMistake>,
) -> Result<Option<Draft>, AllocError>
    ensures { OnOk result (length found.old.items ≤ length found.new.items) }
{
    let mut mended = Vec::from_slice(alloc, text)?;
    'turns: for _turn in 0..MOST_TURNS {
        let left = match pieces(alloc, &mended) {
            Ok(places) => {
                let tokens = words(alloc, scope, &mended, &places)?;
                return Ok(Some(Draft { tokens, places }));
            }
            Err(ReadStop::Memory) => return Err(AllocError),
            Err(ReadStop::Refused(refusal)) => refusal.left,
        };
        let place = text.len().saturating_sub(left);
        add(found, at(text, place, MistakeKind::Wanted(Wanted::Lexeme)))?;
        mended = mended_at(alloc, &mended, place)?;
    }
    Ok(None)
}

/// The same bytes, with a 0 in place of the word or the byte at this place.
fn mended_at(alloc: Global, text: &[u8], place: usize) -> Result<Vec<u8>, AllocError> {
    let (front, rest) = text.split_at(place.min(text.len()));
    let word = run_length(Run::Word, rest);
    let mut mended = Vec::from_slice(alloc, front)?;
    'rest: for (i, byte) in rest.iter().enumerate() {
        let other = if i == 0 { b'0' } else { b' ' };
        mended.push(if i == 0 || i < word { other } else { *byte })?;
    }
    Ok(mended)
}

/// Whether a token is the first one of its line.
fn is_first(text: &[u8], places: &[Placed], index: usize) -> bool {
    let before = match places.get(index.wrapping_sub(1)) {
        Some(before) => before.end,
        None => return true,
    };
    let start = match places.get(index) {
        Some(place) => place.start,
        None => return true,
    };
    let between = part(text, before, start);
    'between: for byte in between {
        if *byte == 10 {
            return true;
        }
    }
    false
}

/// Whether a line whose first token this is begins a statement: it is one, or sets something.
fn begins_line(tokens: &[Token], index: usize) -> bool {
    let rest = tokens.split_at(index.min(tokens.len())).1;
    begins(rest)
        || rest.first() == Some(&Token::Name(ON))
        || rest.get(1) == Some(&Token::Mark(Mark::Is))
}

/// Whether the statement that was refused begins at a token.
fn begins_refused(text: &[u8], draft: &Draft, index: usize) -> bool {
    let before = draft.tokens.get(index.wrapping_sub(1));
    let behind_brace = before == Some(&Token::Mark(Mark::OpenBlock))
        || before == Some(&Token::Mark(Mark::CloseBlock));
    let by_word = match draft.tokens.get(index) {
        Some(Token::Mark(mark)) => {
            matches!(*mark, Mark::Let | Mark::Send | Mark::If | Mark::Repeat)
        }
        _ => false,
    };
    let by_line = begins_line(&draft.tokens, index) && is_first(text, &draft.places, index);
    by_word || by_line || behind_brace
}

/// The statement that was refused: from its first token up to the next line that begins one, or
/// the next `}`. There is none at the end of the text.
fn cut_of(text: &[u8], draft: &Draft, refusal: Refusal) -> Option<Cut> {
    let index = draft.tokens.len().saturating_sub(refusal.left);
    let place = *draft.places.get(index)?;
    let is_first_token = ends_statements(refusal.wanted);
    let from = if is_first_token {
        index
    } else {
        first_of(text, draft, index)
    };
    let to = if is_first_token && is_brace(&draft.tokens, index) {
        index.saturating_add(1)
    } else {
        let least = if is_first_token {
            index.saturating_add(1)
        } else {
            index
        };
        next_after(text, draft, least)
    };
    Some(Cut { from, to, place })
}

/// Whether a `}` stands at this index.
fn is_brace(tokens: &[Token], index: usize) -> bool {
    tokens.get(index) == Some(&Token::Mark(Mark::CloseBlock))
}

/// The last index below this one at which the refused statement may begin.
fn first_of(text: &[u8], draft: &Draft, index: usize) -> usize {
    let mut first: usize = 0;
    'tokens: for i in 0..index {
        if begins_refused(text, draft, i) {
            first = i;
        }
    }
    first
}

/// The first index from this one on at which reading goes on.
fn next_after(text: &[u8], draft: &Draft, least: usize) -> usize {
    'tokens: for i in least..draft.tokens.len() {
        let next_line = begins_line(&draft.tokens, i) && is_first(text, &draft.places, i);
        if next_line || is_brace(&draft.tokens, i) {
            return i;
        }
    }
    draft.tokens.len()
}

impl Draft {
    /// Adds a token at a place.
    fn push(&mut self, token: Token, place: Placed) -> Result<(), AllocError> {
        self.tokens.push(token)?;
        self.places.push(place)?;
        Ok(())
    }

    /// Adds tokens, all at one place.
    fn push_all(&mut self, tokens: &[Token], place: Placed) -> Result<(), AllocError> {
        'tokens: for token in tokens {
            self.push(*token, place)?;
        }
        Ok(())
    }
}

/// How many blocks some tokens open, and how many they close that they do not open.
fn braces(tokens: &[Token]) -> (usize, usize) {
    let mut opened: usize = 0;
    let mut closed: usize = 0;
    'tokens: for token in tokens {
        if *token == Token::Mark(Mark::OpenBlock) {
            opened = opened.saturating_add(1);
        } else if *token == Token::Mark(Mark::CloseBlock) {
            if opened > 0 {
                opened -= 1;
            } else {
                closed = closed.saturating_add(1);
            }
        }
    }
    (opened, closed)
}

/// The same tokens without what is cut out. In its place stand as many braces, at least the one
/// that was wanted, and the name that the statement gives; where there is no room for the name, a 0 stands for it.
fn without(alloc: Global, draft: &Draft, cut: Cut, wanted: Wanted) -> Result<Draft, AllocError> {
    let mut next = Draft {
        tokens: Vec::new(alloc),
        places: Vec::new(alloc),
    };
    let refused = cut_out(&draft.tokens, cut);
    let nameless = if wanted == Wanted::FewerNames {
        given_name(refused)
    } else {
        None
    };
    'tokens: for (i, token) in draft.tokens.iter().enumerate() {
        let Some(place) = draft.places.get(i) else {
            return Ok(next);
        };
        if i == cut.from {
            put_in_place(&mut next, refused, cut.place, wanted)?;
        }
        if i < cut.from {
            next.push(*token, *place)?;
        } else if i >= cut.to {
            let kept = if nameless == Some(*token) {
                Token::Number(0)
            } else {
                *token
            };
            next.push(kept, *place)?;
        }
    }
    Ok(next)
}

/// The tokens that are cut out.
fn cut_out(tokens: &[Token], cut: Cut) -> &[Token] {
    let behind = tokens.split_at(cut.from.min(tokens.len())).1;
    behind
        .split_at(cut.to.saturating_sub(cut.from).min(behind.len()))
        .0
}

/// Adds what stands in place of a refused statement.
fn put_in_place(
    next: &mut Draft,
    refused: &[Token],
    place: Placed,
    wanted: Wanted,
) -> Result<(), AllocError> {
    let (opened, closed) = braces(refused);
    let opened = if wanted == Wanted::Mark(Mark::OpenBlock) {
        opened.max(1)
    } else {
        opened
    };
    'closed: for _closing in 0..closed {
        next.push(Token::Mark(Mark::CloseBlock), place)?;
    }
    if wanted == Wanted::NewName || wanted == Wanted::FewerNames {
        return open_blocks(next, opened, place);
    }
    let Some(name) = given_name(refused) else {
        return open_blocks(next, opened, place);
    };
    if refused.first() == Some(&Token::Mark(Mark::Let)) {
        let zero = [
            Token::Mark(Mark::Let),
            name,
            Token::Mark(Mark::Is),
            Token::Number(0),
        ];
        next.push_all(&zero, place)?;
        return open_blocks(next, opened, place);
    }
    if opened == 0 {
        return Ok(());
    }
    let head = [
        Token::Mark(Mark::Repeat),
        name,
        Token::Number(1),
        Token::Mark(Mark::OpenBlock),
    ];
    next.push_all(&head, place)?;
    open_blocks(next, opened - 1, place)
}

/// The name after `let` or `repeat`, where the scope does not have it.
fn given_name(refused: &[Token]) -> Option<Token> {
    let first = *refused.first()?;
    let second = *refused.get(1)?;
    let gives = first == Token::Mark(Mark::Let) || first == Token::Mark(Mark::Repeat);
    if gives && matches!(second, Token::Name(_)) {
        Some(second)
    } else {
        None
    }
}

/// Opens a number of blocks.
fn open_blocks(next: &mut Draft, count: usize, place: Placed) -> Result<(), AllocError> {
    let head = [
        Token::Mark(Mark::If),
        Token::Number(0),
        Token::Mark(Mark::OpenBlock),
    ];
    'blocks: for _block in 0..count {
        next.push_all(&head, place)?;
    }
    Ok(())
}
