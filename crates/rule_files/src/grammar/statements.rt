// Reads statements, from the left.

ghost use Rattle.std.specs.Prelude.{◌≡◌, ◌<◌, ◌≤◌, ◌++◌, ◌∷◌, [], None, Some, IfOk, IfSome, MatchOption, OnOk, length};
ghost use Rattle.rule_files.specs.Grammar.{tree_of};
ghost use Rattle.rule_files.specs.ReadingValues.{Gives};
ghost use Rattle.rule_files.specs.ReadingStatements.{assignment as assignment_at, begins as begins_at, block_at, case_at, case_with, cases as cases_at, choice_at, choice_with, content as content_at, contents as contents_at, count_at, first_at, further as further_at, in_braces, naming as naming_at, new_name as new_name_at, otherwise as otherwise_at, placing as placing_at, repeated as repeated_at, repetition as repetition_at, rule_at, sending as sending_at, sort_at, statements_at, until_at, with_name as with_name_of};
ghost use Rattle.rule_files.specs.Statements.{If, Repeat, RepeatUntil, act_of, acts_of, is_of_sort as is_of};

use crate::grammar::stop::{ReadStop, Wanted, refused};
use crate::grammar::token::{Mark, SortToken, Token};
use crate::grammar::values::{Reads, behind, expect, first, place, value};
use crate::grammar::words::{ON, UNTIL};
use rules::{Array, Expression, Operator, Sending, Statement};
use std::alloc::{AllocError, Global};

/// A statement, and the name that it gives to what follows.
type Named = (Statement, Option<usize>);

/// How many names of `let` and `repeat` may be in scope at once.
const MOST_NAMES: usize = 16;

/// How many blocks may stand around one another.
const MOST_BLOCKS: u32 = 64;

/// How many blocks, `else if` and further `on` may stand around one another.
const MOST_LINKS: u32 = 1024;

/// The statements that all of these tokens form.
#[tactic(auto, unfolding(crate::specs::ReadingStatements::rule_at))]
pub(crate) fn rule(alloc: Global, tokens: &[Token]) -> Result<Vec<Statement>, ReadStop>
    ensures { Gives (λ v. acts_of v.items) result (rule_at tokens.now) }
{
    let (statements, rest) = row(alloc, &[], MOST_LINKS, MOST_BLOCKS, tokens)?;
    match first(rest) {
        None => Ok(statements),
        Some(_) => Err(refused(rest, Wanted::Statement)),
    }
}

/// The sort after `on`, where they come first, and the tokens after it.
fn sort<'a>(tokens: &'a [Token]) -> Option<(SortToken, &'a [Token])>
    ensures { MatchOption result (sort_at tokens.now ≡ None) (λ p. sort_at tokens.now ≡ Some (p.0, p.1.now)) }
{
    match first(tokens) {
        Some((Token::Name(name), rest)) => match first(rest) {
            Some((Token::Sort(sort), behind)) => if name == ON {
                Some((sort, behind))
            } else {
                None
            },
            _ => None,
        },
        _ => None,
    }
}

/// Whether a statement begins here.
pub(crate) fn begins(tokens: &[Token]) -> bool
    ensures { result ≡ begins_at tokens.now }
{
    match first(tokens) {
        Some((Token::Word(_), _)) | Some((Token::Array(_), _)) => true,
        Some((Token::Name(_), _)) => sort(tokens).is_some(),
        Some((Token::Mark(mark), _)) => match mark {
            Mark::Let | Mark::Send | Mark::If | Mark::Repeat => true,
            _ => false,
        },
        _ => false,
    }
}

/// Adds the name that a statement gives.
fn add_name(names: &mut Vec<usize>, name: Option<usize>) -> Result<(), AllocError>
    ensures { OnOk result (names.new.items ≡ with_name_of names.old.items name) }
{
    match name {
        Some(name) => names.push(name)?,
        None => {}
    }
    Ok(())
}

/// Statements, one after the other, as far as they go.
#[cycle(statements)]
fn row<'a>(
    alloc: Global,
    names: &[usize],
    links: u32,
    depth: u32,
    tokens: &'a [Token],
) -> Reads<'a, Vec<Statement>>
    requires { length names.now ≤ 16 }
    ensures { Gives (λ p. (acts_of p.0.items, p.1.now)) result (statements_at links depth names.now tokens.now) }
{
    let mut names = Vec::from_slice(alloc, names)?;
    let mut statements = Vec::new(alloc);
    let mut rest = tokens;
    'statements: for _turn in 0..tokens.len() {
        if !begins(rest) {
            return Ok((statements, rest));
        }
        let ((statement, name), after) = one(alloc, &names, links, depth, rest)?;
        statements.push(statement)?;
        add_name(&mut names, name)?;
        rest = after;
    }
    Ok((statements, rest))
}

/// A statement.
#[cycle(statements)]
fn one<'a>(
    alloc: Global,
    names: &[usize],
    links: u32,
    depth: u32,
    tokens: &'a [Token],
) -> Reads<'a, Named>
    requires { length names.now ≤ 16 }
    ensures read { Gives (λ p. ((act_of p.0.0, p.0.1), p.1.now)) result (first_at links depth names.now tokens.now) }
    ensures room { IfOk result (λ p. IfSome p.0.1 (λ _. length names.now < 16)) }
{
    match first(tokens) {
        Some((Token::Word(place), rest)) => assignment(alloc, names, depth, place, rest),
        Some((Token::Array(array), rest)) => placing(alloc, names, depth, array, rest),
        Some((Token::Mark(Mark::Let), rest)) => naming(alloc, names, depth, rest),
        Some((Token::Mark(Mark::Send), rest)) => sending(alloc, names, depth, rest),
        Some((Token::Mark(Mark::If), rest)) => {
            let (statement, rest) = choice(alloc, names, links, depth, rest)?;
            Ok(((statement, None), rest))
        }
        Some((Token::Mark(Mark::Repeat), rest)) => repetition(alloc, names, links, depth, rest),
        Some((Token::Name(_), _)) => cases(alloc, names, links, depth, tokens),
        _ => Err(refused(tokens, Wanted::Statement)),
    }
}

/// A name that is not in use, where there is room for one more.
fn new_name<'a>(names: &[usize], tokens: &'a [Token]) -> Reads<'a, usize>
    requires { length names.now ≤ 16 }
    ensures read { Gives (λ p. (p.0, p.1.now)) result (new_name_at names.now tokens.now) }
    ensures room { IfOk result (λ _. length names.now < 16) }
{
    match first(tokens) {
        Some((Token::Name(name), rest)) => {
            if place(names, name).is_some() {
                return Err(refused(tokens, Wanted::NewName));
            }
            if names.len() < MOST_NAMES {
                Ok((name, rest))
            } else {
                Err(refused(tokens, Wanted::FewerNames))
            }
        }
        _ => Err(refused(tokens, Wanted::NewName)),
    }
}

/// A name and its value, after `let`.
fn naming<'a>(alloc: Global, names: &[usize], depth: u32, tokens: &'a [Token]) -> Reads<'a, Named>
    requires { length names.now ≤ 16 }
    ensures read { Gives (λ p. ((act_of p.0.0, p.0.1), p.1.now)) result (naming_at depth names.now tokens.now) }
    ensures room { IfOk result (λ p. IfSome p.0.1 (λ _. length names.now < 16)) }
{
    let (name, rest) = new_name(names, tokens)?;
    let rest = expect(Mark::Is, rest)?;
    let (x, rest) = value(alloc, names, depth, rest)?;
    Ok(((Statement::Let(names.len() as u8, x), Some(name)), rest))
}

/// The value of a word of the state, after the word.
fn assignment<'a>(
    alloc: Global,
    names: &[usize],
    depth: u32,
    place: u8,
    tokens: &'a [Token],
) -> Reads<'a, Named>
    requires { length names.now ≤ 16 }
    ensures read { Gives (λ p. ((act_of p.0.0, p.0.1), p.1.now)) result (assignment_at depth place names.now tokens.now) }
    ensures none { IfOk result (λ p. p.0.1 ≡ None) }
{
    let rest = expect(Mark::Is, tokens)?;
    let (x, rest) = value(alloc, names, depth, rest)?;
    Ok(((Statement::Set(place, x), None), rest))
}

/// The index and the value of an element, after its array.
fn placing<'a>(
    alloc: Global,
    names: &[usize],
    depth: u32,
    array: Array,
    tokens: &'a [Token],
) -> Reads<'a, Named>
    requires { length names.now ≤ 16 }
    ensures read { Gives (λ p. ((act_of p.0.0, p.0.1), p.1.now)) result (placing_at depth array names.now tokens.now) }
    ensures none { IfOk result (λ p. p.0.1 ≡ None) }
{
    let rest = expect(Mark::OpenIndex, tokens)?;
    let (index, rest) = value(alloc, names, depth, rest)?;
    let rest = expect(Mark::CloseIndex, rest)?;
    let rest = expect(Mark::Is, rest)?;
    let (x, rest) = value(alloc, names, depth, rest)?;
    Ok(((Statement::Put(array, index, x), None), rest))
}

/// A word of content after its mark, if it may be given and is; or else 0.
fn content<'a>(
    alloc: Global,
    names: &[usize],
    depth: u32,
    mark: Mark,
    may: bool,
    tokens: &'a [Token],
) -> Reads<'a, (Expression, bool)>
    requires { length names.now ≤ 16 }
    ensures { Gives (λ p. ((tree_of p.0.0, p.0.1), p.1.now)) result (content_at depth mark may names.now tokens.now) }
{
    if !may {
        return Ok(((Expression::Number(0), false), tokens));
    }
    match behind(mark, tokens) {
        None => Ok(((Expression::Number(0), false), tokens)),
        Some(rest) => {
            let (x, rest) = value(alloc, names, depth, rest)?;
            Ok(((x, true), rest))
        }
    }
}

/// What a send says, after `send`.
fn sending<'a>(alloc: Global, names: &[usize], depth: u32, tokens: &'a [Token]) -> Reads<'a, Named>
    requires { length names.now ≤ 16 }
    ensures read { Gives (λ p. ((act_of p.0.0, p.0.1), p.1.now)) result (sending_at depth names.now tokens.now) }
    ensures none { IfOk result (λ p. p.0.1 ≡ None) }
{
    let rest = expect(Mark::To, tokens)?;
    let (to, rest) = value(alloc, names, depth, rest)?;
    let rest = expect(Mark::After, rest)?;
    let (after, rest) = value(alloc, names, depth, rest)?;
    let ((a, given), rest) = content(alloc, names, depth, Mark::With, true, rest)?;
    let ((b, given), rest) = content(alloc, names, depth, Mark::Comma, given, rest)?;
    let ((c, given), rest) = content(alloc, names, depth, Mark::Comma, given, rest)?;
    let ((d, _), rest) = content(alloc, names, depth, Mark::Comma, given, rest)?;
    let sending = Sending {
        to,
        after,
        a,
        b,
        c,
        d,
    };
    Ok(((Statement::Send(sending), None), rest))
}

/// A choice between two blocks.
fn chosen(x: Expression, met: Vec<Statement>, unmet: Vec<Statement>) -> Statement
    ensures { act_of result ≡ If (tree_of x) (acts_of met.items) (acts_of unmet.items) }
{
    Statement::If(x, met, unmet)
}

/// What follows `if`.
#[cycle(statements)]
fn choice<'a>(
    alloc: Global,
    names: &[usize],
    links: u32,
    depth: u32,
    tokens: &'a [Token],
) -> Reads<'a, Statement>
    requires { length names.now ≤ 16 }
    ensures { Gives (λ p. (act_of p.0, p.1.now)) result (choice_with depth (block_at links depth) (choice_at links depth) names.now tokens.now) }
{
    let (x, rest) = value(alloc, names, depth, tokens)?;
    let (met, rest) = block(alloc, names, links, depth, rest)?;
    let (unmet, rest) = otherwise(alloc, names, links, depth, rest)?;
    Ok((chosen(x, met, unmet), rest))
}

/// `else` and its block, which may be one `if` more; or nothing.
#[cycle(statements)]
fn otherwise<'a>(
    alloc: Global,
    names: &[usize],
    links: u32,
    depth: u32,
    tokens: &'a [Token],
) -> Reads<'a, Vec<Statement>>
    requires { length names.now ≤ 16 }
    ensures { Gives (λ p. (acts_of p.0.items, p.1.now)) result (otherwise_at (block_at links depth) (choice_at links depth) names.now tokens.now) }
{
    let Some(rest) = behind(Mark::Else, tokens) else {
        return Ok((Vec::new(alloc), tokens));
    };
    let Some(more) = behind(Mark::If, rest) else {
        return block(alloc, names, links, depth, rest);
    };
    let (statement, rest) = nested_choice(alloc, names, links, depth, more)?;
    let mut statements = Vec::new(alloc);
    statements.push(statement)?;
    Ok((statements, rest))
}

/// What stands after `else if`, which takes one link.
#[cycle(statements)]
fn nested_choice<'a>(
    alloc: Global,
    names: &[usize],
    links: u32,
    depth: u32,
    tokens: &'a [Token],
) -> Reads<'a, Statement>
    requires { length names.now ≤ 16 }
    ensures { Gives (λ p. (act_of p.0, p.1.now)) result (choice_at links depth names.now tokens.now) }
{
    if links == 0 {
        return Err(refused(tokens, Wanted::FewerLinks));
    }
    choice(alloc, names, links - 1, depth, tokens)
}

/// A chain of `on`, with nothing before it.
#[cycle(statements)]
fn cases<'a>(
    alloc: Global,
    names: &[usize],
    links: u32,
    depth: u32,
    tokens: &'a [Token],
) -> Reads<'a, Named>
    requires { length names.now ≤ 16 }
    ensures read { Gives (λ p. ((act_of p.0.0, p.0.1), p.1.now)) result (cases_at (block_at links depth) (case_at links depth) names.now tokens.now) }
    ensures none { IfOk result (λ p. p.0.1 ≡ None) }
{
    let Some((sort, rest)) = sort(tokens) else {
        return Err(refused(tokens, Wanted::Statement));
    };
    let (statement, rest) = case(alloc, names, links, depth, sort, rest)?;
    Ok(((statement, None), rest))
}

/// Whether the first word of the content is the number of a sort.
fn is_of_sort(alloc: Global, sort: SortToken) -> Result<Expression, AllocError>
    ensures { IfOk result (λ e. tree_of e ≡ is_of sort) }
{
    let word = Box::new(alloc, Expression::Content(0))?;
    let number = Box::new(alloc, Expression::Number(sort.number))?;
    Ok(Expression::Two(Operator::Same, word, number))
}

/// What stands after `on` and a sort.
#[cycle(statements)]
fn case<'a>(
    alloc: Global,
    names: &[usize],
    links: u32,
    depth: u32,
    sort: SortToken,
    tokens: &'a [Token],
) -> Reads<'a, Statement>
    requires { length names.now ≤ 16 }
    ensures { Gives (λ p. (act_of p.0, p.1.now)) result (case_with (block_at links depth) (case_at links depth) sort names.now tokens.now) }
{
    let (met, rest) = block(alloc, names, links, depth, tokens)?;
    let (unmet, rest) = further(alloc, names, links, depth, rest)?;
    Ok((chosen(is_of_sort(alloc, sort)?, met, unmet), rest))
}

/// A further `on`, if there is one.
#[cycle(statements)]
fn further<'a>(
    alloc: Global,
    names: &[usize],
    links: u32,
    depth: u32,
    tokens: &'a [Token],
) -> Reads<'a, Vec<Statement>>
    requires { length names.now ≤ 16 }
    ensures { Gives (λ p. (acts_of p.0.items, p.1.now)) result (further_at (sort_at tokens.now) (case_at links depth) names.now tokens.now) }
{
    let mut statements = Vec::new(alloc);
    let Some((sort, more)) = sort(tokens) else {
        return Ok((statements, tokens));
    };
    let (statement, rest) = nested_case(alloc, names, links, depth, sort, more)?;
    statements.push(statement)?;
    Ok((statements, rest))
}

/// What stands after a further `on` and its sort, which takes one link.
#[cycle(statements)]
fn nested_case<'a>(
    alloc: Global,
    names: &[usize],
    links: u32,
    depth: u32,
    sort: SortToken,
    tokens: &'a [Token],
) -> Reads<'a, Statement>
    requires { length names.now ≤ 16 }
    ensures { Gives (λ p. (act_of p.0, p.1.now)) result (case_at links depth sort names.now tokens.now) }
{
    if links == 0 {
        return Err(refused(tokens, Wanted::FewerLinks));
    }
    case(alloc, names, links - 1, depth, sort, tokens)
}

/// How often a block is repeated.
fn count<'a>(tokens: &'a [Token]) -> Reads<'a, u32>
    ensures { Gives (λ p. (p.0, p.1.now)) result (count_at tokens.now) }
{
    match first(tokens) {
        Some((Token::Number(n), rest)) => {
            if n < 0x1_0000_0000 {
                Ok((n as u32, rest))
            } else {
                Err(refused(tokens, Wanted::Count))
            }
        }
        _ => Err(refused(tokens, Wanted::Count)),
    }
}

/// A block that is repeated.
fn repeated(place: u8, count: u32, body: Vec<Statement>) -> Statement
    ensures { act_of result ≡ Repeat place count (acts_of body.items) }
{
    Statement::Repeat(place, count, body)
}

/// A block that is repeated until a value is not 0.
fn repeated_until(place: u8, count: u32, x: Expression, body: Vec<Statement>) -> Statement
    ensures { act_of result ≡ RepeatUntil place count (tree_of x) (acts_of body.items) }
{
    Statement::RepeatUntil(place, count, x, body)
}

/// The tokens after `until`, where it comes first.
fn until<'a>(tokens: &'a [Token]) -> Option<&'a [Token]>
    ensures { MatchOption result (until_at tokens.now ≡ None) (λ rest. until_at tokens.now ≡ Some rest.now) }
{
    match first(tokens) {
        Some((Token::Name(name), rest)) => if name == UNTIL { Some(rest) } else { None },
        _ => None,
    }
}

/// What follows `repeat`.
#[cycle(statements)]
fn repetition<'a>(
    alloc: Global,
    names: &[usize],
    links: u32,
    depth: u32,
    tokens: &'a [Token],
) -> Reads<'a, Named>
    requires { length names.now ≤ 16 }
    ensures read { Gives (λ p. ((act_of p.0.0, p.0.1), p.1.now)) result (repetition_at depth (block_at links depth) names.now tokens.now) }
    ensures none { IfOk result (λ p. p.0.1 ≡ None) }
{
    let (name, rest) = new_name(names, tokens)?;
    let (count, rest) = count(rest)?;
    let mut inner = Vec::from_slice(alloc, names)?;
    inner.push(name)?;
    turns(alloc, &inner, links, depth, names.len() as u8, count, rest)
}

/// What stands after the count of `repeat`, with the name of the turn in scope.
#[cycle(statements)]
fn turns<'a>(
    alloc: Global,
    names: &[usize],
    links: u32,
    depth: u32,
    place: u8,
    count: u32,
    tokens: &'a [Token],
) -> Reads<'a, Named>
    requires { length names.now ≤ 16 }
    ensures read { Gives (λ p. ((act_of p.0.0, p.0.1), p.1.now)) result
        (repeated_at (until_at tokens.now) depth (block_at links depth) place count names.now tokens.now) }
    ensures none { IfOk result (λ p. p.0.1 ≡ None) }
{
    let Some(rest) = until(tokens) else {
        let (body, rest) = block(alloc, names, links, depth, tokens)?;
        return Ok(((repeated(place, count, body), None), rest));
    };
    let (x, rest) = value(alloc, names, depth, rest)?;
    let (body, rest) = block(alloc, names, links, depth, rest)?;
    Ok(((repeated_until(place, count, x, body), None), rest))
}

/// A block, which is nested once more.
#[cycle(statements)]
fn block<'a>(
    alloc: Global,
    names: &[usize],
    links: u32,
    depth: u32,
    tokens: &'a [Token],
) -> Reads<'a, Vec<Statement>>
    requires { length names.now ≤ 16 }
    ensures { Gives (λ p. (acts_of p.0.items, p.1.now)) result (block_at links depth names.now tokens.now) }
{
    if depth == 0 {
        return Err(refused(tokens, Wanted::LessNesting));
    }
    if links == 0 {
        return Err(refused(tokens, Wanted::FewerLinks));
    }
    braces(alloc, names, links - 1, depth - 1, tokens)
}

/// Statements in braces.
#[cycle(statements)]
fn braces<'a>(
    alloc: Global,
    names: &[usize],
    links: u32,
    depth: u32,
    tokens: &'a [Token],
) -> Reads<'a, Vec<Statement>>
    requires { length names.now ≤ 16 }
    ensures { Gives (λ p. (acts_of p.0.items, p.1.now)) result (in_braces (statements_at links depth) names.now tokens.now) }
{
    let rest = expect(Mark::OpenBlock, tokens)?;
    let (statements, rest) = row(alloc, names, links, depth, rest)?;
    let rest = expect(Mark::CloseBlock, rest)?;
    Ok((statements, rest))
}
