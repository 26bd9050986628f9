// Reads a value, from the left.

ghost use Rattle.std.specs.Prelude.{◌≡◌, ◌+◌, ◌-◌, ◌^◌, ◌≤◌, [], ◌∷◌, None, Some, length, min, MatchOption};
ghost use Rattle.rule_files.specs.Grammar.{Normal, Two, code, height as height_of, law_code, looseness as looseness_of, member as member_of, own_place, place_of, tree_of};
ghost use Rattle.rule_files.specs.declared.grammar.token.Mark.TheVariants as m;
ghost use Rattle.rule_files.specs.ReadingValues.{Gives, and_rest, behind as behind_mark, chain as chained, chosen_at, enclosed as enclosed_at, inside, level as level_at, made, by_mark, of_kind, pair_at, primary as primary_at, sign_at, table_at, three_at, turns as turns_of, value_at};

use crate::grammar::stop::{ReadStop, Wanted, refused};
use crate::grammar::token::{Mark, Token};
use rules::{Expression, Known, Law, Operator};
use std::alloc::Global;

/// What was read, and the tokens after it.
pub(crate) type Reads<'a, T> = Result<(T, &'a [Token]), ReadStop>;

/// How loosely an operator binds, from 1; 0 for those that are no signs.
fn looseness(operator: Operator) -> u32
    ensures { result ≡ looseness_of operator }
{
    match operator {
        Operator::Times | Operator::Over | Operator::Modulo => 1,
        Operator::Plus | Operator::Minus => 2,
        Operator::ShiftLeft | Operator::ShiftRight => 3,
        Operator::BitAnd => 4,
        Operator::BitXor => 5,
        Operator::BitOr => 6,
        Operator::Same
        | Operator::Different
        | Operator::Below
        | Operator::AtMost
        | Operator::Above
        | Operator::AtLeast => 7,
        Operator::Both => 8,
        Operator::Either => 9,
        Operator::Least | Operator::Greatest => 0,
    }
}

/// The number of a mark, by which marks are compared.
pub(crate) fn code_of(mark: Mark) -> u32
    ensures { result ≡ code mark }
{
    match mark {
        Mark::Not => 0,
        Mark::Is => 1,
        Mark::Comma => 2,
        Mark::Open => 3,
        Mark::Close => 4,
        Mark::OpenIndex => 5,
        Mark::CloseIndex => 6,
        Mark::OpenBlock => 7,
        Mark::CloseBlock => 8,
        Mark::Let => 9,
        Mark::Send => 10,
        Mark::To => 11,
        Mark::After => 12,
        Mark::With => 13,
        Mark::If => 14,
        Mark::Else => 15,
        Mark::Repeat => 16,
        Mark::Min => 17,
        Mark::Max => 18,
        Mark::Draw(law) => code_of_law(law),
        Mark::Kept => 20,
        Mark::Normal => 23,
        Mark::Triangular => 24,
        Mark::Choose => 25,
        Mark::Count => 26,
    }
}

/// The number of the mark of a distribution.
fn code_of_law(law: Law) -> u32
    ensures { result ≡ law_code law }
{
    match law {
        Law::Uniform => 19,
        Law::Exponential => 21,
        Law::Geometric => 22,
    }
}

/// The first token, and the tokens after it.
pub(crate) fn first<'a>(tokens: &'a [Token]) -> Option<(Token, &'a [Token])>
    ensures { MatchOption result (tokens.now ≡ []) (λ p. tokens.now ≡ p.0 ∷ p.1.now) }
{
    match tokens.split_first() {
        Some((first, rest)) => Some((*first, rest)),
        None => None,
    }
}

/// The tokens after this mark, where it comes first.
pub(crate) fn behind<'a>(mark: Mark, tokens: &'a [Token]) -> Option<&'a [Token]>
    ensures { MatchOption result (behind_mark mark tokens.now ≡ None) (λ rest. behind_mark mark tokens.now ≡ Some rest.now) }
{
    match first(tokens) {
        Some((Token::Mark(other), rest)) => {
            if code_of(other) == code_of(mark) {
                Some(rest)
            } else {
                None
            }
        }
        _ => None,
    }
}

/// The tokens after this mark, which has to come first.
pub(crate) fn expect<'a>(mark: Mark, tokens: &'a [Token]) -> Result<&'a [Token], ReadStop>
    ensures { Gives (λ rest. rest.now) result (behind_mark mark tokens.now) }
{
    match behind(mark, tokens) {
        Some(rest) => Ok(rest),
        None => Err(refused(tokens, Wanted::Mark(mark))),
    }
}

/// The place of a name among those in scope.
pub(crate) fn place(names: &[usize], name: usize) -> Option<u8>
    requires { length names.now ≤ 16 }
    ensures { result ≡ place_of name names.now }
{
    let mut place: u8 = 0;
    'names: for other in names {
        if *other == name {
            return Some(place);
        }
        place += 1;
    }
    None
}

/// How many operators deep a value is.
fn height(e: &Expression) -> u64
    ensures { result ≡ min (height_of (tree_of e.now)) (2 ^ 64 - 1) }
{
    match e {
        Expression::Number(_)
        | Expression::Word(_)
        | Expression::Content(_)
        | Expression::Local(_)
        | Expression::Read(_)
        | Expression::Choose(_) => 0,
        Expression::Not(x)
        | Expression::Entry(_, x)
        | Expression::Draw(_, x)
        | Expression::Element(_, x) => height(x).saturating_add(1),
        Expression::Two(_, x, y) | Expression::Normal(x, y) => {
            height(x).max(height(y)).saturating_add(1)
        }
        Expression::Triangular(x, y, z) => {
            height(x).max(height(y)).max(height(z)).saturating_add(1)
        }
    }
}

/// A value that was put together, if it is not too deep.
fn checked<'a>(e: Expression, rest: &'a [Token]) -> Reads<'a, Expression>
    ensures { Gives (λ p. (tree_of p.0, p.1.now)) result (made (tree_of e) rest.now) }
{
    if height(&e) <= 256 {
        Ok((e, rest))
    } else {
        Err(refused(rest, Wanted::LowerValue))
    }
}

/// A value, as far as it goes.
#[tactic(auto, unfolding(crate::specs::ReadingValues::value_at))]
pub(crate) fn value<'a>(
    alloc: Global,
    names: &[usize],
    depth: u32,
    tokens: &'a [Token],
) -> Reads<'a, Expression>
    requires { length names.now ≤ 16 }
    ensures { Gives (λ p. (tree_of p.0, p.1.now)) result (value_at names.now depth tokens.now) }
{
    level(alloc, names, tokens.len(), depth, 9, tokens)
}

/// A value of operators that bind at most so loosely.
#[cycle(values)]
fn level<'a>(
    alloc: Global,
    names: &[usize],
    most: usize,
    depth: u32,
    k: u32,
    tokens: &'a [Token],
) -> Reads<'a, Expression>
    requires strength { k ≤ 9 }
    requires names { length names.now ≤ 16 }
    ensures { Gives (λ p. (tree_of p.0, p.1.now)) result (level_at names.now most (inside names.now most depth) k tokens.now) }
{
    if k == 0 {
        return primary(alloc, names, most, depth, tokens);
    }
    let (left, rest) = level(alloc, names, most, depth, k - 1, tokens)?;
    let turns = turns(k, most);
    chain(alloc, names, most, depth, k - 1, turns, left, rest)
}

/// How many operators of this looseness may follow each other: comparisons do not chain.
fn turns(k: u32, most: usize) -> usize
    ensures { result ≡ turns_of k most }
{
    if k == 7 { 1 } else { most }
}

/// The operator of this looseness that comes first, and the tokens after it.
fn sign<'a>(looseness_wanted: u32, tokens: &'a [Token]) -> Option<(Operator, &'a [Token])>
    ensures { MatchOption result (sign_at looseness_wanted tokens.now ≡ None)
        (λ p. sign_at looseness_wanted tokens.now ≡ Some (p.0, p.1.now)) }
{
    match first(tokens) {
        Some((Token::Sign(operator), rest)) => {
            if looseness(operator) == looseness_wanted {
                Some((operator, rest))
            } else {
                None
            }
        }
        _ => None,
    }
}

/// Goes on after a left side, while operators of this looseness follow, one more than `k`.
#[cycle(values)]
fn chain<'a>(
    alloc: Global,
    names: &[usize],
    most: usize,
    depth: u32,
    k: u32,
    turns: usize,
    left: Expression,
    tokens: &'a [Token],
) -> Reads<'a, Expression>
    requires strength { k ≤ 8 }
    requires names { length names.now ≤ 16 }
    ensures { Gives (λ p. (tree_of p.0, p.1.now)) result
        (chained (k + 1) (level_at names.now most (inside names.now most depth) k) turns (tree_of left) tokens.now) }
{
    let mut left = left;
    let mut rest = tokens;
    'operators: for _turn in 0..turns {
        let Some((operator, after)) = sign(k + 1, rest) else {
            return Ok((left, rest));
        };
        let (right, behind) = level(alloc, names, most, depth, k, after)?;
        let (both, behind) = two(alloc, operator, left, right, behind)?;
        left = both;
        rest = behind;
    }
    Ok((left, rest))
}

/// An operator on two values.
fn two<'a>(
    alloc: Global,
    operator: Operator,
    left: Expression,
    right: Expression,
    rest: &'a [Token],
) -> Reads<'a, Expression>
    ensures { Gives (λ p. (tree_of p.0, p.1.now)) result (made (Two operator (tree_of left) (tree_of right)) rest.now) }
{
    let both = Expression::Two(operator, Box::new(alloc, left)?, Box::new(alloc, right)?);
    checked(both, rest)
}

/// A value without operators outside brackets, but for `!`.
#[cycle(values)]
fn primary<'a>(
    alloc: Global,
    names: &[usize],
    most: usize,
    depth: u32,
    tokens: &'a [Token],
) -> Reads<'a, Expression>
    requires { length names.now ≤ 16 }
    ensures { Gives (λ p. (tree_of p.0, p.1.now)) result (primary_at names.now (inside names.now most depth) tokens.now) }
{
    match first(tokens) {
        Some((Token::Number(n), rest)) => Ok((Expression::Number(n), rest)),
        Some((Token::Known(known), rest)) => Ok((Expression::Read(known), rest)),
        Some((Token::Word(i), rest)) => Ok((Expression::Word(i), rest)),
        Some((Token::Content(i), rest)) => Ok((Expression::Content(i), rest)),
        Some((Token::Name(name), rest)) => match place(names, name) {
            Some(i) => Ok((Expression::Local(i), rest)),
            None => Err(refused(tokens, Wanted::Value)),
        },
        Some((Token::Table(table), rest)) => {
            let rest = expect(Mark::OpenIndex, rest)?;
            let (x, rest) = enclosed(alloc, names, most, depth, Mark::CloseIndex, rest)?;
            checked(Expression::Entry(table, Box::new(alloc, x)?), rest)
        }
        Some((Token::Array(array), rest)) => {
            let rest = expect(Mark::OpenIndex, rest)?;
            let (x, rest) = enclosed(alloc, names, most, depth, Mark::CloseIndex, rest)?;
            checked(Expression::Element(array, Box::new(alloc, x)?), rest)
        }
        Some((Token::Own(first), rest)) => own(alloc, first, rest),
        Some((Token::Sort(sort), rest)) => Ok((Expression::Number(sort.number), rest)),
        Some((Token::Kind(first, count), rest)) => {
            member(alloc, names, most, depth, first, count, rest)
        }
        Some((Token::Mark(mark), rest)) => { marked(alloc, names, most, depth, mark, tokens, rest) }
        _ => Err(refused(tokens, Wanted::Value)),
    }
}

/// The place of the process within its kind.
fn own<'a>(alloc: Global, first: u32, rest: &'a [Token]) -> Reads<'a, Expression>
    ensures { Gives (λ p. (tree_of p.0, p.1.now)) result (and_rest (Some (own_place first)) rest.now) }
{
    let process = Box::new(alloc, Expression::Read(Known::Process))?;
    let first = Box::new(alloc, Expression::Number(u64::from(first)))?;
    Ok((Expression::Two(Operator::Minus, process, first), rest))
}

/// A process of a kind, by its index.
fn indexed<'a>(
    alloc: Global,
    first: u32,
    count: u32,
    index: Expression,
    rest: &'a [Token],
) -> Reads<'a, Expression>
    ensures { Gives (λ p. (tree_of p.0, p.1.now)) result (made (member_of first count (tree_of index)) rest.now) }
{
    let count = Box::new(alloc, Expression::Number(u64::from(count)))?;
    let place = Expression::Two(Operator::Modulo, Box::new(alloc, index)?, count);
    let first = Box::new(alloc, Expression::Number(u64::from(first)))?;
    checked(
        Expression::Two(Operator::Plus, first, Box::new(alloc, place)?),
        rest,
    )
}

/// The number of a kind's processes, or one of them by its index.
#[cycle(values)]
fn member<'a>(
    alloc: Global,
    names: &[usize],
    most: usize,
    depth: u32,
    first: u32,
    count: u32,
    tokens: &'a [Token],
) -> Reads<'a, Expression>
    requires { length names.now ≤ 16 }
    ensures { Gives (λ p. (tree_of p.0, p.1.now)) result
        (of_kind (behind_mark m.Count tokens.now) first count (inside names.now most depth 9) tokens.now) }
{
    if let Some(rest) = behind(Mark::Count, tokens) {
        return Ok((Expression::Number(u64::from(count)), rest));
    }
    let Some(rest) = behind(Mark::OpenIndex, tokens) else {
        return Err(refused(tokens, Wanted::Member));
    };
    let (index, rest) = enclosed(alloc, names, most, depth, Mark::CloseIndex, rest)?;
    indexed(alloc, first, count, index, rest)
}

/// A value that begins with a mark; `all` begins with it.
#[cycle(values)]
fn marked<'a>(
    alloc: Global,
    names: &[usize],
    most: usize,
    depth: u32,
    mark: Mark,
    all: &'a [Token],
    tokens: &'a [Token],
) -> Reads<'a, Expression>
    requires { length names.now ≤ 16 }
    ensures { Gives (λ p. (tree_of p.0, p.1.now)) result (by_mark mark (inside names.now most depth) tokens.now) }
{
    match mark {
        Mark::Not => {
            let (x, rest) = nested(alloc, names, most, depth, 0, tokens)?;
            checked(Expression::Not(Box::new(alloc, x)?), rest)
        }
        Mark::Open => enclosed(alloc, names, most, depth, Mark::Close, tokens),
        Mark::Draw(law) => {
            let rest = expect(Mark::Open, tokens)?;
            let (x, rest) = enclosed(alloc, names, most, depth, Mark::Close, rest)?;
            checked(Expression::Draw(law, Box::new(alloc, x)?), rest)
        }
        Mark::Normal => normal(alloc, names, most, depth, tokens),
        Mark::Triangular => triangular(alloc, names, most, depth, tokens),
        Mark::Choose => choice(tokens),
        Mark::Min => pair(alloc, names, most, depth, Operator::Least, tokens),
        Mark::Max => pair(alloc, names, most, depth, Operator::Greatest, tokens),
        _ => Err(refused(all, Wanted::Value)),
    }
}

/// `(`, two values with a comma between them, and `)`.
#[cycle(values)]
fn pair<'a>(
    alloc: Global,
    names: &[usize],
    most: usize,
    depth: u32,
    operator: Operator,
    tokens: &'a [Token],
) -> Reads<'a, Expression>
    requires { length names.now ≤ 16 }
    ensures { Gives (λ p. (tree_of p.0, p.1.now)) result (pair_at (Two operator) (inside names.now most depth 9) tokens.now) }
{
    let rest = expect(Mark::Open, tokens)?;
    let (left, rest) = enclosed(alloc, names, most, depth, Mark::Comma, rest)?;
    let (right, rest) = enclosed(alloc, names, most, depth, Mark::Close, rest)?;
    two(alloc, operator, left, right, rest)
}

/// A mean and a deviation in brackets, with a comma between them.
#[cycle(values)]
fn normal<'a>(
    alloc: Global,
    names: &[usize],
    most: usize,
    depth: u32,
    tokens: &'a [Token],
) -> Reads<'a, Expression>
    requires { length names.now ≤ 16 }
    ensures { Gives (λ p. (tree_of p.0, p.1.now)) result (pair_at Normal (inside names.now most depth 9) tokens.now) }
{
    let rest = expect(Mark::Open, tokens)?;
    let (mean, rest) = enclosed(alloc, names, most, depth, Mark::Comma, rest)?;
    let (deviation, rest) = enclosed(alloc, names, most, depth, Mark::Close, rest)?;
    checked(
        Expression::Normal(Box::new(alloc, mean)?, Box::new(alloc, deviation)?),
        rest,
    )
}

/// A least value, a mode and a greatest value in brackets, with commas between them.
#[cycle(values)]
fn triangular<'a>(
    alloc: Global,
    names: &[usize],
    most: usize,
    depth: u32,
    tokens: &'a [Token],
) -> Reads<'a, Expression>
    requires { length names.now ≤ 16 }
    ensures { Gives (λ p. (tree_of p.0, p.1.now)) result (three_at (inside names.now most depth 9) tokens.now) }
{
    let rest = expect(Mark::Open, tokens)?;
    let (least, rest) = enclosed(alloc, names, most, depth, Mark::Comma, rest)?;
    let (mode, rest) = enclosed(alloc, names, most, depth, Mark::Comma, rest)?;
    let (greatest, rest) = enclosed(alloc, names, most, depth, Mark::Close, rest)?;
    checked(
        Expression::Triangular(
            Box::new(alloc, least)?,
            Box::new(alloc, mode)?,
            Box::new(alloc, greatest)?,
        ),
        rest,
    )
}

/// The table that comes first, and the tokens after it.
fn table<'a>(tokens: &'a [Token]) -> Reads<'a, u32>
    ensures { Gives (λ p. (p.0, p.1.now)) result (table_at tokens.now) }
{
    match first(tokens) {
        Some((Token::Table(table), rest)) => Ok((table, rest)),
        _ => Err(refused(tokens, Wanted::Table)),
    }
}

/// A table in brackets.
fn choice<'a>(tokens: &'a [Token]) -> Reads<'a, Expression>
    ensures { Gives (λ p. (tree_of p.0, p.1.now)) result (chosen_at tokens.now) }
{
    let rest = expect(Mark::Open, tokens)?;
    let (table, rest) = table(rest)?;
    let rest = expect(Mark::Close, rest)?;
    Ok((Expression::Choose(table), rest))
}

/// A value that is nested once more, and the mark that closes it.
#[cycle(values)]
fn enclosed<'a>(
    alloc: Global,
    names: &[usize],
    most: usize,
    depth: u32,
    closing: Mark,
    tokens: &'a [Token],
) -> Reads<'a, Expression>
    requires { length names.now ≤ 16 }
    ensures { Gives (λ p. (tree_of p.0, p.1.now)) result (enclosed_at closing (inside names.now most depth 9) tokens.now) }
{
    let (x, rest) = nested(alloc, names, most, depth, 9, tokens)?;
    let rest = expect(closing, rest)?;
    Ok((x, rest))
}

/// A value that is nested once more, if it may be.
#[cycle(values)]
fn nested<'a>(
    alloc: Global,
    names: &[usize],
    most: usize,
    depth: u32,
    k: u32,
    tokens: &'a [Token],
) -> Reads<'a, Expression>
    requires strength { k ≤ 9 }
    requires names { length names.now ≤ 16 }
    ensures { Gives (λ p. (tree_of p.0, p.1.now)) result (inside names.now most depth k tokens.now) }
{
    if depth == 0 {
        return Err(refused(tokens, Wanted::LessNesting));
    }
    level(alloc, names, most, depth - 1, k, tokens)
}
