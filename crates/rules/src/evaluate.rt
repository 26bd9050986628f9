// The evaluator of rules, by recursion over their trees.

ghost use Rattle.std.specs.Prelude.{◌≡◌, ◌≤◌, ◌<◌, ◌+◌, ◌*◌, [], ◌∷◌, ◌++◌, length, slice_index};
ghost use Rattle.std.specs.Prelude.{slice_get, slice_set};
ghost use Rattle.rules.specs.Costs.{cost_of, cost_of_all, draws};
ghost use Rattle.rules.specs.Effects.{after, after_all, asked, is_ended, progress, sent};
ghost use Rattle.rules.specs.Effects.{send_draws, turns_until};
ghost use Rattle.rules.specs.declared.limits.Limit.TheVariants.{Draws, Sends as SendCount};
ghost use Rattle.rules.specs.Distributions.{choice};
ghost use Rattle.rules.specs.Values.{drawn_below, drawn_by, known_of, value_of};
ghost use Rattle.models.specs.Words.{word as drawn_word};

use crate::distributions::{exponential, geometric, normal, triangular};
use crate::operate::{operate, truth};
use crate::tables::Table;
use crate::tree::{Expression, Known, Law, Sending, Statement};
use model::{Outgoing, Sends};
use models::word;

/// What a rule can read: the handling, and the words of the state and local names so far.
#[derive(Clone, Copy, Debug)]
pub struct Context {
    /// The number of processes.
    pub processes: u32,
    /// The process that handles the message.
    pub process: u32,
    /// The process that sent the message.
    pub sender: u32,
    /// The time in ticks.
    pub time: u64,
    /// The message's content.
    pub content: [u64; 4],
    /// The key of drawn words.
    pub key: u64,
    /// The words of the state.
    pub words: [u64; 16],
    /// The values of the local names, by their places.
    pub locals: [u64; 16],
}

impl Context {
    /// Returns a number about the handling.
    fn read(&self, known: Known) -> u64
        ensures { result ≡ known_of self.now known }
    {
        match known {
            Known::Process => u64::from(self.process),
            Known::Sender => u64::from(self.sender),
            Known::Now => self.time,
            Known::Processes => u64::from(self.processes),
        }
    }
}

/// Returns the number at a place, or 0 if there is none.
fn at(numbers: &[u64], place: u8) -> u64
    ensures { result ≡ slice_index numbers.now place }
{
    numbers.get(usize::from(place)).copied().unwrap_or(0)
}

/// Returns drawn word `j`.
fn word_at(context: &Context, j: u64) -> u32
    requires { j < 16 }
    ensures { result ≡ drawn_word context.now.key context.now.process j }
{
    word(context.key, context.process, j)
}

/// Returns a number by a distribution with one parameter, from drawn word `j`.
fn draw(context: &Context, j: u64, law: Law, parameter: u64) -> u64
    requires { j < 16 }
    ensures { result
        ≡ drawn_by law (drawn_word context.now.key context.now.process j) parameter }
{
    let drawn = word_at(context, j);
    match law {
        Law::Uniform => below(drawn, parameter),
        Law::Exponential => exponential(parameter, drawn),
        Law::Geometric => geometric(parameter, drawn),
    }
}

/// Returns a drawn word mod `n`, or 0 if `n` is 0.
fn below(drawn: u32, n: u64) -> u64
    ensures { result ≡ drawn_below drawn n }
{
    if n == 0 { 0 } else { u64::from(drawn) % n }
}

/// Returns an index of the table at a place, from a drawn word, or 0 if there is no such table.
fn chosen(tables: &[Table], place: u32, drawn: u32) -> u64
    ensures { result ≡ choice (slice_get tables.now place) drawn }
{
    match tables.get(place as usize) {
        Some(table) => table.choose(drawn),
        None => 0,
    }
}

/// Returns the value of an expression; `drawn` is the number of words drawn so far.
///
/// It is inlined so that reading a number or a word takes no call, and `compound` is the recursion.
#[cycle(value)]
#[inline(always)]
pub(crate) fn value(tables: &[Table], context: &Context, drawn: &mut u64, e: &Expression) -> u64
    requires { drawn.old + draws e.now ≤ 14 }
    ensures value { result ≡ value_of tables.now context.now e.now drawn.old }
    ensures drawn { drawn.new ≡ drawn.old + draws e.now }
{
    match e {
        Expression::Number(n) => *n,
        Expression::Word(i) => at(&context.words, *i),
        Expression::Content(i) => at(&context.content, *i),
        Expression::Local(i) => at(&context.locals, *i),
        Expression::Read(known) => context.read(*known),
        _ => compound(tables, context, drawn, e),
    }
}

/// Returns the value of an expression, with a call for each expression that has parts.
#[cycle(value)]
fn compound(tables: &[Table], context: &Context, drawn: &mut u64, e: &Expression) -> u64
    requires { drawn.old + draws e.now ≤ 14 }
    ensures value { result ≡ value_of tables.now context.now e.now drawn.old }
    ensures drawn { drawn.new ≡ drawn.old + draws e.now }
{
    match e {
        Expression::Number(n) => *n,
        Expression::Word(i) => at(&context.words, *i),
        Expression::Content(i) => at(&context.content, *i),
        Expression::Local(i) => at(&context.locals, *i),
        Expression::Read(known) => context.read(*known),
        Expression::Not(x) => truth(value(tables, context, drawn, x) == 0),
        Expression::Two(operator, x, y) => {
            let left = value(tables, context, drawn, x);
            let right = value(tables, context, drawn, y);
            operate(*operator, left, right)
        }
        Expression::Entry(table, x) => {
            let index = value(tables, context, drawn, x);
            match tables.get(*table as usize) {
                Some(table) => table.number(index),
                None => 0,
            }
        }
        Expression::Draw(law, x) => {
            let parameter = value(tables, context, drawn, x);
            let j = *drawn;
            *drawn += 1;
            draw(context, j, *law, parameter)
        }
        Expression::Normal(x, y) => {
            let mean = value(tables, context, drawn, x);
            let deviation = value(tables, context, drawn, y);
            let j = *drawn;
            *drawn += 1;
            normal(mean, deviation, word_at(context, j))
        }
        Expression::Triangular(x, y, z) => {
            let least = value(tables, context, drawn, x);
            let mode = value(tables, context, drawn, y);
            let most = value(tables, context, drawn, z);
            let j = *drawn;
            *drawn += 2;
            triangular(
                least,
                mode,
                most,
                word_at(context, j),
                word_at(context, j + 1),
            )
        }
        Expression::Choose(table) => {
            let j = *drawn;
            *drawn += 1;
            chosen(tables, *table, word_at(context, j))
        }
        Expression::Element(array, x) => {
            let index = value(tables, context, drawn, x);
            array.get(&context.words, index)
        }
    }
}

/// Writes a number to a place, if the place exists.
pub(crate) fn put(numbers: &mut [u64], place: u8, number: u64)
    ensures { numbers.new ≡ slice_set numbers.old place number }
{
    let place = usize::from(place);
    if place < numbers.len() {
        numbers[place] = number;
    }
}

/// Returns the message that a statement sends.
fn outgoing(tables: &[Table], context: &Context, drawn: &mut u64, sending: &Sending) -> Outgoing
    requires processes { 1 ≤ context.now.processes }
    requires few { drawn.old + send_draws sending.now ≤ 14 }
    ensures value { result ≡ sent tables.now context.now sending.now drawn.old }
    ensures drawn { drawn.new ≡ drawn.old + send_draws sending.now }
{
    let to = value(tables, context, drawn, &sending.to);
    let after = value(tables, context, drawn, &sending.after);
    let a = value(tables, context, drawn, &sending.a);
    let b = value(tables, context, drawn, &sending.b);
    let c = value(tables, context, drawn, &sending.c);
    let d = value(tables, context, drawn, &sending.d);
    Outgoing {
        to: (to % u64::from(context.processes)) as u32,
        delay: after.max(1).min(0xffff_ffff) as u32,
        a,
        b,
        c,
        d,
    }
}

/// Runs a statement.
#[cycle(run)]
fn run(
    tables: &[Table],
    context: &mut Context,
    drawn: &mut u64,
    sends: &mut Sends,
    statement: &Statement,
)
    requires processes { 1 ≤ context.old.processes }
    requires draws { drawn.old + cost_of Draws statement.now ≤ 14 }
    requires sends { length sends.old.items + cost_of SendCount statement.now ≤ 8 }
    requires room { 8 ≤ sends.old.capacity }
    ensures progress { progress context.new drawn.new sends.new.items
        ≡ after tables.now statement.now (progress context.old drawn.old sends.old.items) }
    ensures same { context.new.processes ≡ context.old.processes }
    ensures most_draws { drawn.new ≤ drawn.old + cost_of Draws statement.now }
    ensures most_sends { length sends.new.items
        ≤ length sends.old.items + cost_of SendCount statement.now }
    ensures room { sends.new.capacity ≡ sends.old.capacity }
{
    match statement {
        Statement::Let(place, e) => {
            let named = value(tables, context, drawn, e);
            put(&mut context.locals, *place, named);
        }
        Statement::Set(place, e) => {
            let word = value(tables, context, drawn, e);
            put(&mut context.words, *place, word);
        }
        Statement::Send(sending) => {
            let outgoing = outgoing(tables, context, drawn, sending);
            sends.push_reserved(outgoing);
        }
        Statement::If(e, met, unmet) => {
            if value(tables, context, drawn, e) != 0 {
                run_all(tables, context, drawn, sends, met);
            } else {
                run_all(tables, context, drawn, sends, unmet);
            }
        }
        Statement::Repeat(place, count, body) => {
            'turns: for k in 0..*count {
                put(&mut context.locals, *place, u64::from(k));
                run_all(tables, context, drawn, sends, body);
            }
        }
        Statement::RepeatUntil(place, count, e, body) => {
            repeat_until(tables, context, drawn, sends, body, *place, *count, e);
        }
        Statement::Put(array, i, e) => {
            let index = value(tables, context, drawn, i);
            let number = value(tables, context, drawn, e);
            array.set(&mut context.words, index, number);
        }
    }
}

/// Runs a block a number of times, or up to the first turn before which the value is not 0.
#[cycle(run)]
fn repeat_until(
    tables: &[Table],
    context: &mut Context,
    drawn: &mut u64,
    sends: &mut Sends,
    body: &[Statement],
    place: u8,
    count: u32,
    e: &Expression,
)
    requires processes { 1 ≤ context.old.processes }
    requires draws { drawn.old + count * (draws e.now + cost_of_all Draws body.now) ≤ 14 }
    requires sends { length sends.old.items + count * cost_of_all SendCount body.now ≤ 8 }
    requires room { 8 ≤ sends.old.capacity }
    ensures progress { progress context.new drawn.new sends.new.items
        ≡ turns_until (is_ended tables.now e.now place) (asked e.now place)
        (after_all tables.now body.now) count 0
        (progress context.old drawn.old sends.old.items) }
    ensures same { context.new.processes ≡ context.old.processes }
    ensures most_draws { drawn.new
        ≤ drawn.old + count * (draws e.now + cost_of_all Draws body.now) }
    ensures most_sends { length sends.new.items
        ≤ length sends.old.items + count * cost_of_all SendCount body.now }
    ensures room { sends.new.capacity ≡ sends.old.capacity }
{
    'turns: for k in 0..count {
        put(&mut context.locals, place, u64::from(k));
        if value(tables, context, drawn, e) != 0 {
            return;
        }
        run_all(tables, context, drawn, sends, body);
    }
}

/// Runs the statements of a block.
#[cycle(run)]
pub(crate) fn run_all(
    tables: &[Table],
    context: &mut Context,
    drawn: &mut u64,
    sends: &mut Sends,
    block: &[Statement],
)
    requires processes { 1 ≤ context.old.processes }
    requires draws { drawn.old + cost_of_all Draws block.now ≤ 14 }
    requires sends { length sends.old.items + cost_of_all SendCount block.now ≤ 8 }
    requires room { 8 ≤ sends.old.capacity }
    ensures progress { progress context.new drawn.new sends.new.items
        ≡ after_all tables.now block.now (progress context.old drawn.old sends.old.items) }
    ensures same { context.new.processes ≡ context.old.processes }
    ensures most_draws { drawn.new ≤ drawn.old + cost_of_all Draws block.now }
    ensures most_sends { length sends.new.items
        ≤ length sends.old.items + cost_of_all SendCount block.now }
    ensures room { sends.new.capacity ≡ sends.old.capacity }
{
    'statements: for statement in block {
        run(tables, context, drawn, sends, statement);
    }
}
