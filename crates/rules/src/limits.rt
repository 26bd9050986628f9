// The limits of a rule, and its cost, which is found before it runs.

ghost use Rattle.std.specs.Prelude.{◌≡◌, ◌-◌, ◌^◌, min, IfSome, IsNone};
ghost use Rattle.rules.specs.Costs.{cost as cost_of_value, cost_of, cost_of_all};
ghost use Rattle.rules.specs.Costs.{draw_cost, send_cost, step_cost};
ghost use Rattle.rules.specs.Limits.{Exceeds, IsWithin};

use crate::tree::{Expression, Statement};
use std::fmt;
use thiserror::Error;

/// The most processes of a model that is described by rules.
pub const MAX_LPS: u32 = 65_536;

/// The most sends on any way through a rule.
pub const MAX_SENDS: u64 = 8;

/// The most draws on any way through a rule.
pub const MAX_DRAWS: u64 = 14;

/// The most steps on any way through a rule. A step is each statement but a send, each operator,
/// each number or name that is read, each table entry, each drawn word, each send, and each turn of
/// a `repeat`.
pub const MAX_STEPS: u64 = 65_536;

/// A limit on any way through a rule. An `if` counts its costlier block, and a `repeat` its block,
/// with the value that may end it, times its count.
#[derive(Clone, Copy, Debug, PartialEq, Eq)]
pub enum Limit {
    /// At most `MAX_SENDS` sends.
    Sends,
    /// At most `MAX_DRAWS` drawn words.
    Draws,
    /// At most `MAX_STEPS` steps.
    Steps,
}

/// The limit that one of the rules exceeds.
#[derive(Clone, Copy, Debug, PartialEq, Eq, Error)]
pub enum RulesFault {
    /// The rule for the start exceeds this limit.
    #[error("start: more than {0} on some way through it")]
    Start(Limit),
    /// The rule for a message exceeds this limit.
    #[error("handle: more than {0} on some way through it")]
    Handle(Limit),
}

impl fmt::Display for Limit {
    fn fmt<W: fmt::Write>(&self, f: &mut fmt::Formatter<W>) -> fmt::Result {
        match self {
            Limit::Sends => write!(f, "{MAX_SENDS} sends"),
            Limit::Draws => write!(f, "{MAX_DRAWS} draws"),
            Limit::Steps => write!(f, "{MAX_STEPS} steps"),
        }
    }
}

impl Limit {
    fn send_cost(self) -> u64
        ensures { result ≡ send_cost self }
    {
        match self {
            Limit::Draws => 0,
            Limit::Sends | Limit::Steps => 1,
        }
    }

    fn draw_cost(self) -> u64
        ensures { result ≡ draw_cost self }
    {
        match self {
            Limit::Sends => 0,
            Limit::Draws | Limit::Steps => 1,
        }
    }

    fn step_cost(self) -> u64
        ensures { result ≡ step_cost self }
    {
        match self {
            Limit::Sends | Limit::Draws => 0,
            Limit::Steps => 1,
        }
    }
}

/// Returns the cost of an expression.
fn expression_cost(limit: Limit, e: &Expression) -> u64
    ensures { result ≡ min (cost_of_value limit e.now) (2 ^ 64 - 1) }
{
    match e {
        Expression::Number(_)
        | Expression::Word(_)
        | Expression::Content(_)
        | Expression::Local(_)
        | Expression::Read(_) => limit.step_cost(),
        Expression::Not(x) => limit.step_cost().saturating_add(expression_cost(limit, x)),
        Expression::Two(_, x, y) => limit
            .step_cost()
            .saturating_add(expression_cost(limit, x))
            .saturating_add(expression_cost(limit, y)),
        Expression::Entry(_, x) | Expression::Element(_, x) => {
            limit.step_cost().saturating_add(expression_cost(limit, x))
        }
        Expression::Draw(_, x) => limit.draw_cost().saturating_add(expression_cost(limit, x)),
        Expression::Normal(x, y) => limit
            .draw_cost()
            .saturating_add(expression_cost(limit, x))
            .saturating_add(expression_cost(limit, y)),
        Expression::Triangular(x, y, z) => limit
            .draw_cost()
            .saturating_add(limit.draw_cost())
            .saturating_add(expression_cost(limit, x))
            .saturating_add(expression_cost(limit, y))
            .saturating_add(expression_cost(limit, z)),
        Expression::Choose(_) => limit.draw_cost(),
    }
}

/// Returns the greatest cost of a statement on any way through it.
#[cycle(costs)]
fn statement_cost(limit: Limit, statement: &Statement) -> u64
    ensures { result ≡ min (cost_of limit statement.now) (2 ^ 64 - 1) }
{
    match statement {
        Statement::Let(_, e) | Statement::Set(_, e) => {
            limit.step_cost().saturating_add(expression_cost(limit, e))
        }
        Statement::Send(sending) => limit
            .send_cost()
            .saturating_add(expression_cost(limit, &sending.to))
            .saturating_add(expression_cost(limit, &sending.after))
            .saturating_add(expression_cost(limit, &sending.a))
            .saturating_add(expression_cost(limit, &sending.b))
            .saturating_add(expression_cost(limit, &sending.c))
            .saturating_add(expression_cost(limit, &sending.d)),
        Statement::If(e, met, unmet) => {
            let blocks = block_cost(limit, met).max(block_cost(limit, unmet));
            limit
                .step_cost()
                .saturating_add(expression_cost(limit, e))
                .saturating_add(blocks)
        }
        Statement::Repeat(_, count, body) => {
            let turn = limit.step_cost().saturating_add(block_cost(limit, body));
            limit
                .step_cost()
                .saturating_add(u64::from(*count).saturating_mul(turn))
        }
        Statement::RepeatUntil(_, count, e, body) => {
            let turn = limit
                .step_cost()
                .saturating_add(expression_cost(limit, e))
                .saturating_add(block_cost(limit, body));
            limit
                .step_cost()
                .saturating_add(u64::from(*count).saturating_mul(turn))
        }
        Statement::Put(_, index, e) => limit
            .step_cost()
            .saturating_add(expression_cost(limit, index))
            .saturating_add(expression_cost(limit, e)),
    }
}

/// Returns the greatest cost of a block on any way through it, or 2^64 - 1 if it is greater.
#[cycle(costs)]
pub fn block_cost(limit: Limit, block: &[Statement]) -> u64
    ensures { result ≡ min (cost_of_all limit block.now) (2 ^ 64 - 1) }
{
    let mut cost: u64 = 0;
    'statements: for statement in block {
        cost = cost.saturating_add(statement_cost(limit, statement));
    }
    cost
}

/// Returns the first limit that a rule exceeds: sends, then draws, then steps.
pub fn exceeded(rule: &[Statement]) -> Option<Limit>
    ensures some { IfSome result (λ limit. Exceeds limit rule.now) }
    ensures none { IsNone result → IsWithin rule.now }
{
    if block_cost(Limit::Sends, rule) > MAX_SENDS {
        return Some(Limit::Sends);
    }
    if block_cost(Limit::Draws, rule) > MAX_DRAWS {
        return Some(Limit::Draws);
    }
    if block_cost(Limit::Steps, rule) > MAX_STEPS {
        return Some(Limit::Steps);
    }
    None
}
