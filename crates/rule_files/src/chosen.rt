// One rule for the processes of all kinds.

ghost use Rattle.std.specs.Prelude.{◌≡◌, ◌∷◌, ◌<◌, ◌^◌, [], IfOk, map};
ghost use Rattle.rule_files.specs.KindViews.{rules_view};
ghost use Rattle.rule_files.specs.Kinds.{IsBelow, IsByKind, RunsItsKind};
ghost use Rattle.rules.specs.declared.tree.Expression.{Expression};
ghost use Rattle.rules.specs.declared.tree.Statement.{If};

use crate::kind_rules::KindRead;
use rules::{Expression, Known, Operator, Statement};
use std::alloc::{AllocError, Global};

/// States that a process of a kind does what the rule of its kind does: running the rule for all
/// kinds there is running the rule of the kind.
pub fn law_of_kinds()
    ensures { RunsItsKind }
{}

/// The rules for the processes of all kinds.
#[derive(Drop)]
pub(crate) struct Whole {
    /// What a process does when it starts.
    pub start: Vec<Statement>,
    /// What it does with a message.
    pub handle: Vec<Statement>,
}

/// Returns the rules for the processes of all kinds.
pub(crate) fn by_kind(alloc: Global, kinds: Vec<KindRead>) -> Result<Whole, AllocError>
    ensures start { IfOk result (λ whole.
        IsByKind (λ r. r.start) (map rules_view kinds.items) whole.start.items) }
    ensures handle { IfOk result (λ whole.
        IsByKind (λ r. r.handle) (map rules_view kinds.items) whole.handle.items) }
{
    let mut kinds = kinds;
    let mut start = Vec::new(alloc);
    let mut handle = Vec::new(alloc);
    'kinds: while let Some(kind) = kinds.pop() {
        start = chosen(alloc, kind.end, kind.start, start)?;
        handle = chosen(alloc, kind.end, kind.handle, handle)?;
    }
    Ok(Whole { start, handle })
}

/// Returns the rule that runs the block in a process below `end`, and the rest in others.
fn chosen(
    alloc: Global,
    end: u64,
    block: Vec<Statement>,
    rest: Vec<Statement>,
) -> Result<Vec<Statement>, AllocError>
    ensures { IfOk result (λ rule. (e : Expression) × (rule.items ≡ If e block rest ∷ [])
        × IsBelow end e) }
{
    let is_below = below(alloc, end)?;
    let mut rule = Vec::new(alloc);
    rule.push(Statement::If(is_below, block, rest))?;
    Ok(rule)
}

/// Returns the value that says whether the process is below a number.
fn below(alloc: Global, end: u64) -> Result<Expression, AllocError>
    ensures { IfOk result (λ e. IsBelow end e) }
{
    let process = Box::new(alloc, Expression::Read(Known::Process))?;
    let end = Box::new(alloc, Expression::Number(end))?;
    Ok(Expression::Two(Operator::Below, process, end))
}
