// The operators of rules.

ghost use Rattle.std.specs.Prelude.{◌≡◌};
ghost use Rattle.rules.specs.Values.{operate as made_of, truth as number_of};

use crate::tree::Operator;

/// Returns 1 for true and 0 for false.
pub(crate) fn truth(holds: bool) -> u64
    ensures { result ≡ number_of holds }
{
    if holds { 1 } else { 0 }
}

/// Returns the value of an operator on two numbers.
pub(crate) fn operate(operator: Operator, x: u64, y: u64) -> u64
    ensures { result ≡ made_of operator x y }
{
    match operator {
        Operator::Plus => x.saturating_add(y),
        Operator::Minus => x.saturating_sub(y),
        Operator::Times => x.saturating_mul(y),
        Operator::Over => if y == 0 { 0 } else { x / y },
        Operator::Modulo => if y == 0 { 0 } else { x % y },
        Operator::ShiftLeft => if y < 64 { x << y } else { 0 },
        Operator::ShiftRight => if y < 64 { x >> y } else { 0 },
        Operator::BitAnd => x & y,
        Operator::BitXor => x ^ y,
        Operator::BitOr => x | y,
        Operator::Same => truth(x == y),
        Operator::Different => truth(x != y),
        Operator::Below => truth(x < y),
        Operator::AtMost => truth(x <= y),
        Operator::Above => truth(y < x),
        Operator::AtLeast => truth(y <= x),
        Operator::Both => truth(x != 0 && y != 0),
        Operator::Either => truth(x != 0 || y != 0),
        Operator::Least => x.min(y),
        Operator::Greatest => x.max(y),
    }
}
