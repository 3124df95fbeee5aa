// The value of each operator.

ghost use Rattle.std.specs.Prelude.{◌≡◌};
ghost use Rattle.expr_eval.specs.Values.{value_of_unary, value_of_binary, value_of_choice, quotient, remainder};

use dbp_plan::{BinOp, UnOp};

// The value of an operator before one operand.
pub(crate) fn unary(operator: UnOp, operand: i64) -> i64
    ensures { result ≡ value_of_unary operator operand }
{
    match operator {
        UnOp::Neg => operand.saturating_neg(),
        UnOp::Not => (operand == 0) as i64,
    }
}

// The value of an operator between two operands.
pub(crate) fn binary(operator: BinOp, left: i64, right: i64) -> i64
    ensures { result ≡ value_of_binary operator left right }
{
    match operator {
        BinOp::Add => left.saturating_add(right),
        BinOp::Sub => left.saturating_sub(right),
        BinOp::Mul => left.saturating_mul(right),
        BinOp::Div => divided(left, right),
        BinOp::Rem => rest(left, right),
        BinOp::Eq => (left == right) as i64,
        BinOp::Ne => (left != right) as i64,
        BinOp::Lt => (left < right) as i64,
        BinOp::Le => (left <= right) as i64,
        BinOp::Gt => (left > right) as i64,
        BinOp::Ge => (left >= right) as i64,
        BinOp::And => (left != 0 && right != 0) as i64,
        BinOp::Or => (left != 0 || right != 0) as i64,
        BinOp::Min => left.min(right),
        BinOp::Max => left.max(right),
    }
}

// The quotient, or 0 if the divisor is 0.
fn divided(left: i64, right: i64) -> i64
    ensures { result ≡ quotient left right }
{
    if right == 0 {
        0
    } else {
        left.saturating_div(right)
    }
}

// The remainder, or 0 if the divisor is 0.
fn rest(left: i64, right: i64) -> i64
    ensures { result ≡ remainder left right }
{
    if right == 0 {
        0
    } else {
        left.wrapping_rem(right)
    }
}

// One of two values, by a condition.
pub(crate) fn choice(condition: i64, yes: i64, no: i64) -> i64
    ensures { result ≡ value_of_choice condition yes no }
{
    if condition != 0 { yes } else { no }
}
