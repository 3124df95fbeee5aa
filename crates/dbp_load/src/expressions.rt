// The expressions of generated tasks.

ghost use Rattle.std.specs.Prelude.{◌≡◌, ◌≤◌, length, IfOk};
ghost use Rattle.dbp_plan.specs.Expr.{IsExprOf};
ghost use Rattle.dbp_load.specs.Expressions.{first_sum, next_expr, out_expr, out_tree};

use crate::names::name;
use dbp_plan::{BinOp, Expr, Name, NoMemory};
use std::alloc::Global;

// `s + 1`
pub(crate) fn next_value(alloc: Global) -> Result<Expr<Name>, NoMemory>
    ensures { IfOk result (λ e. e ≡ next_expr) }
{
    let state = Expr::variable(alloc, name(b"s"))?;
    let one = Expr::number(alloc, 1)?;
    Expr::binary(BinOp::Add, state, &one)
}

// `(s * 3) + g0`
fn first_sum(alloc: Global) -> Result<Expr<Name>, NoMemory>
    ensures { IfOk result (λ e. IsExprOf e first_sum) }
{
    let state = Expr::variable(alloc, name(b"s"))?;
    let three = Expr::number(alloc, 3)?;
    let input = Expr::variable(alloc, name(b"g0"))?;
    let product = Expr::binary(BinOp::Mul, state, &three)?;
    Expr::binary(BinOp::Add, product, &input)
}

// `((s * 3) + g0) % 1000`, with each read added on the right inside the parentheses.
pub(crate) fn out_value(alloc: Global, reads: &[Name]) -> Result<Expr<Name>, NoMemory>
    requires { length reads.now ≤ 4 }
    ensures { IfOk result (λ e. IsExprOf e (out_tree reads.now)) }
{
    let mut sum = first_sum(alloc)?;
    for read in reads {
        let value = Expr::variable(alloc, *read)?;
        sum = Expr::binary(BinOp::Add, sum, &value)?;
    }
    let thousand = Expr::number(alloc, 1000)?;
    Expr::binary(BinOp::Rem, sum, &thousand)
}
