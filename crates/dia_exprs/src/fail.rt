// Why tokens give no expression.

ghost use Rattle.std.specs.Prelude.{◌≡◌};
ghost use Rattle.dia_exprs.specs.declared.fail.ExpressionFail.TheVariants.{NoMemory as OutOfMemory};

use dbp_plan::NoMemory;

/// Why tokens give no expression.
#[derive(Clone, Copy, Debug, PartialEq, Eq)]
pub enum ExpressionFail {
    /// They spell none.
    NoExpression,
    /// Memory ran out.
    NoMemory,
}

impl From<NoMemory> for ExpressionFail {
    ghost from_gives = { λ _ e. e ≡ OutOfMemory };

    fn from(_: NoMemory) -> ExpressionFail {
        ExpressionFail::NoMemory
    }
}
