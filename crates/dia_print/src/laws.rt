// Laws of the definitions.

ghost use Rattle.dia_exprs.specs.declared.level.Level.TheVariants.{Whole};
ghost use Rattle.dia_exprs.specs.Grammar.{Expression, Spells};
ghost use Rattle.dia_print.specs.ExpressionTokens.{tokens_of};

/// The tokens of an expression spell it.
pub fn expression_tokens()
    ensures { (x : Expression) → Spells Whole (tokens_of x) x }
{}
