// Laws of the definitions.

ghost use Rattle.std.specs.Prelude.{◌≡◌, List as Items, Some};
ghost use Rattle.std.specs.Option.{is_some};
ghost use Rattle.dbp_plan.specs.declared.node.BinOp.{BinOp as Operator};
ghost use Rattle.dia_tokens.specs.declared.token.Token.TheVariants.{Keyword};
ghost use Rattle.dia_tokens.specs.declared.token.Keyword.{Keyword as Reserved};
ghost use Rattle.dia_tokens.specs.Keywords.{begins_call};
ghost use Rattle.dia_tokens.specs.declared.token.Token.{Token as AnyToken};
ghost use Rattle.dbp_plan.specs.Tree.{size_of};
ghost use Rattle.dia_exprs.specs.Counts.{node_count};
ghost use Rattle.dia_exprs.specs.Grammar.{Expression, Spells, operator_token, operator_of, called};
ghost use Rattle.dia_exprs.specs.declared.level.Level.TheVariants.{Whole};

/// An operator is read from the token that it is written with, and from no other.
pub fn read_operator()
    ensures written { (o : Operator) → operator_of (operator_token o) ≡ Some o }
    ensures only { (t : AnyToken) (o : Operator) → operator_of t ≡ Some o → operator_token o ≡ t }
{}

/// The keywords that begin a call are the operators that are written as calls.
pub fn calls_are_listed()
    ensures { (w : Reserved) → begins_call w ≡ is_some (called (Keyword w)) }
{}

/// Tokens spell one expression at most.
pub fn one_expression()
    ensures { (ts : Items AnyToken) (t u : Expression) → Spells Whole ts t → Spells Whole ts u
        → t ≡ u }
{}

/// An expression has as many nodes as its tokens stand for.
pub fn one_node_a_token()
    ensures { (ts : Items AnyToken) (t : Expression) → Spells Whole ts t
        → size_of t ≡ node_count ts }
{}
