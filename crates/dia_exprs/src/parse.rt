// Tokens as an expression.

ghost use Rattle.std.specs.Prelude.{◌≡◌, ◌≤◌, length, Err, IfOk, IfErr};
ghost use Rattle.dbp_plan.specs.declared.limits.TheConstants.{MAX_NODES};
ghost use Rattle.dbp_plan.specs.Tree.{nodes_of};
ghost use Rattle.dia_exprs.specs.declared.counts.TheConstants.{MAX_DEPTH};
ghost use Rattle.dia_exprs.specs.declared.fail.ExpressionFail.TheVariants.{NoExpression};
ghost use Rattle.dia_exprs.specs.declared.level.Level.TheVariants.{Whole};
ghost use Rattle.dia_exprs.specs.Counts.{node_count, depth_of};
ghost use Rattle.dia_exprs.specs.Grammar.{Expression, Spells};
ghost use Rattle.dia_exprs.specs.Answers.{IsSpelled, SpellsNone, Gives};

use crate::ExpressionFail;
use crate::counts::node_tokens;
use crate::descent::whole;
use dbp_plan::{Expr, List, Name, Node};
use dia_tokens::Token;
use std::alloc::Global;

/// The expression that the tokens spell.
pub fn expression(alloc: Global, tokens: &[Token]) -> Result<Expr<Name>, ExpressionFail>
    requires nodes { node_count tokens.now ≤ MAX_NODES }
    requires depth { depth_of tokens.now ≤ MAX_DEPTH }
    ensures found { IfOk result (λ e. IsSpelled tokens.now e) }
    ensures none { result ≡ Err NoExpression → SpellsNone tokens.now }
    ensures only { (t : Expression) → Spells Whole tokens.now t → Gives t result }
{
    let nodes = nodes(alloc, tokens)?;
    Ok(Expr { nodes })
}

// The nodes of the expression that the tokens spell.
fn nodes(alloc: Global, tokens: &[Token]) -> Result<List<Node<Name>>, ExpressionFail>
    requires { node_count tokens.now ≤ MAX_NODES }
    ensures found { IfOk result
        (λ nodes. (t : Expression) × Spells Whole tokens.now t × (nodes ≡ nodes_of 0 t)) }
    ensures few { IfOk result (λ nodes. length nodes ≤ MAX_NODES) }
    ensures none { IfErr result (λ e. e ≡ NoExpression → SpellsNone tokens.now) }
{
    let mut nodes = List::with_capacity(alloc, node_tokens(tokens) as u32)?;
    let rest = whole(&mut nodes, tokens)?;
    if rest.is_empty() {
        Ok(nodes)
    } else {
        Err(ExpressionFail::NoExpression)
    }
}
