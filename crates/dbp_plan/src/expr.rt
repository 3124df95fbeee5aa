// Expressions, and the calls that make them from their parts.

ghost use Rattle.dbp_plan.specs.Tree.{HasTree};
ghost use Rattle.dbp_plan.specs.TreeLaws.{HasTree-prop};
ghost use Rattle.std.specs.Prelude.{◌≤◌, length};
ghost use Rattle.dbp_plan.specs.declared.limits.TheConstants.{MAX_NODES};

use crate::nodes::append;
use crate::{BinOp, List, NoMemory, Node, UnOp};
use std::alloc::Global;

/// An expression: the nodes of one tree in post-order, the operands of a node before it and the first operand's
/// nodes first. The last node is the root. Its type keeps this, and that there are at most `MAX_NODES`.
#[derive(Drop)]
pub struct Expr<V> {
    /// In post-order.
    pub nodes: List<Node<V>>,
    /// The tree whose nodes these are.
    pub ghost tree: { HasTree nodes } by { HasTree-prop nodes-code nodes },
    /// There are at most so many.
    pub ghost few: { length nodes ≤ MAX_NODES },
}

impl<V: Copy> Expr<V> {
    ghost use Rattle.std.specs.Prelude.{◌+◌, ◌≤◌, length, IfOk};
    ghost use Rattle.dbp_plan.specs.Tree.{number, variable, unary, binary, choice};
    ghost use Rattle.dbp_plan.specs.Expr.{tree_of, IsExprOf};

    /// A number.
    pub fn number(alloc: Global, value: i64) -> Result<Expr<V>, NoMemory>
        ensures { IfOk result (λ e. IsExprOf e (number value)) }
    {
        let mut nodes = List::new(alloc);
        nodes.push(Node::Num(value))?;
        Ok(Expr { nodes })
    }

    /// A variable.
    pub fn variable(alloc: Global, name: V) -> Result<Expr<V>, NoMemory>
        ensures { IfOk result (λ e. IsExprOf e (variable name)) }
    {
        let mut nodes = List::new(alloc);
        nodes.push(Node::Var(name))?;
        Ok(Expr { nodes })
    }

    /// An operator before an operand, which is given up if memory runs out.
    pub fn unary(op: UnOp, operand: Expr<V>) -> Result<Expr<V>, NoMemory>
        requires { length operand.nodes + 1 ≤ MAX_NODES }
        ensures { IfOk result (λ e. IsExprOf e (unary op (tree_of operand))) }
    {
        let Expr { mut nodes } = operand;
        let root = nodes.len() - 1;
        nodes.push(Node::Un(op, root))?;
        Ok(Expr { nodes })
    }

    /// An operator between two operands, the first of which is given up if memory runs out.
    pub fn binary(op: BinOp, left: Expr<V>, right: &Expr<V>) -> Result<Expr<V>, NoMemory>
        requires { length left.nodes + length right.now.nodes + 1 ≤ MAX_NODES }
        ensures { IfOk result (λ e. IsExprOf e (binary op (tree_of left) (tree_of right.now))) }
    {
        let Expr { mut nodes } = left;
        let first = nodes.len() - 1;
        append(&mut nodes, right)?;
        let second = nodes.len() - 1;
        nodes.push(Node::Bin(op, first, second))?;
        Ok(Expr { nodes })
    }

    /// The value of the one if the condition isn't 0, else that of the other. The condition is given up if
    /// memory runs out.
    pub fn choice(condition: Expr<V>, one: &Expr<V>, other: &Expr<V>) -> Result<Expr<V>, NoMemory>
        requires { length condition.nodes + length one.now.nodes + length other.now.nodes + 1 ≤ MAX_NODES }
        ensures { IfOk result (λ e. IsExprOf e (choice (tree_of condition) (tree_of one.now) (tree_of other.now))) }
    {
        let Expr { mut nodes } = condition;
        let first = nodes.len() - 1;
        append(&mut nodes, one)?;
        let second = nodes.len() - 1;
        append(&mut nodes, other)?;
        let third = nodes.len() - 1;
        nodes.push(Node::Pick(first, second, third))?;
        Ok(Expr { nodes })
    }
}
