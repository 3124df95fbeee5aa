// Expressions over places for those over names.

ghost use Rattle.std.specs.Prelude.{◌≡◌, ◌<◌, ◌^◌, length, map, IfOk};
ghost use Rattle.dia_check.specs.Placed.{placed_expr, placed_node};

use crate::names::index_of;
use dbp_plan::{Expr, List, Name, NoMemory, Node};
use std::alloc::Global;

fn placed_node(names: &[Name], node: Node<Name>) -> Node<u32>
    requires { length names.now < 2 ^ 32 }
    ensures { result ≡ placed_node names.now node }
{
    match node {
        Node::Num(value) => Node::Num(value),
        Node::Var(name) => Node::Var(index_of(names, &name)),
        Node::Un(op, operand) => Node::Un(op, operand),
        Node::Bin(op, left, right) => Node::Bin(op, left, right),
        Node::Pick(condition, one, other) => Node::Pick(condition, one, other),
    }
}

fn placed_nodes(
    alloc: Global,
    names: &[Name],
    nodes: &List<Node<Name>>,
) -> Result<List<Node<u32>>, NoMemory>
    requires { length names.now < 2 ^ 32 }
    ensures { IfOk result (λ made. made ≡ map (placed_node names.now) nodes.now) }
{
    let mut made = List::with_capacity(alloc, nodes.len())?;
    for node in nodes.items() {
        made.push(placed_node(names, *node))?;
    }
    Ok(made)
}

// The expression with the place of each name among these.
pub(crate) fn placed(
    alloc: Global,
    names: &[Name],
    expr: &Expr<Name>,
) -> Result<Expr<u32>, NoMemory>
    requires { length names.now < 2 ^ 32 }
    ensures { IfOk result (λ made. made ≡ placed_expr names.now expr.now) }
{
    let nodes = placed_nodes(alloc, names, &expr.nodes)?;
    Ok(Expr { nodes })
}
