// Nodes after other nodes.

ghost use Rattle.std.specs.Prelude.{◌≡◌, ◌+◌, ◌≤◌, ◌^◌, ◌<◌, ◌++◌, length, OnOk};
ghost use Rattle.dbp_plan.specs.Operands.{OperandsBelow, moved_by};
ghost use Rattle.dbp_plan.specs.Tree.{nodes_of};
ghost use Rattle.dbp_plan.specs.Expr.{tree_of};
ghost use Rattle.dbp_plan.specs.declared.limits.TheConstants.{MAX_NODES};

use crate::{Expr, List, NoMemory, Node};

// Adds the expression's nodes at the end.
pub(crate) fn append<V: Copy>(nodes: &mut List<Node<V>>, expr: &Expr<V>) -> Result<(), NoMemory>
    requires { length nodes.old + length expr.now.nodes ≤ MAX_NODES }
    ensures { OnOk result (nodes.new ≡ nodes.old ++ nodes_of (length nodes.old) (tree_of expr.now)) }
{
    let by = nodes.len();
    for node in expr.nodes.items() {
        nodes.push(moved(*node, by))?;
    }
    Ok(())
}

// The node after so many others.
fn moved<V: Copy>(node: Node<V>, by: u32) -> Node<V>
    requires operands { OperandsBelow (2 ^ 16) node }
    requires by { by < 2 ^ 16 }
    ensures { result ≡ moved_by by node }
{
    match node {
        Node::Num(value) => Node::Num(value),
        Node::Var(name) => Node::Var(name),
        Node::Un(op, a) => Node::Un(op, a + by),
        Node::Bin(op, a, b) => Node::Bin(op, a + by, b + by),
        Node::Pick(c, a, b) => Node::Pick(c + by, a + by, b + by),
    }
}
