// An expression of its parts.

use dbp_plan::{Expr, Node, UnOp};
use std::alloc::Global;
use std::test::Fail;

static NODES: &[Node<u32>] = &[
    Node::Var(1),
    Node::Num(2),
    Node::Var(0),
    Node::Un(UnOp::Neg, 2),
    Node::Pick(0, 1, 3),
];

fn negative(alloc: Global) -> Result<Expr<u32>, Fail> {
    let place = Expr::variable(alloc, 0)?;
    Ok(Expr::unary(UnOp::Neg, place)?)
}

fn choice_of(alloc: Global, other: &Expr<u32>) -> Result<Expr<u32>, Fail> {
    let condition = Expr::variable(alloc, 1)?;
    let two = Expr::number(alloc, 2)?;
    if condition.nodes.len() > 20 || two.nodes.len() > 20 || other.nodes.len() > 20 {
        return Err(Fail::new("too large"));
    }
    Ok(Expr::choice(condition, &two, other)?)
}

#[test]
fn expressions_are_made_of_their_parts(rt: HostRuntime) -> Result<(), Fail> {
    let negative = negative(rt.alloc())?;
    let chosen = choice_of(rt.alloc(), &negative)?;
    assert_eq!(rt; chosen.nodes.items(), NODES);
    Ok(())
}
