//! The values of expressions, and the order in which lets are evaluated.
//!
//! Nodes stand in post-order, so `eval` is one loop over a stack, with the latest value in a local beside it.
//! `order_lets` takes, at each place of the order, the earliest let whose used lets all stand already (`IsFrontOrder`).
//! If it comes to a stop, there is a cycle, and it finds the earliest let on one (`IsFirstCycle`).
#![tactic(auto)]

ghost use Rattle.std.specs.Prelude.{◌≡◌, ◌<◌, ◌≤◌, length};
ghost use Rattle.dbp_plan.specs.LetOrder.{VariablesBelow};
ghost use Rattle.expr_eval.specs.Values.{value_of};

mod cycle;
mod operator;
mod order;
mod variable;

use dbp_plan::{Expr, MAX_NODES, Node};
use operator::{binary, choice, unary};
pub use order::{LetFail, no_order_of_a_cycle, one_front_order, order_lets};

// Most expressions have so few nodes, and to clear room for `MAX_NODES` would take longer than to evaluate them.
const FEW_NODES: u32 = 8;

/// The value of the expression, where each variable is the value at its place of the environment. A number outside of
/// `i64` becomes the nearest inside, and `/` and `%` by 0 give 0. Nothing is refused, and no memory is taken.
pub fn eval(expr: &Expr<u32>, env: &[i64]) -> i64
    requires { VariablesBelow (length env.now) expr.now.nodes }
    ensures { result ≡ value_of expr.now env.now }
{
    if expr.nodes.len() <= FEW_NODES {
        eval_in(expr, env, &mut [0; FEW_NODES as usize])
    } else {
        eval_in(expr, env, &mut [0; MAX_NODES as usize])
    }
}

// The same, on a stack. Of the values that no operator has taken yet, the latest is `last`, and those before it are the
// first `height` values of the stack. Before the first node `last` is a 0, which no operator takes.
fn eval_in(expr: &Expr<u32>, env: &[i64], stack: &mut [i64]) -> i64
    requires variables { VariablesBelow (length env.now) expr.now.nodes }
    requires room { length expr.now.nodes ≤ length stack.old }
    ensures { result ≡ value_of expr.now env.now }
{
    let mut nodes = expr.nodes.items();
    let mut last = 0;
    let mut height = 0;
    while let [node, rest @ ..] = nodes {
        nodes = rest;
        match *node {
            Node::Num(value) => {
                stack[height] = last;
                height += 1;
                last = value;
            }
            Node::Var(place) => {
                stack[height] = last;
                height += 1;
                last = env[place as usize];
            }
            Node::Un(operator, _) => last = unary(operator, last),
            Node::Bin(operator, _, _) => {
                height -= 1;
                last = binary(operator, stack[height], last);
            }
            Node::Pick(..) => {
                height -= 2;
                last = choice(stack[height], stack[height + 1], last);
            }
        }
    }
    last
}
