// An expression in canonical form.

ghost use Rattle.std.specs.Prelude.{◌≡◌, ℕ, List as Items, OnOk};
ghost use Rattle.dbp_plan.specs.Tree.{Tree};
ghost use Rattle.dbp_plan.specs.Expr.{tree_of};
ghost use Rattle.dbp_plan.specs.Operators.{notation_of};
ghost use Rattle.dia_exprs.specs.Grammar.{is_call};
ghost use Rattle.dia_print.specs.ExpressionTokens.{prefix_token, tokens_of, operand_tokens, call_tokens, choice_tokens};
ghost use Rattle.dia_print.specs.Printed.{with_tokens};
ghost use Rattle.dia_print.specs.Stands.{Stands, is_compound_node};

use crate::Printer;
use dbp_plan::{BinOp, Expr, Name, NoMemory, Node, Notation, UnOp};
use dia_exprs::operator_token;
use dia_tokens::{Keyword, Symbol, Token};

fn prefix_token(op: UnOp) -> Token
    ensures { result ≡ prefix_token op }
{
    match op {
        UnOp::Neg => Token::Symbol(Symbol::Minus),
        UnOp::Not => Token::Keyword(Keyword::Not),
    }
}

fn is_call(op: BinOp) -> bool
    ensures { result ≡ is_call (notation_of op) }
{
    matches!(op.notation(), Notation::Call)
}

// Whether a node is an operator that is written as no call, or an `if`.
fn is_compound(node: &Node<Name>) -> bool
    ensures { result ≡ is_compound_node node.now }
{
    match node {
        Node::Num(_) | Node::Var(_) => false,
        Node::Bin(op, _, _) => !is_call(*op),
        Node::Un(_, _) | Node::Pick(_, _, _) => true,
    }
}

// The tree whose root stands at the place.
#[cycle(tree)]
fn push_tree(printer: &mut Printer, nodes: &[Node<Name>], place: u32) -> Result<(), NoMemory>
    requires { (x : Tree (Items ℕ)) × Stands nodes.now place x }
    ensures { (x : Tree (Items ℕ)) → Stands nodes.now place x
        → OnOk result (printer.new ≡ with_tokens printer.old (tokens_of x)) }
{
    let node = &nodes[place as usize];
    match node {
        Node::Num(value) => printer.push(Token::Number(*value)),
        Node::Var(name) => printer.push_name(name),
        Node::Un(op, operand) => {
            printer.push(prefix_token(*op))?;
            push_operand(printer, nodes, *operand)
        }
        Node::Bin(op, left, right) => {
            if is_call(*op) {
                return push_call(printer, nodes, *op, *left, *right);
            }
            push_operand(printer, nodes, *left)?;
            printer.push(operator_token(*op))?;
            push_operand(printer, nodes, *right)
        }
        Node::Pick(condition, one, other) => {
            push_choice(printer, nodes, *condition, *one, *other)
        }
    }
}

// An operand of an operator or a part of an `if`: in parentheses if it is an operator or an `if` itself.
#[cycle(tree)]
fn push_operand(printer: &mut Printer, nodes: &[Node<Name>], place: u32) -> Result<(), NoMemory>
    requires { (x : Tree (Items ℕ)) × Stands nodes.now place x }
    ensures { (x : Tree (Items ℕ)) → Stands nodes.now place x
        → OnOk result (printer.new ≡ with_tokens printer.old (operand_tokens x)) }
{
    if !is_compound(&nodes[place as usize]) {
        return push_tree(printer, nodes, place);
    }
    printer.push(Token::Symbol(Symbol::Open))?;
    push_tree(printer, nodes, place)?;
    printer.push(Token::Symbol(Symbol::Close))
}

// A call of two arguments.
#[cycle(tree)]
fn push_call(
    printer: &mut Printer,
    nodes: &[Node<Name>],
    op: BinOp,
    left: u32,
    right: u32,
) -> Result<(), NoMemory>
    requires left { (x : Tree (Items ℕ)) × Stands nodes.now left x }
    requires right { (y : Tree (Items ℕ)) × Stands nodes.now right y }
    ensures { (x y : Tree (Items ℕ)) → Stands nodes.now left x → Stands nodes.now right y
        → OnOk result (printer.new
        ≡ with_tokens printer.old (call_tokens op (tokens_of x) (tokens_of y))) }
{
    printer.push(operator_token(op))?;
    printer.push(Token::Symbol(Symbol::Open))?;
    push_tree(printer, nodes, left)?;
    printer.push(Token::Symbol(Symbol::Comma))?;
    push_tree(printer, nodes, right)?;
    printer.push(Token::Symbol(Symbol::Close))
}

// An `if` with its parts.
#[cycle(tree)]
fn push_choice(
    printer: &mut Printer,
    nodes: &[Node<Name>],
    condition: u32,
    one: u32,
    other: u32,
) -> Result<(), NoMemory>
    requires condition { (c : Tree (Items ℕ)) × Stands nodes.now condition c }
    requires one { (x : Tree (Items ℕ)) × Stands nodes.now one x }
    requires other { (y : Tree (Items ℕ)) × Stands nodes.now other y }
    ensures { (c x y : Tree (Items ℕ)) → Stands nodes.now condition c → Stands nodes.now one x
        → Stands nodes.now other y
        → OnOk result (printer.new ≡ with_tokens printer.old (choice_tokens (operand_tokens c) (operand_tokens x) (operand_tokens y))) }
{
    printer.push(Token::Keyword(Keyword::If))?;
    push_operand(printer, nodes, condition)?;
    printer.push(Token::Keyword(Keyword::Then))?;
    push_operand(printer, nodes, one)?;
    printer.push(Token::Keyword(Keyword::Else))?;
    push_operand(printer, nodes, other)
}

// Adds an expression.
pub(crate) fn push_expression(printer: &mut Printer, expr: &Expr<Name>) -> Result<(), NoMemory>
    ensures { OnOk result (printer.new ≡ with_tokens printer.old (tokens_of (tree_of expr.now))) }
{
    let nodes = expr.nodes.items();
    push_tree(printer, nodes, expr.nodes.len() - 1)
}
