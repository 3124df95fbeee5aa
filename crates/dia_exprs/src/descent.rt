// Reading from left to right. Each function reads an expression at the front of the tokens, adds its nodes, and gives
// the tokens after it.

ghost use Rattle.std.specs.Prelude.{◌≡◌, ◌+◌, ◌<◌, ◌≤◌, length, IfOk, IfErr};
ghost use Rattle.dbp_plan.specs.declared.limits.TheConstants.{MAX_NODES};
ghost use Rattle.dia_exprs.specs.declared.level.Level.TheVariants.{Whole, Comparison, Prefixed, Factor};
ghost use Rattle.dia_exprs.specs.Counts.{node_count};
ghost use Rattle.dia_exprs.specs.Parsing.{HasRead, HasNone, IsJoined, of_level, of_inside, of_call, of_choice};

use crate::operators::{
    called, is_lone, next_level, split_close, split_comma, split_comparison, split_else, split_if,
    split_open, split_operator, split_prefix, split_then, split_token,
};
use crate::{ExpressionFail, Level};
use dbp_plan::{BinOp, List, Name, Node};
use dia_tokens::Token;

// An expression of the level.
#[cycle(expression)]
fn at_level<'t>(
    level: Level,
    out: &mut List<Node<Name>>,
    tokens: &'t [Token],
) -> Result<&'t [Token], ExpressionFail>
    requires { length out.old + node_count tokens.now ≤ MAX_NODES }
    ensures found { IfOk result
        (λ rest. HasRead (of_level level) out.old tokens.now out.new rest.now) }
    ensures none { IfErr result (λ e. HasNone (of_level level) tokens.now e) }
    ensures fits { IfOk result
        (λ rest. length out.new + node_count rest.now ≤ length out.old + node_count tokens.now) }
    ensures grows { IfOk result (λ _. length out.old < length out.new) }
    ensures shorter { IfOk result (λ rest. length rest.now < length tokens.now) }
{
    match level {
        Level::Whole => whole(out, tokens),
        Level::Comparison => compared(out, tokens),
        Level::Prefixed => prefixed(out, tokens),
        Level::Factor => factor(out, tokens),
        // The operands of most sums.
        Level::Product if is_lone(tokens) => factor(out, tokens),
        Level::Disjunction | Level::Conjunction | Level::Sum | Level::Product => {
            joined(level, out, tokens)
        }
    }
}

// A whole expression.
#[cycle(expression)]
pub(crate) fn whole<'t>(
    out: &mut List<Node<Name>>,
    tokens: &'t [Token],
) -> Result<&'t [Token], ExpressionFail>
    requires { length out.old + node_count tokens.now ≤ MAX_NODES }
    ensures found { IfOk result
        (λ rest. HasRead (of_level Whole) out.old tokens.now out.new rest.now) }
    ensures none { IfErr result (λ e. HasNone (of_level Whole) tokens.now e) }
    ensures fits { IfOk result
        (λ rest. length out.new + node_count rest.now ≤ length out.old + node_count tokens.now) }
    ensures grows { IfOk result (λ _. length out.old < length out.new) }
    ensures shorter { IfOk result (λ rest. length rest.now < length tokens.now) }
{
    match split_if(tokens) {
        Some(rest) => choice(out, rest),
        None => at_level(Level::Disjunction, out, tokens),
    }
}

// What stands after `if`.
#[cycle(expression)]
fn choice<'t>(
    out: &mut List<Node<Name>>,
    tokens: &'t [Token],
) -> Result<&'t [Token], ExpressionFail>
    requires { length out.old + node_count tokens.now + 1 ≤ MAX_NODES }
    ensures found { IfOk result (λ rest. HasRead of_choice out.old tokens.now out.new rest.now) }
    ensures none { IfErr result (λ e. HasNone of_choice tokens.now e) }
    ensures fits { IfOk result
        (λ rest. length out.new + node_count rest.now
        ≤ length out.old + node_count tokens.now + 1) }
    ensures grows { IfOk result (λ _. length out.old < length out.new) }
    ensures shorter { IfOk result (λ rest. length rest.now < length tokens.now) }
{
    let end = whole(out, tokens)?;
    let condition = out.len() - 1;
    let Some(first) = split_then(end) else {
        return Err(ExpressionFail::NoExpression);
    };
    let first_end = whole(out, first)?;
    let one = out.len() - 1;
    let Some(second) = split_else(first_end) else {
        return Err(ExpressionFail::NoExpression);
    };
    let rest = whole(out, second)?;
    let other = out.len() - 1;
    out.push(Node::Pick(condition, one, other))?;
    Ok(rest)
}

// Operands of the level, joined by its operators from the left.
#[cycle(expression)]
fn joined<'t>(
    level: Level,
    out: &mut List<Node<Name>>,
    tokens: &'t [Token],
) -> Result<&'t [Token], ExpressionFail>
    requires joined { IsJoined level }
    requires few { length out.old + node_count tokens.now ≤ MAX_NODES }
    ensures found { IfOk result
        (λ rest. HasRead (of_level level) out.old tokens.now out.new rest.now) }
    ensures none { IfErr result (λ e. HasNone (of_level level) tokens.now e) }
    ensures fits { IfOk result
        (λ rest. length out.new + node_count rest.now ≤ length out.old + node_count tokens.now) }
    ensures grows { IfOk result (λ _. length out.old < length out.new) }
    ensures shorter { IfOk result (λ rest. length rest.now < length tokens.now) }
{
    let mut rest = at_level(next_level(level), out, tokens)?;
    while let Some((op, after)) = split_operator(level, rest) {
        let left = out.len() - 1;
        rest = at_level(next_level(level), out, after)?;
        let right = out.len() - 1;
        out.push(Node::Bin(op, left, right))?;
    }
    Ok(rest)
}

// A sum, or two that are compared.
#[cycle(expression)]
fn compared<'t>(
    out: &mut List<Node<Name>>,
    tokens: &'t [Token],
) -> Result<&'t [Token], ExpressionFail>
    requires { length out.old + node_count tokens.now ≤ MAX_NODES }
    ensures found { IfOk result
        (λ rest. HasRead (of_level Comparison) out.old tokens.now out.new rest.now) }
    ensures none { IfErr result (λ e. HasNone (of_level Comparison) tokens.now e) }
    ensures fits { IfOk result
        (λ rest. length out.new + node_count rest.now ≤ length out.old + node_count tokens.now) }
    ensures grows { IfOk result (λ _. length out.old < length out.new) }
    ensures shorter { IfOk result (λ rest. length rest.now < length tokens.now) }
{
    let end = joined(Level::Sum, out, tokens)?;
    let Some((op, after)) = split_comparison(end) else {
        return Ok(end);
    };
    let left = out.len() - 1;
    let rest = joined(Level::Sum, out, after)?;
    let right = out.len() - 1;
    out.push(Node::Bin(op, left, right))?;
    Ok(rest)
}

// A factor, with operators before it.
#[cycle(expression)]
fn prefixed<'t>(
    out: &mut List<Node<Name>>,
    tokens: &'t [Token],
) -> Result<&'t [Token], ExpressionFail>
    requires { length out.old + node_count tokens.now ≤ MAX_NODES }
    ensures found { IfOk result
        (λ rest. HasRead (of_level Prefixed) out.old tokens.now out.new rest.now) }
    ensures none { IfErr result (λ e. HasNone (of_level Prefixed) tokens.now e) }
    ensures fits { IfOk result
        (λ rest. length out.new + node_count rest.now ≤ length out.old + node_count tokens.now) }
    ensures grows { IfOk result (λ _. length out.old < length out.new) }
    ensures shorter { IfOk result (λ rest. length rest.now < length tokens.now) }
{
    let Some((op, after)) = split_prefix(tokens) else {
        return factor(out, tokens);
    };
    let rest = prefixed(out, after)?;
    let operand = out.len() - 1;
    out.push(Node::Un(op, operand))?;
    Ok(rest)
}

// A number, a name, a call or an expression in parentheses.
#[tactic(auto, unfolding(crate::specs::Grammar::operator_of))]
#[cycle(expression)]
fn factor<'t>(
    out: &mut List<Node<Name>>,
    tokens: &'t [Token],
) -> Result<&'t [Token], ExpressionFail>
    requires { length out.old + node_count tokens.now ≤ MAX_NODES }
    ensures found { IfOk result
        (λ rest. HasRead (of_level Factor) out.old tokens.now out.new rest.now) }
    ensures none { IfErr result (λ e. HasNone (of_level Factor) tokens.now e) }
    ensures fits { IfOk result
        (λ rest. length out.new + node_count rest.now ≤ length out.old + node_count tokens.now) }
    ensures grows { IfOk result (λ _. length out.old < length out.new) }
    ensures shorter { IfOk result (λ rest. length rest.now < length tokens.now) }
{
    if let Some(rest) = split_open(tokens) {
        return inside(out, rest);
    }
    let Some((token, rest)) = split_token(tokens) else {
        return Err(ExpressionFail::NoExpression);
    };
    match *token {
        Token::Number(value) => {
            out.push(Node::Num(value))?;
            Ok(rest)
        }
        Token::Name(name) => {
            out.push(Node::Var(name))?;
            Ok(rest)
        }
        Token::Symbol(_) => Err(ExpressionFail::NoExpression),
        Token::Keyword(_) => match called(token) {
            Some(op) => call(op, out, rest),
            None => Err(ExpressionFail::NoExpression),
        },
    }
}

// What stands after a parenthesis that opens.
#[cycle(expression)]
fn inside<'t>(
    out: &mut List<Node<Name>>,
    tokens: &'t [Token],
) -> Result<&'t [Token], ExpressionFail>
    requires { length out.old + node_count tokens.now ≤ MAX_NODES }
    ensures found { IfOk result (λ rest. HasRead of_inside out.old tokens.now out.new rest.now) }
    ensures none { IfErr result (λ e. HasNone of_inside tokens.now e) }
    ensures fits { IfOk result
        (λ rest. length out.new + node_count rest.now ≤ length out.old + node_count tokens.now) }
    ensures grows { IfOk result (λ _. length out.old < length out.new) }
    ensures shorter { IfOk result (λ rest. length rest.now < length tokens.now) }
{
    let end = whole(out, tokens)?;
    match split_close(end) {
        Some(rest) => Ok(rest),
        None => Err(ExpressionFail::NoExpression),
    }
}

// Two arguments in parentheses.
#[cycle(expression)]
fn call<'t>(
    op: BinOp,
    out: &mut List<Node<Name>>,
    tokens: &'t [Token],
) -> Result<&'t [Token], ExpressionFail>
    requires { length out.old + node_count tokens.now + 1 ≤ MAX_NODES }
    ensures found { IfOk result (λ rest. HasRead (of_call op) out.old tokens.now out.new rest.now) }
    ensures none { IfErr result (λ e. HasNone (of_call op) tokens.now e) }
    ensures fits { IfOk result
        (λ rest. length out.new + node_count rest.now
        ≤ length out.old + node_count tokens.now + 1) }
    ensures grows { IfOk result (λ _. length out.old < length out.new) }
    ensures shorter { IfOk result (λ rest. length rest.now < length tokens.now) }
{
    let Some(first) = split_open(tokens) else {
        return Err(ExpressionFail::NoExpression);
    };
    let first_end = whole(out, first)?;
    let left = out.len() - 1;
    let Some(second) = split_comma(first_end) else {
        return Err(ExpressionFail::NoExpression);
    };
    let second_end = whole(out, second)?;
    let right = out.len() - 1;
    let Some(rest) = split_close(second_end) else {
        return Err(ExpressionFail::NoExpression);
    };
    out.push(Node::Bin(op, left, right))?;
    Ok(rest)
}
