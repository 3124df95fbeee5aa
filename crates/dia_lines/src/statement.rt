// The tokens of a line of the diagram as what it says.

ghost use Rattle.std.specs.Prelude.{◌≡◌, ◌≤◌, IfOk, IfErr};
ghost use Rattle.dbp_plan.specs.declared.limits.TheConstants.{MAX_NODES};
ghost use Rattle.dia_exprs.specs.declared.counts.TheConstants.{MAX_DEPTH};
ghost use Rattle.dia_exprs.specs.Counts.{node_count, depth_of};
ghost use Rattle.dia_exprs.specs.Answers.{IsSpelled};
ghost use Rattle.dia_lines.specs.Statements.{until as an_until};
ghost use Rattle.dia_lines.specs.Lines.{expression_of};
ghost use Rattle.dia_lines.specs.Forms.{plain, tokens_of};
ghost use Rattle.dia_lines.specs.FormShapes.{task_of, read_of, shape_of};
ghost use Rattle.dia_lines.specs.Answers.{KeepsStatement, RefusesStatement, KeepsShape, RefusesExpression, RefusesNumbers, RefusesShape};

use crate::fault::{Limit, LineError, ReadCode};
use crate::form::{Form, ReadForm, TaskForm};
use crate::item::{Decl, Line, Part};
use crate::line_forms::form;
use crate::place::Place;
use crate::placement::may_stand;
use crate::ranges::{read_part, task_line, ticks};
use dbp_plan::{Expr, Name};
use dia_exprs::expression;
use dia_tokens::Token;
use std::alloc::Global;

// The expression that the tokens spell.
fn spelled(alloc: Global, tokens: &[Token]) -> Result<Expr<Name>, LineError>
    requires nodes { node_count tokens.now ≤ MAX_NODES }
    requires depth { depth_of tokens.now ≤ MAX_DEPTH }
    ensures found { IfOk result (λ e. IsSpelled tokens.now e) }
    ensures fault { IfErr result (λ e. RefusesExpression tokens.now e) }
{
    Ok(expression(alloc, tokens)?)
}

fn kept_until(end: i64) -> Result<Line, ReadCode>
    ensures found { IfOk result (λ l. KeepsShape (plain (an_until end)) l) }
    ensures fault { IfErr result (λ code. RefusesNumbers (an_until end) code) }
{
    match ticks(end) {
        Some(end) => Ok(Line::Until(end)),
        None => Err(ReadCode::LimitHit(Limit::Number)),
    }
}

fn kept_task(form: &TaskForm) -> Result<Line, ReadCode>
    ensures found { IfOk result (λ l. KeepsShape (plain (task_of form.now)) l) }
    ensures fault { IfErr result (λ code. RefusesNumbers (task_of form.now) code) }
{
    match task_line(form) {
        Some(task) => Ok(Line::Task(task)),
        None => Err(ReadCode::LimitHit(Limit::Number)),
    }
}

fn kept_read(form: &ReadForm) -> Result<Line, ReadCode>
    ensures found { IfOk result (λ l. KeepsShape (plain (read_of form.now)) l) }
    ensures fault { IfErr result (λ code. RefusesNumbers (read_of form.now) code) }
{
    match read_part(form) {
        Some(part) => Ok(Line::Part(part)),
        None => Err(ReadCode::LimitHit(Limit::Number)),
    }
}

// What is kept of a line of the form.
fn kept(alloc: Global, form: &Form) -> Result<Line, LineError>
    requires nodes { node_count (tokens_of (shape_of form.now)) ≤ MAX_NODES }
    requires depth { depth_of (tokens_of (shape_of form.now)) ≤ MAX_DEPTH }
    ensures found { IfOk result (λ l. KeepsShape (shape_of form.now) l) }
    ensures fault { IfErr result (λ e. RefusesShape (shape_of form.now) e) }
{
    match form {
        Form::Nothing => Ok(Line::Nothing),
        Form::Header(version) => Ok(Line::Header(*version)),
        Form::Policy(policy) => Ok(Line::Policy(*policy)),
        Form::Until(end) => Ok(kept_until(*end)?),
        Form::Input(name, first) => Ok(Line::Decl(Decl::Input(*name, *first))),
        Form::Event(name) => Ok(Line::Decl(Decl::Event(*name))),
        Form::Task(task) => Ok(kept_task(task)?),
        Form::State(name, first) => Ok(Line::Part(Part::State(*name, *first))),
        Form::Sense(name, input) => Ok(Line::Part(Part::Sense(*name, *input))),
        Form::Read(read) => Ok(kept_read(read)?),
        Form::Let(name, tokens) => Ok(Line::Part(Part::Let(*name, spelled(alloc, tokens)?))),
        Form::Next(name, tokens) => Ok(Line::Part(Part::Next(*name, spelled(alloc, tokens)?))),
        Form::Out(name, first, tokens) => {
            Ok(Line::Part(Part::Out(*name, *first, spelled(alloc, tokens)?)))
        }
        Form::Trace => Ok(Line::Trace),
        Form::Script => Ok(Line::Script),
        Form::Done => Ok(Line::Done),
    }
}

// What the tokens of a line of the diagram say that may stand at the place in a document of the version.
pub(crate) fn statement(
    alloc: Global,
    version: u32,
    place: Place,
    tokens: &[Token],
) -> Result<Line, LineError>
    requires nodes { node_count (expression_of tokens.now) ≤ MAX_NODES }
    requires depth { depth_of tokens.now ≤ MAX_DEPTH }
    // The tokens are a statement that may stand here, whose numbers are within their limits, and the line holds it.
    ensures found { IfOk result (λ l. KeepsStatement version place tokens.now l) }
    // BadLine: no statement may stand here; LimitHit Number: one may, with a number past its limit; no other fault.
    ensures fault { IfErr result (λ e. RefusesStatement version place tokens.now e) }
{
    match form(tokens) {
        Some(form) => {
            if may_stand(version, place, &form) {
                kept(alloc, &form)
            } else {
                Err(LineError::from(ReadCode::BadLine))
            }
        }
        None => Err(LineError::from(ReadCode::BadLine)),
    }
}
