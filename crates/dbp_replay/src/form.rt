// The form of a line's tokens.

ghost use Rattle.std.specs.Prelude.{◌≡◌};
ghost use Rattle.dia_lines.specs.Delays.{delay_at};
ghost use Rattle.dbp_replay.specs.StepForms.{form_in, link_of, name_text, operand_of, slot_of, writer_of};

use crate::kind::{Takes, kind_with, takes_of};
use dbp_core::StepKind;
use dbp_plan::Name;
use dia_lines::{delay_at, short_delay};
use dia_tokens::Token;

// What a line says after its task.
#[derive(Clone, Copy)]
pub(crate) enum Operand {
    Nothing,
    Slot(u32),
    Link { delay: u32, writer: Name },
    Read(Name),
    Port(Name),
}

// A line of a script, with names as they were read.
#[derive(Clone, Copy)]
pub(crate) struct Form {
    pub(crate) kind: StepKind,
    pub(crate) task: Name,
    pub(crate) operand: Operand,
}

// The text of a name or a keyword.
fn name_text(token: &Token) -> &[u8]
    ensures { result.now ≡ name_text token.now }
{
    match token {
        Token::Name(name) => name.bytes(),
        Token::Keyword(keyword) => keyword.text(),
        _ => b"",
    }
}

fn slot_of(number: i64) -> Option<Operand>
    ensures { result ≡ slot_of number }
{
    match u32::try_from(number) {
        Ok(slot) => Some(Operand::Slot(slot)),
        Err(_) => None,
    }
}

// The link with the delay, if that is within its limits.
fn link_of(delay: Option<i64>, writer: Name) -> Option<Operand>
    ensures { result ≡ link_of delay writer }
{
    match short_delay(delay) {
        Some(delay) => Some(Operand::Link { delay, writer }),
        None => None,
    }
}

// A delay as documents have it, and then the writer.
fn writer_of(tokens: &[Token]) -> Option<Operand>
    ensures { result ≡ writer_of (delay_at tokens.now) }
{
    match delay_at(tokens) {
        (delay, [Token::Name(writer)]) => link_of(delay, *writer),
        _ => None,
    }
}

// The operand that the tokens are.
fn operand_of(takes: Takes, tokens: &[Token]) -> Option<Operand>
    ensures { result ≡ operand_of takes tokens.now }
{
    match (takes, tokens) {
        (Takes::Nothing, []) => Some(Operand::Nothing),
        (Takes::Slot, [Token::Number(number)]) => slot_of(*number),
        (Takes::Writer, tokens) => writer_of(tokens),
        (Takes::Read, [Token::Name(name)]) => Some(Operand::Read(*name)),
        (Takes::Port, [Token::Name(name)]) => Some(Operand::Port(*name)),
        _ => None,
    }
}

// The form that the tokens have.
pub(crate) fn form_in(tokens: &[Token]) -> Option<Form>
    ensures { result ≡ form_in tokens.now }
{
    let [first, Token::Name(task), rest @ ..] = tokens else {
        return None;
    };
    let kind = kind_with(name_text(first))?;
    let operand = operand_of(takes_of(kind), rest)?;
    Some(Form {
        kind,
        task: *task,
        operand,
    })
}
