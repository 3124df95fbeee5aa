// What stands at the beginning of tokens, and the tokens after it; or what all that is left is.

ghost use Rattle.std.specs.Prelude.{◌≡◌};
ghost use Rattle.std.specs.Option.{option_map};
ghost use Rattle.dia_lines.specs.Forms.{assigned_at, first_at, offset_at, clock_at, when_at, prio_at, deadline_at, port_at, name_alone as is_name_alone, number_alone as is_number_alone, cost_end as is_cost_end, tick_alone as is_tick_alone};
ghost use Rattle.dia_lines.specs.Delays.{delay_at};
ghost use Rattle.dia_lines.specs.FormShapes.{clock_of};
ghost use Rattle.dia_lines.specs.Places.{version_of};

use crate::form::ClockForm;
use dbp_plan::Name;
use dia_tokens::{Keyword, Symbol, Token};

// The version of the language that has the number.
pub(crate) fn version(value: i64) -> Option<u32>
    ensures { result ≡ version_of value }
{
    match value {
        1 => Some(1),
        2 => Some(2),
        _ => None,
    }
}

// `NAME =` at the front.
pub(crate) fn assigned(tokens: &[Token]) -> Option<(Name, &[Token])>
    ensures { option_map (λ x. (x.0, x.1.now)) result ≡ assigned_at tokens.now }
{
    match tokens {
        [Token::Name(name), Token::Symbol(Symbol::Assign), rest @ ..] => Some((*name, rest)),
        _ => None,
    }
}

// `N then` at the front.
pub(crate) fn first_value(tokens: &[Token]) -> Option<(i64, &[Token])>
    ensures { option_map (λ x. (x.0, x.1.now)) result ≡ first_at tokens.now }
{
    match tokens {
        [
            Token::Number(first),
            Token::Keyword(Keyword::Then),
            rest @ ..,
        ] => Some((*first, rest)),
        _ => None,
    }
}

// `from N` at the front, or 0.
fn offset(tokens: &[Token]) -> (i64, &[Token])
    ensures { (result.0, result.1.now) ≡ offset_at tokens.now }
{
    match tokens {
        [
            Token::Keyword(Keyword::From),
            Token::Number(offset),
            rest @ ..,
        ] => (*offset, rest),
        _ => (0, tokens),
    }
}

// A task's clock at the front.
pub(crate) fn clock(tokens: &[Token]) -> Option<(ClockForm, &[Token])>
    ensures { option_map (λ x. (clock_of x.0, x.1.now)) result ≡ clock_at tokens.now }
{
    match tokens {
        [
            Token::Keyword(Keyword::Every),
            Token::Number(period),
            after @ ..,
        ] => {
            let (offset, rest) = offset(after);
            Some((ClockForm::Every(*period, offset), rest))
        }
        [Token::Keyword(Keyword::On), Token::Name(name), rest @ ..] => Some((
            ClockForm::On(*name),
            rest,
        )),
        _ => None,
    }
}

// `when NAME` at the front, if it is.
pub(crate) fn when_name(tokens: &[Token]) -> (Option<Name>, &[Token])
    ensures { (result.0, result.1.now) ≡ when_at tokens.now }
{
    match tokens {
        [Token::Keyword(Keyword::When), Token::Name(name), rest @ ..] => (Some(*name), rest),
        _ => (None, tokens),
    }
}

// `prio N` at the front, if it is.
pub(crate) fn prio(tokens: &[Token]) -> (Option<i64>, &[Token])
    ensures { (result.0, result.1.now) ≡ prio_at tokens.now }
{
    match tokens {
        [
            Token::Keyword(Keyword::Prio),
            Token::Number(value),
            rest @ ..,
        ] => (Some(*value), rest),
        _ => (None, tokens),
    }
}

// `deadline N` at the front, if it is.
pub(crate) fn deadline(tokens: &[Token]) -> (Option<i64>, &[Token])
    ensures { (result.0, result.1.now) ≡ deadline_at tokens.now }
{
    match tokens {
        [
            Token::Keyword(Keyword::Deadline),
            Token::Number(value),
            rest @ ..,
        ] => (Some(*value), rest),
        _ => (None, tokens),
    }
}

/// `pre` or `pre K` at the front, if it is: 1 or K. And the tokens after it.
pub fn delay_at(tokens: &[Token]) -> (Option<i64>, &[Token])
    ensures { (result.0, result.1.now) ≡ delay_at tokens.now }
{
    match tokens {
        [
            Token::Keyword(Keyword::Pre),
            Token::Number(delay),
            rest @ ..,
        ] => (Some(*delay), rest),
        [Token::Keyword(Keyword::Pre), rest @ ..] => (Some(1), rest),
        _ => (None, tokens),
    }
}

// `TASK.PORT` at the front.
pub(crate) fn port(tokens: &[Token]) -> Option<(Name, Name, &[Token])>
    ensures { option_map (λ x. (x.0, x.1, x.2.now)) result ≡ port_at tokens.now }
{
    match tokens {
        [
            Token::Name(task),
            Token::Symbol(Symbol::Point),
            Token::Name(port),
            rest @ ..,
        ] => Some((*task, *port, rest)),
        _ => None,
    }
}

// A name, and nothing after it.
pub(crate) fn name_alone(tokens: &[Token]) -> Option<Name>
    ensures { result ≡ is_name_alone tokens.now }
{
    match tokens {
        [Token::Name(name)] => Some(*name),
        _ => None,
    }
}

// A number, and nothing after it.
pub(crate) fn number_alone(tokens: &[Token]) -> Option<i64>
    ensures { result ≡ is_number_alone tokens.now }
{
    match tokens {
        [Token::Number(value)] => Some(*value),
        _ => None,
    }
}

// `cost N`, and after it `cpu N` or nothing.
pub(crate) fn cost_end(tokens: &[Token]) -> Option<(i64, Option<i64>)>
    ensures { result ≡ is_cost_end tokens.now }
{
    match tokens {
        [Token::Keyword(Keyword::Cost), Token::Number(cost)] => Some((*cost, None)),
        [
            Token::Keyword(Keyword::Cost),
            Token::Number(cost),
            Token::Keyword(Keyword::Cpu),
            Token::Number(cpu),
        ] => Some((*cost, Some(*cpu))),
        _ => None,
    }
}

// `at N` and nothing after it, or 0 for nothing at all.
pub(crate) fn tick_alone(tokens: &[Token]) -> Option<i64>
    ensures { result ≡ is_tick_alone tokens.now }
{
    match tokens {
        [] => Some(0),
        [Token::Keyword(Keyword::At), Token::Number(value)] => Some(*value),
        _ => None,
    }
}
