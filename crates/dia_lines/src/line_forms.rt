// The form of a line, by its first keyword: a function for each keyword, which takes the tokens after it.

ghost use Rattle.std.specs.Prelude.{◌≡◌};
ghost use Rattle.std.specs.Option.{option_map};
ghost use Rattle.dia_lines.specs.Forms.{header_at, policy_at, until_at, input_at, event_at, options_at, task_at, state_at, sense_at, port_read_at, read_at, let_at, next_at, out_at, ending_at, declared_at, line_at, shape_at};
ghost use Rattle.dia_lines.specs.FormShapes.{clock_of, shape_of};

use crate::form::{ClockForm, Form, ReadForm, TaskForm};
use crate::policy_keywords::policy_of;
use crate::prefixes::{
    assigned, clock, cost_end, deadline, delay_at, first_value, name_alone, number_alone, port,
    prio, tick_alone, version, when_name,
};
use dbp_plan::Name;
use dia_tokens::{Keyword, Token};

#[tactic(auto, unfolding(crate::specs::Forms::header_at))]
fn header<'t>(tokens: &'t [Token]) -> Option<Form<'t>>
    ensures { option_map shape_of result ≡ header_at tokens.now }
{
    let version = version(number_alone(tokens)?)?;
    Some(Form::Header(version))
}

fn policy<'t>(tokens: &'t [Token]) -> Option<Form<'t>>
    ensures { option_map shape_of result ≡ policy_at tokens.now }
{
    match tokens {
        [Token::Keyword(keyword)] => Some(Form::Policy(policy_of(*keyword)?)),
        _ => None,
    }
}

#[tactic(auto, unfolding(crate::specs::Forms::until_at))]
fn until<'t>(tokens: &'t [Token]) -> Option<Form<'t>>
    ensures { option_map shape_of result ≡ until_at tokens.now }
{
    let end = number_alone(tokens)?;
    Some(Form::Until(end))
}

#[tactic(auto, unfolding(crate::specs::Forms::input_at))]
fn input<'t>(tokens: &'t [Token]) -> Option<Form<'t>>
    ensures { option_map shape_of result ≡ input_at tokens.now }
{
    let Some((name, rest)) = assigned(tokens) else {
        return None;
    };
    let first = number_alone(rest)?;
    Some(Form::Input(name, first))
}

#[tactic(auto, unfolding(crate::specs::Forms::event_at))]
fn event<'t>(tokens: &'t [Token]) -> Option<Form<'t>>
    ensures { option_map shape_of result ≡ event_at tokens.now }
{
    let name = name_alone(tokens)?;
    Some(Form::Event(name))
}

// What is left of a task's line after its clock.
#[tactic(auto, unfolding(crate::specs::Forms::options_at))]
fn options<'t>(name: Name, clock: ClockForm, tokens: &'t [Token]) -> Option<Form<'t>>
    ensures { option_map shape_of result ≡ options_at name (clock_of clock) tokens.now }
{
    let (when, options) = when_name(tokens);
    let (prio, after) = prio(options);
    let (deadline, rest) = deadline(after);
    let (cost, cpu) = cost_end(rest)?;
    Some(Form::Task(TaskForm {
        name,
        clock,
        when,
        prio,
        deadline,
        cost,
        cpu,
    }))
}

#[tactic(auto, unfolding(crate::specs::Forms::task_at))]
fn task<'t>(tokens: &'t [Token]) -> Option<Form<'t>>
    ensures { option_map shape_of result ≡ task_at tokens.now }
{
    match tokens {
        [Token::Name(name), after @ ..] => {
            let Some((clock, rest)) = clock(after) else {
                return None;
            };
            options(*name, clock, rest)
        }
        _ => None,
    }
}

#[tactic(auto, unfolding(crate::specs::Forms::state_at))]
fn state<'t>(tokens: &'t [Token]) -> Option<Form<'t>>
    ensures { option_map shape_of result ≡ state_at tokens.now }
{
    let Some((name, rest)) = assigned(tokens) else {
        return None;
    };
    let first = number_alone(rest)?;
    Some(Form::State(name, first))
}

#[tactic(auto, unfolding(crate::specs::Forms::sense_at))]
fn sense<'t>(tokens: &'t [Token]) -> Option<Form<'t>>
    ensures { option_map shape_of result ≡ sense_at tokens.now }
{
    let Some((name, rest)) = assigned(tokens) else {
        return None;
    };
    let input = name_alone(rest)?;
    Some(Form::Sense(name, input))
}

// What is left of a `read` line after its delay.
#[tactic(auto, unfolding(crate::specs::Forms::port_read_at))]
fn port_read<'t>(name: Name, delay: Option<i64>, tokens: &'t [Token]) -> Option<Form<'t>>
    ensures { option_map shape_of result ≡ port_read_at name delay tokens.now }
{
    let Some((task, port, rest)) = port(tokens) else {
        return None;
    };
    let at = tick_alone(rest)?;
    Some(Form::Read(ReadForm {
        name,
        delay,
        task,
        port,
        at,
    }))
}

#[tactic(auto, unfolding(crate::specs::Forms::read_at))]
fn read<'t>(tokens: &'t [Token]) -> Option<Form<'t>>
    ensures { option_map shape_of result ≡ read_at tokens.now }
{
    let Some((name, after)) = assigned(tokens) else {
        return None;
    };
    let (delay, rest) = delay_at(after);
    port_read(name, delay, rest)
}

#[tactic(auto, unfolding(crate::specs::Forms::let_at))]
fn let_form<'t>(tokens: &'t [Token]) -> Option<Form<'t>>
    ensures { option_map shape_of result ≡ let_at tokens.now }
{
    let Some((name, rest)) = assigned(tokens) else {
        return None;
    };
    Some(Form::Let(name, rest))
}

#[tactic(auto, unfolding(crate::specs::Forms::next_at))]
fn next_form<'t>(tokens: &'t [Token]) -> Option<Form<'t>>
    ensures { option_map shape_of result ≡ next_at tokens.now }
{
    let Some((name, rest)) = assigned(tokens) else {
        return None;
    };
    Some(Form::Next(name, rest))
}

#[tactic(auto, unfolding(crate::specs::Forms::out_at))]
fn out<'t>(tokens: &'t [Token]) -> Option<Form<'t>>
    ensures { option_map shape_of result ≡ out_at tokens.now }
{
    let Some((name, after)) = assigned(tokens) else {
        return None;
    };
    let Some((first, rest)) = first_value(after) else {
        return None;
    };
    Some(Form::Out(name, first, rest))
}

// The form of a line that is the keyword alone.
fn ending<'t>(keyword: Keyword, tokens: &'t [Token]) -> Option<Form<'t>>
    ensures { option_map shape_of result ≡ ending_at keyword tokens.now }
{
    match tokens {
        [] => match keyword {
            Keyword::Trace => Some(Form::Trace),
            Keyword::Script => Some(Form::Script),
            Keyword::Done => Some(Form::Done),
            _ => None,
        },
        _ => None,
    }
}

// The form of a line that begins with the keyword, if lines before the tasks do.
#[tactic(auto, unfolding(crate::specs::Forms::declared_at))]
fn declared<'t>(keyword: Keyword, tokens: &'t [Token]) -> Option<Form<'t>>
    ensures { option_map shape_of result ≡ declared_at keyword tokens.now }
{
    match keyword {
        Keyword::Dbp => header(tokens),
        Keyword::Policy => policy(tokens),
        Keyword::Until => until(tokens),
        Keyword::Input => input(tokens),
        Keyword::Event => event(tokens),
        _ => None,
    }
}

// The form of a line that begins with the keyword.
#[tactic(auto, unfolding(crate::specs::Forms::line_at))]
fn line<'t>(keyword: Keyword, tokens: &'t [Token]) -> Option<Form<'t>>
    ensures { option_map shape_of result ≡ line_at keyword tokens.now }
{
    match keyword {
        Keyword::Task => task(tokens),
        Keyword::State => state(tokens),
        Keyword::Sense => sense(tokens),
        Keyword::Read => read(tokens),
        Keyword::Let => let_form(tokens),
        Keyword::Next => next_form(tokens),
        Keyword::Out => out(tokens),
        Keyword::Trace | Keyword::Script | Keyword::Done => ending(keyword, tokens),
        _ => declared(keyword, tokens),
    }
}

// The form of a line.
#[tactic(auto, unfolding(crate::specs::Forms::shape_at))]
pub(crate) fn form<'t>(tokens: &'t [Token]) -> Option<Form<'t>>
    ensures { option_map shape_of result ≡ shape_at tokens.now }
{
    match tokens {
        [] => Some(Form::Nothing),
        [Token::Keyword(keyword), rest @ ..] => line(*keyword, rest),
        _ => None,
    }
}
