// The lines of a document in canonical form.

ghost use Rattle.std.specs.Prelude.{◌≡◌, OnOk};
ghost use Rattle.std.specs.Option.{option_map};
ghost use Rattle.dia_lines.specs.Delays.{delay_tokens};
ghost use Rattle.dia_print.specs.ItemTokens.{policy_tokens, until_tokens, decl_tokens, clock_tokens, option_tokens, when_tokens, named_cpu, task_tokens, part_tokens, header_tokens, assigned, source_tokens};
ghost use Rattle.dia_print.specs.Printed.{with_tokens};

use crate::Printer;
use crate::expression::push_expression;
use dbp_plan::{Name, NoMemory, Policy};
use dia_lines::{Decl, Part, RawClock, TaskLine, policy_keyword};
use dia_tokens::{Keyword, Symbol, Token};

// The keyword and a number, if it is there.
fn push_option(printer: &mut Printer, keyword: Keyword, count: Option<u64>) -> Result<(), NoMemory>
    ensures { OnOk result (printer.new ≡ with_tokens printer.old (option_tokens keyword count)) }
{
    if let Some(count) = count {
        printer.push(Token::Keyword(keyword))?;
        printer.push_count(count)?;
    }
    Ok(())
}

fn push_clock(printer: &mut Printer, clock: RawClock) -> Result<(), NoMemory>
    ensures { OnOk result (printer.new ≡ with_tokens printer.old (clock_tokens clock)) }
{
    match clock {
        RawClock::Every { period, offset } => {
            printer.push(Token::Keyword(Keyword::Every))?;
            printer.push_count(period)?;
            printer.push(Token::Keyword(Keyword::From))?;
            printer.push_count(offset)
        }
        RawClock::On(event) => {
            printer.push(Token::Keyword(Keyword::On))?;
            printer.push(Token::Name(event))
        }
    }
}

// `when` and the input, if it is there.
fn push_when(printer: &mut Printer, input: Option<Name>) -> Result<(), NoMemory>
    ensures { OnOk result (printer.new ≡ with_tokens printer.old (when_tokens input)) }
{
    if let Some(name) = input {
        printer.push(Token::Keyword(Keyword::When))?;
        printer.push(Token::Name(name))?;
    }
    Ok(())
}

// The processor, if task lines of the version name it.
fn cpu_of_version(version: u32, cpu: u32) -> Option<u64>
    ensures { result ≡ named_cpu version cpu }
{
    if version == 2 {
        Some(u64::from(cpu))
    } else {
        None
    }
}

// The keyword that begins a line, the name that it declares and `=`.
fn push_assigned(printer: &mut Printer, keyword: Keyword, name: Name) -> Result<(), NoMemory>
    ensures { OnOk result (printer.new ≡ with_tokens printer.old (assigned keyword name)) }
{
    printer.push(Token::Keyword(keyword))?;
    printer.push(Token::Name(name))?;
    printer.push(Token::Symbol(Symbol::Assign))
}

fn push_delay(printer: &mut Printer, delay: u32) -> Result<(), NoMemory>
    ensures { OnOk result (printer.new ≡ with_tokens printer.old (delay_tokens delay)) }
{
    if delay > 0 {
        printer.push(Token::Keyword(Keyword::Pre))?;
    }
    if delay > 1 {
        printer.push_count(u64::from(delay))?;
    }
    Ok(())
}

// What a read reads: an out of a task, directly or with a delay.
fn push_source(printer: &mut Printer, delay: u32, task: Name, port: Name) -> Result<(), NoMemory>
    ensures { OnOk result (printer.new ≡ with_tokens printer.old (source_tokens delay task port)) }
{
    push_delay(printer, delay)?;
    printer.push(Token::Name(task))?;
    printer.push(Token::Symbol(Symbol::Point))?;
    printer.push(Token::Name(port))
}

impl Printer {
    ghost use Rattle.std.specs.Prelude.{◌≡◌, OnOk};
    ghost use Rattle.dia_print.specs.ItemTokens.{policy_tokens, until_tokens, decl_tokens, task_tokens, part_tokens, header_tokens};
    ghost use Rattle.dia_print.specs.Printed.{with_tokens};

    /// Adds the line that begins a document of the version.
    pub fn push_header(&mut self, version: u32) -> Result<(), NoMemory>
        ensures { OnOk result (self.new ≡ with_tokens self.old (header_tokens version)) }
    {
        self.push(Token::Keyword(Keyword::Dbp))?;
        self.push_count(u64::from(version))
    }

    /// Adds the line of the policy.
    pub fn push_policy(&mut self, policy: Policy) -> Result<(), NoMemory>
        ensures { OnOk result (self.new ≡ with_tokens self.old (policy_tokens policy)) }
    {
        self.push(Token::Keyword(Keyword::Policy))?;
        self.push(Token::Keyword(policy_keyword(policy)))
    }

    /// Adds the line of the tick before which tasks occur.
    pub fn push_until(&mut self, end: u64) -> Result<(), NoMemory>
        ensures { OnOk result (self.new ≡ with_tokens self.old (until_tokens end)) }
    {
        self.push(Token::Keyword(Keyword::Until))?;
        self.push_count(end)
    }

    /// Adds the line of a declaration.
    pub fn push_decl(&mut self, decl: Decl) -> Result<(), NoMemory>
        ensures { OnOk result (self.new ≡ with_tokens self.old (decl_tokens decl)) }
    {
        match decl {
            Decl::Input(name, first) => {
                push_assigned(self, Keyword::Input, name)?;
                self.push(Token::Number(first))
            }
            Decl::Event(name) => {
                self.push(Token::Keyword(Keyword::Event))?;
                self.push(Token::Name(name))
            }
        }
    }

    /// Adds the line that begins a task, in a document of the version.
    pub fn push_task(&mut self, version: u32, task: TaskLine) -> Result<(), NoMemory>
        ensures { OnOk result (self.new ≡ with_tokens self.old (task_tokens version task)) }
    {
        self.push(Token::Keyword(Keyword::Task))?;
        self.push(Token::Name(task.name))?;
        push_clock(self, task.clock)?;
        push_when(self, task.when)?;
        push_option(self, Keyword::Prio, task.prio.map(u64::from))?;
        push_option(self, Keyword::Deadline, task.deadline)?;
        self.push(Token::Keyword(Keyword::Cost))?;
        self.push_count(task.cost)?;
        push_option(self, Keyword::Cpu, cpu_of_version(version, task.cpu))
    }

    /// Adds a line of a task's body, without the spaces before it.
    pub fn push_part(&mut self, part: &Part) -> Result<(), NoMemory>
        ensures { OnOk result (self.new ≡ with_tokens self.old (part_tokens part.now)) }
    {
        match part {
            Part::State(name, first) => {
                push_assigned(self, Keyword::State, *name)?;
                self.push(Token::Number(*first))
            }
            Part::Sense(name, input) => {
                push_assigned(self, Keyword::Sense, *name)?;
                self.push(Token::Name(*input))
            }
            Part::Read {
                name,
                delay,
                task,
                port,
                at,
            } => {
                push_assigned(self, Keyword::Read, *name)?;
                push_source(self, *delay, *task, *port)?;
                self.push(Token::Keyword(Keyword::At))?;
                self.push_count(*at)
            }
            Part::Let(name, expr) => {
                push_assigned(self, Keyword::Let, *name)?;
                push_expression(self, expr)
            }
            Part::Next(name, expr) => {
                push_assigned(self, Keyword::Next, *name)?;
                push_expression(self, expr)
            }
            Part::Out(name, first, expr) => {
                push_assigned(self, Keyword::Out, *name)?;
                self.push(Token::Number(*first))?;
                self.push(Token::Keyword(Keyword::Then))?;
                push_expression(self, expr)
            }
        }
    }
}
