// The whole program as one call.

ghost use Rattle.std.specs.Prelude.{◌≡◌, ◌≤◌, ℕ, true, List as Items, Option as Maybe, Some};
ghost use Rattle.dbp_plan.specs.Faults.{Rose};
ghost use Rattle.dbp_load.specs.Texts.{generated_text};
ghost use Rattle.dbp_answers.specs.Commands.{reads_input, serves_plain};
ghost use Rattle.dbp_top.specs.Commands.{serves_all};
ghost use Rattle.dbp_top.specs.Ends.{Answered, Ends, EndsAs};
ghost use Rattle.dbp_top.specs.Outside.{status_of_read};
ghost use Rattle.dbp_top.specs.Runs.{Crews, HasDrawn, RunsAfter};
ghost use Rattle.dbp_answers.specs.declared.command.Command.TheVariants.{Gen, Run, Soak};

use crate::outside::{ReadStop, read_all, write_all};
use crate::run::run_answer;
use crate::soak::soak_text;
use crate::table::command_of;
use dbp_answers::{Command, Status, answer};
use dbp_load::generate;
use dbp_plan::{Sink, Source};
use party_exec::{Crew, TurnCrew};
use std::alloc::Global;
use std::sync::Wait;
use std::thread::Threads;

/// The greatest document, in bytes.
pub const MAX_DOCUMENT: usize = 1_048_576;

const _: () = prove!(MAX_DOCUMENT == 1_048_576);

/// The whole program: compares the arguments with the commands, reads the source to its end, makes the command's text and
/// writes it. `run` runs the tasks by `crew`, and `run --turns N` by `turns`, which draws from N. Clause `ends` says for each
/// status when it comes, and what was read and written then; clause `answered` says the same of a call in which nothing
/// failed; clause `crews` says for each status which runs the crews then have made (docs/PROVED.md has them as tables). It
/// may wait if it runs tasks, and its clauses hold if it returns.
pub fn dbp_main<R: Threads + Wait + Sync, S: Source, K: Sink, C: Crew>(
    rt: &R,
    alloc: Global,
    arguments: &[String],
    source: &mut S,
    sink: &mut K,
    crew: &mut C,
    turns: &mut TurnCrew,
) -> Status
    // What each status says.
    ensures ends { Ends S.left S.faults S.ends K.written K.faults serves_all arguments.now source.old source.new sink.old sink.new result }
    // If no read and no write failed, the call was answered.
    ensures answered { (Rose (S.faults source.old) (S.faults source.new) → ⊥)
        → (Rose (K.faults sink.old) (K.faults sink.new) → ⊥)
        → Answered S.left S.faults S.ends K.written K.faults serves_all arguments.now source.old source.new sink.old sink.new result }
    // What the crews ran.
    ensures crews { Crews C.runs arguments.now result
        (S.left source.old) crew.old crew.new turns.old turns.new }
{
    ending(rt, alloc, arguments, source, sink, crew, turns)
}

/// `dbp_main` for the commands that run no tasks; those that do are no command to it. It waits for nobody, and always
/// returns.
pub fn plain_main<S: Source, K: Sink>(
    alloc: Global,
    arguments: &[String],
    source: &mut S,
    sink: &mut K,
) -> Status
    // What each status says.
    ensures ends { Ends S.left S.faults S.ends K.written K.faults serves_plain arguments.now source.old source.new sink.old sink.new result }
    // If no read and no write failed, the call was answered.
    ensures answered { (Rose (S.faults source.old) (S.faults source.new) → ⊥)
        → (Rose (K.faults sink.old) (K.faults sink.new) → ⊥)
        → Answered S.left S.faults S.ends K.written K.faults serves_plain arguments.now source.old source.new sink.old sink.new result }
{
    plain_ending(alloc, arguments, source, sink)
}

// How a call of these arguments ends, and what the crews ran.
fn ending<R: Threads + Wait + Sync, S: Source, K: Sink, C: Crew>(
    rt: &R,
    alloc: Global,
    arguments: &[String],
    source: &mut S,
    sink: &mut K,
    crew: &mut C,
    turns: &mut TurnCrew,
) -> Status
    ensures ends { Ends S.left S.faults S.ends K.written K.faults serves_all arguments.now source.old source.new sink.old sink.new result }
    ensures crews { Crews C.runs arguments.now result
        (S.left source.old) crew.old crew.new turns.old turns.new }
{
    match command_of(arguments) {
        Some(Command::Run { turns: None }) => run_ending(rt, alloc, source, sink, crew),
        Some(Command::Run { turns: Some(seed) }) => {
            turns.seed(seed);
            run_ending(rt, alloc, source, sink, turns)
        }
        Some(Command::Soak { seed, size }) => {
            soak_ending(rt, alloc, seed, size, source, sink, crew)
        }
        _ => plain_main(alloc, arguments, source, sink),
    }
}

// How a call without crews ends.
fn plain_ending<S: Source, K: Sink>(
    alloc: Global,
    arguments: &[String],
    source: &mut S,
    sink: &mut K,
) -> Status
    ensures { Ends S.left S.faults S.ends K.written K.faults serves_plain arguments.now source.old source.new sink.old sink.new result }
{
    match command_of(arguments) {
        None | Some(Command::Run { .. } | Command::Soak { .. }) => Status::Usage,
        Some(Command::Gen { seed, size }) => gen_ending(alloc, seed, size, source, sink),
        Some(command) => command_ending(alloc, command, source, sink),
    }
}

// How a call with this command ends.
fn command_ending<S: Source, K: Sink>(
    alloc: Global,
    command: Command,
    source: &mut S,
    sink: &mut K,
) -> Status
    requires plain { serves_plain command ≡ true }
    requires reads { reads_input command ≡ true }
    ensures { EndsAs S.left S.faults S.ends K.written K.faults command source.old source.new sink.old sink.new result }
{
    let input = match read_all(alloc, source, MAX_DOCUMENT) {
        Ok(input) => input,
        Err(stop) => return status_of_read(stop),
    };
    let Ok((status, text)) = answer(alloc, command, &input) else {
        return Status::NoMemory;
    };
    match write_all(sink, &text) {
        Ok(()) => status,
        Err(_) => Status::WriteFault,
    }
}

// How a run by this crew ends, and what the crew ran.
fn run_ending<R: Threads + Wait + Sync, S: Source, K: Sink, C: Crew>(
    rt: &R,
    alloc: Global,
    source: &mut S,
    sink: &mut K,
    crew: &mut C,
) -> Status
    ensures ends { (turns : Maybe ℕ)
        → EndsAs S.left S.faults S.ends K.written K.faults
        (Run turns) source.old source.new sink.old sink.new result }
    ensures runs { RunsAfter result (S.left source.old) (C.runs crew.old) (C.runs crew.new) }
    ensures seed { C.seed crew.new ≡ C.seed crew.old }
    ensures drawn { HasDrawn (C.seed crew.old) (C.runs crew.old) (C.runs crew.new) (C.last_seed crew.new) }
{
    let input = match read_all(alloc, source, MAX_DOCUMENT) {
        Ok(input) => input,
        Err(stop) => return status_of_read(stop),
    };
    let Ok((status, text)) = run_answer(rt, alloc, &input, crew) else {
        return Status::NoMemory;
    };
    match write_all(sink, &text) {
        Ok(()) => status,
        Err(_) => Status::WriteFault,
    }
}

// How a call ends that writes the generated document. It leaves the source as it was.
fn gen_ending<S: Source, K: Sink>(
    alloc: Global,
    seed: u64,
    size: u32,
    _source: &mut S,
    sink: &mut K,
) -> Status
    requires { (1 ≤ size) × (size ≤ 32) }
    ensures { EndsAs S.left S.faults S.ends K.written K.faults
        (Gen seed size) _source.old _source.new sink.old sink.new result }
{
    let Ok(text) = generate(alloc, seed, size) else {
        return Status::NoMemory;
    };
    match write_all(sink, &text) {
        Ok(()) => Status::Ok,
        Err(_) => Status::WriteFault,
    }
}

// How a call ends that writes the summary of the generated document, and what the crew ran.
fn soak_ending<R: Threads + Wait + Sync, S: Source, K: Sink, C: Crew>(
    rt: &R,
    alloc: Global,
    seed: u64,
    size: u32,
    _source: &mut S,
    sink: &mut K,
    crew: &mut C,
) -> Status
    requires { (1 ≤ size) × (size ≤ 32) }
    ensures ends { EndsAs S.left S.faults S.ends K.written K.faults
        (Soak seed size) _source.old _source.new sink.old sink.new result }
    ensures runs { RunsAfter result (Some (generated_text seed size)) (C.runs crew.old)
        (C.runs crew.new) }
{
    let Ok(text) = soak_text(rt, alloc, seed, size, crew) else {
        return Status::NoMemory;
    };
    match write_all(sink, &text) {
        Ok(()) => Status::Ok,
        Err(_) => Status::WriteFault,
    }
}

// The status of a call whose reading stopped.
fn status_of_read(stop: ReadStop) -> Status
    ensures { result ≡ status_of_read stop }
{
    match stop {
        ReadStop::Failed => Status::ReadFault,
        ReadStop::TooLarge => Status::TooLarge,
        ReadStop::NoMemory => Status::NoMemory,
    }
}
