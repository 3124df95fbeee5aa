// A run of the input's plan by a crew.

ghost use Rattle.std.specs.Prelude.{◌≡◌, ◌≤◌, ℕ, List as Items, Option as Maybe, Some, length, IfErr, IfOk, MatchResult};
ghost use Rattle.dbp_plan.specs.declared.limits.TheConstants.{MAX_TEXT};
ghost use Rattle.party_turns.specs.Parties.{AreFresh};
ghost use Rattle.sync_meaning.specs.SomeMeaning.{meaning_of};
ghost use Rattle.trace_io.specs.Texts.{Accepts};
ghost use Rattle.dbp_answers.specs.Answer.{Answers, Makes};
ghost use Rattle.dbp_top.specs.Runs.{HasDrawn, RanOnce, RunsAfter, RunsAfterText};
ghost use Rattle.dbp_answers.specs.Stops.{IsStopOf};
ghost use Rattle.dbp_answers.specs.declared.command.Command.TheVariants.{Run};
ghost use Rattle.dbp_answers.specs.declared.status.Status.TheVariants.{NoMemory as OutOfMemory};

use dbp_answers::{Status, Stop, plan_of, stop_answer};
use dbp_plan::{List, NoMemory, Plan, Table};
use party_exec::{Crew, Party, parties, table_of};
use std::alloc::Global;
use std::sync::Wait;
use std::thread::Threads;
use trace_io::lines;
use word_rule::SlotWords;

// The status and the text that a run gives to an input that isn't too large. The parties are run by this crew.
pub(crate) fn run_answer<R: Threads + Wait + Sync, C: Crew>(
    rt: &R,
    alloc: Global,
    input: &[u8],
    crew: &mut C,
) -> Result<(Status, Vec<u8>), NoMemory>
    requires { length input.now ≤ MAX_TEXT }
    ensures answer { IfOk result
        (λ (status, text). (turns : Maybe ℕ) → Answers input.now (Run turns) status text.items) }
    ensures runs { MatchResult result
        (λ (status, text). RunsAfter status (Some input.now) (C.runs crew.old) (C.runs crew.new))
        (λ _. RunsAfter OutOfMemory (Some input.now) (C.runs crew.old) (C.runs crew.new)) }
    ensures seed { C.seed crew.new ≡ C.seed crew.old }
    ensures drawn { HasDrawn (C.seed crew.old) (C.runs crew.old) (C.runs crew.new) (C.last_seed crew.new) }
{
    match run_text(rt, alloc, input, crew) {
        Ok(text) => Ok((Status::Ok, text)),
        Err(stop) => stop_answer(alloc, stop),
    }
}

// The lines of the table that the parties of the input's plan make, or why there are none.
fn run_text<R: Threads + Wait + Sync, C: Crew>(
    rt: &R,
    alloc: Global,
    input: &[u8],
    crew: &mut C,
) -> Result<Vec<u8>, Stop>
    requires { length input.now ≤ MAX_TEXT }
    ensures text { IfOk result
        (λ text. (turns : Maybe ℕ) → Makes input.now (Run turns) text.items) }
    ensures stop { IfErr result (λ stop. (turns : Maybe ℕ) → IsStopOf input.now (Run turns) stop) }
    ensures runs { RunsAfterText input.now (C.runs crew.old) (C.runs crew.new) result }
    ensures seed { C.seed crew.new ≡ C.seed crew.old }
    ensures drawn { HasDrawn (C.seed crew.old) (C.runs crew.old) (C.runs crew.new) (C.last_seed crew.new) }
{
    let plan = plan_of(alloc, input)?;
    run_lines(rt, alloc, input, &plan, crew)
}

// The same of the input's plan.
fn run_lines<R: Threads + Wait + Sync, C: Crew>(
    rt: &R,
    alloc: Global,
    input: &[u8],
    plan: &Plan,
    crew: &mut C,
) -> Result<Vec<u8>, Stop>
    requires { Accepts input.now plan.now }
    ensures text { IfOk result
        (λ text. (turns : Maybe ℕ) → Makes input.now (Run turns) text.items) }
    ensures stop { IfErr result (λ stop. (turns : Maybe ℕ) → IsStopOf input.now (Run turns) stop) }
    ensures runs { RunsAfterText input.now (C.runs crew.old) (C.runs crew.new) result }
    ensures seed { C.seed crew.new ≡ C.seed crew.old }
    ensures drawn { HasDrawn (C.seed crew.old) (C.runs crew.old) (C.runs crew.new) (C.last_seed crew.new) }
{
    let table = run_table(rt, alloc, plan, crew)?;
    Ok(lines(alloc, plan, &table)?)
}

// The table that the parties of the plan make. All memory of the run is taken before their first step.
pub(crate) fn run_table<R: Threads + Wait + Sync, C: Crew>(
    rt: &R,
    alloc: Global,
    plan: &Plan,
    crew: &mut C,
) -> Result<Table, NoMemory>
    ensures table { IfOk result (λ table. table ≡ meaning_of plan.now) }
    ensures runs { RanOnce plan.now (C.runs crew.old) (C.runs crew.new) result }
    ensures seed { C.seed crew.new ≡ C.seed crew.old }
    ensures drawn { HasDrawn (C.seed crew.old) (C.runs crew.old) (C.runs crew.new) (C.last_seed crew.new) }
{
    let (words, mut parties) = parties(alloc, plan)?;
    run_parties(rt, alloc, &words, &mut parties, crew)
}

// The table that these parties make.
fn run_parties<R: Threads + Wait + Sync, C: Crew>(
    rt: &R,
    alloc: Global,
    words: &SlotWords,
    parties: &mut List<Party>,
    crew: &mut C,
) -> Result<Table, NoMemory>
    requires { AreFresh words.now parties.old }
    ensures table { IfOk result (λ table. table ≡ meaning_of words.now.plan) }
    ensures runs { RanOnce words.now.plan (C.runs crew.old) (C.runs crew.new) result }
    ensures seed { C.seed crew.new ≡ C.seed crew.old }
    ensures drawn { HasDrawn (C.seed crew.old) (C.runs crew.old) (C.runs crew.new) (C.last_seed crew.new) }
{
    crew.prepare(words.plan())?;
    crew.run(rt, words, parties.items_mut());
    table_of(alloc, words, parties)
}
