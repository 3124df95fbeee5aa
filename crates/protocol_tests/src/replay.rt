// Scripts that are replayed on a plan that is lent, and the codes of scripts.

ghost use Rattle.std.specs.Prelude.{All};
ghost use Rattle.dbp_replay.specs.NamedItems.{IsThere};
ghost use Rattle.dia_read.specs.Printable.{HasItemLines, IsPrintable};

use dbp_core::{Broken, Count, Illegal, Step};
use dbp_plan::{List, Plan};
use dbp_replay::{ReplayFail, ScriptCode, read_script, replay};
use dia_read::Doc;
use std::alloc::Global;
use std::process::Abort;
use std::test::Fail;
use test_inputs::{THREE_RATES, doc_in, plan_of};

// A script of `THREE_RATES`, and its replay.
struct Script {
    lines: &'static str,
    replayed: Result<&'static str, ReplayFail>,
}

static SCRIPTS: [Script; 2] = [
    Script {
        lines: "claim h pre a",
        // the releaser's next step is an aim, kind 2, and this is a claim, kind 3
        replayed: Err(ReplayFail::Illegal {
            step: 1,
            why: Illegal {
                broken: Broken::Place,
                left: 2,
                right: 3,
            },
        }),
    },
    Script {
        lines: "aim a 1\nstart a",
        replayed: Ok("aim a 1\nstart a -> closed\n"),
    },
];

// `THREE_RATES` with a script of these lines.
fn with_script(alloc: Global, lines: &str) -> Result<Vec<u8>, Fail> {
    let bytes = THREE_RATES.as_bytes();
    let mut text = bytes[..bytes.len().saturating_sub(5)].to_vec(alloc)?;
    for part in ["script\n", lines, "\ndone\n"] {
        text.extend_from_slice(part.as_bytes())?;
    }
    Ok(text)
}

// Whether a replay has this text, or fails so.
fn is_replayed(
    found: &Result<Vec<u8>, ReplayFail>,
    wanted: &Result<&'static str, ReplayFail>,
) -> bool {
    match (found, wanted) {
        (Ok(text), Ok(wanted)) => text.as_slice() == wanted.as_bytes(),
        (Err(fail), Err(wanted)) => *fail == *wanted,
        _ => false,
    }
}

// Replays the steps on the plan.
fn compare_on(
    rt: &impl Abort,
    alloc: Global,
    plan: &Plan,
    steps: &List<Step>,
    wanted: &Result<&'static str, ReplayFail>,
)
    requires { All (IsThere plan.now.diagram) steps.now }
{
    let found = replay(alloc, plan, Count::All, steps);
    assert!(rt; is_replayed(&found, wanted), "{found:?}");
}

// Replays the document's script.
fn compare_in(rt: &impl Abort, alloc: Global, doc: &Doc, script: &Script) -> Result<(), Fail>
    requires printable { IsPrintable doc.now.body }
    requires lines { HasItemLines doc.now }
{
    let plan = plan_of(alloc, doc)?;
    let steps = read_script(alloc, &plan.diagram, doc)?;
    compare_on(rt, alloc, &plan, &steps, &script.replayed);
    Ok(())
}

// Replays the script.
fn compare(rt: &impl Abort, alloc: Global, script: &Script) -> Result<(), Fail> {
    let input = with_script(alloc, script.lines)?;
    let doc = doc_in(alloc, &input)?;
    compare_in(rt, alloc, &doc, script)
}

#[test]
fn scripts_are_replayed_on_a_plan_that_is_lent(rt: HostRuntime) -> Result<(), Fail> {
    for script in &SCRIPTS {
        compare(&rt, rt.alloc(), script)?;
    }
    Ok(())
}

// The codes, and how they print themselves.
static CODES: [(ScriptCode, &str); 3] = [
    (ScriptCode::BadStep, "27 BadStep"),
    (ScriptCode::StepName, "28 StepName"),
    (ScriptCode::NoScript, "29 NoScript"),
];

#[test]
fn codes_print_themselves(rt: HostRuntime) -> Result<(), Fail> {
    for (code, text) in &CODES {
        assert_eq!(rt; format!(in rt.alloc(); "{code}")?.as_str(), *text);
    }
    Ok(())
}
