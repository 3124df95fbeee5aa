// The ranks of a diagram's tasks, and the first fault that keeps it from having them.

ghost use Rattle.std.specs.Prelude.{◌≡◌, ◌<◌, ◌≤◌, All, IfErr, IfOk, IfSome, IsErrOf, [], length, map};
ghost use Rattle.dbp_plan.specs.Closed.{IsClosed};
ghost use Rattle.dbp_plan.specs.Ranked.{IsRanked};
ghost use Rattle.dbp_plan.specs.FirstFault.{faults_after, first_fault};
ghost use Rattle.dbp_plan.specs.Ranks.{ranks_of};
ghost use Rattle.dia_check.specs.RankFaults.{missing, task_rank_fault, link_rank_fault, read_rank_fault, rank_faults, HasNoRankFault, IsRankRefusal, rank_refusal, ranked_diagram};
ghost use Rattle.dia_read.specs.declared.document.Doc.{Doc as AnyDoc};
ghost use Rattle.dia_check.specs.Checks.{IsCheckedOf};
ghost use Rattle.dia_check.specs.Shapes.{IsShapeOf, HasLines};

use crate::fail::{CheckFail, RankFault, rank_refusal};
use crate::ranking::{is_ranked_above, ranks};
use crate::shaped::{ReadLine, Shaped};
use dbp_plan::{Diagram, Link, Policy, Task};
use std::alloc::Global;

// How a task lacks what the policy ranks it by.
fn missing(policy: Policy) -> RankFault
    ensures { result ≡ missing policy }
{
    match policy {
        Policy::Fp => RankFault::MissingPrio,
        Policy::Edf => RankFault::MissingDeadline,
    }
}

// The fault of a task that lacks what the policy ranks it by.
fn task_rank_fault(policy: Policy, task: &Task) -> Option<RankFault>
    ensures { result ≡ task_rank_fault policy task.now }
{
    match policy.urgency(task) {
        Some(_) => None,
        None => Some(missing(policy)),
    }
}

// The first fault of the tasks, whose lines have these numbers.
fn tasks_rank_fault(policy: Policy, tasks: &[Task], lines: &[u32]) -> Option<(u32, RankFault)>
    requires { length tasks.now ≤ length lines.now }
    ensures { result ≡ first_fault
        (faults_after (λ before t. task_rank_fault policy t) [] tasks.now lines.now) }
{
    for (place, task) in tasks.iter().enumerate() {
        if let Some(fault) = task_rank_fault(policy, task) {
            return Some((lines[place], fault));
        }
    }
    None
}

// `UndelayedUpward`, if the link is direct and its reader is ranked above its writer.
fn link_rank_fault(policy: Policy, tasks: &[Task], link: Link) -> Option<RankFault>
    requires { (link.writer < length tasks.now) × (link.reader < length tasks.now) }
    ensures { result ≡ link_rank_fault (ranks_of policy tasks.now) link }
{
    if link.delay == 0 && is_ranked_above(policy, tasks, link.reader, link.writer) {
        return Some(RankFault::UndelayedUpward {
            writer: link.writer,
            reader: link.reader,
        });
    }
    None
}

// The first fault of the read lines, which read over these links of these tasks.
fn reads_rank_fault(
    policy: Policy,
    tasks: &[Task],
    links: &[Link],
    reads: &[ReadLine],
) -> Option<(u32, RankFault)>
    requires ends { All
        (λ l. (l.writer < length tasks.now) × (l.reader < length tasks.now)) links.now }
    requires linked { All (λ r. r.link < length links.now) reads.now }
    ensures { result ≡ first_fault
        (map (λ r. (r.line, read_rank_fault (ranks_of policy tasks.now) links.now r)) reads.now) }
{
    for read in reads {
        if let Some(fault) = link_rank_fault(policy, tasks, links[read.link as usize]) {
            return Some((read.line, fault));
        }
    }
    None
}

// The first fault of the tasks, or else of the read lines.
fn first_rank_fault(shaped: &Shaped) -> Option<(u32, RankFault)>
    requires closed { IsClosed shaped.now.diagram }
    requires lines { HasLines shaped.now }
    ensures { result ≡ first_fault (rank_faults shaped.now) }
{
    let policy = shaped.diagram.policy;
    let tasks = shaped.diagram.tasks.items();
    if let Some(fault) = tasks_rank_fault(policy, tasks, shaped.task_lines.items()) {
        return Some(fault);
    }
    let links = shaped.diagram.links.items();
    reads_rank_fault(policy, tasks, links, shaped.read_lines.items())
}

/// Gives the tasks of a document's diagram their ranks, by its policy. Refused is the first fault, at its line: of
/// the tasks in order, that one lacks what the policy ranks by, and then of the `read` lines in order, `UndelayedUpward`.
/// With an error `shaped` is given up.
pub fn ranked(alloc: Global, shaped: Shaped) -> Result<Diagram, CheckFail>
    requires closed { IsClosed shaped.diagram }
    requires lines { HasLines shaped }
    // It has no fault of ranks, and this is its diagram with them.
    ensures found { IfOk result (λ d. HasNoRankFault shaped × (d ≡ ranked_diagram shaped.diagram)) }
    ensures ranked { IfOk result (λ d. IsRanked d) }
    // The diagram came from the document that `shaped` came from.
    ensures checked { (doc : AnyDoc) → IsShapeOf doc shaped → IfOk result (λ d. IsCheckedOf doc d) }
    // It has this first fault, unless memory ran out.
    ensures fault { IfErr result (λ e. IsRankRefusal shaped e) }
    // The first fault is found before memory is taken, so it is never out of memory.
    ensures refused { IfSome (first_fault (rank_faults shaped))
        (λ f. IsErrOf result (rank_refusal f)) }
{
    if let Some(fault) = first_rank_fault(&shaped) {
        return Err(rank_refusal(fault));
    }
    let ranks = ranks(alloc, shaped.diagram.policy, shaped.diagram.tasks.items())?;
    let mut diagram = shaped.diagram;
    diagram.ranks = ranks;
    Ok(diagram)
}
