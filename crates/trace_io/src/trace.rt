// The plan of a document.

ghost use Rattle.std.specs.Prelude.{◌≡◌, ◌<◌, ◌≤◌, [], All, AllPairs, IsTrue, length, IfErr, IfOk, List as Items, OnOk, None, Some, is_some, replicate};
ghost use Rattle.std.specs.List.{list_any};
ghost use Rattle.dbp_plan.specs.Ranked.{IsRanked};
ghost use Rattle.dbp_plan.specs.Samples.{is_before};
ghost use Rattle.dia_check.specs.Checks.{IsCheckedOf};
ghost use Rattle.dia_read.specs.Printable.{HasItemLines, IsPrintable};
ghost use Rattle.trace_io.specs.Batches.{total_of};
ghost use Rattle.trace_io.specs.Guards.{HasItsSamples, RiseInTime, own_lists};
ghost use Rattle.trace_io.specs.Counts.{IsTimetable};
ghost use Rattle.trace_io.specs.Traces.{IsPlanOf, IsTraceOf, IsTraceRefusal, events_of, given_samples};
ghost use Rattle.trace_rows.specs.declared.fail.TraceCode.TheVariants.{BadHeader, TooManyOccurrences};
ghost use Rattle.trace_rows.specs.declared.fail.TraceFail.TheVariants.{Refused};

use crate::batches::merged;
use crate::guards::{merge_clocks, total};
use csv::ByteRecord;
use dbp_plan::{Diagram, List, MAX_OCCURRENCES, NoMemory, Plan, Sample, Task, samples_by_input};
use dia_read::Doc;
use std::alloc::Global;
use std::slice::from_ref;
use trace_rows::{
    Records, RowValues, TraceCode, TraceFail, TraceFault, is_header, no_times, row_values,
};

// What a document's trace gives.
#[derive(Drop)]
struct Trace {
    // The times of each event, in ticks.
    events: Vec<List<u64>>,
    samples: List<Sample>,
    // The samples of each input by itself, if there are several inputs and a task has a `when`; else nothing.
    own: List<List<Sample>>,
}

ghost use Rattle.dbp_plan.specs.declared.schedule.Sample.{Sample as AnySample};

// The fault of the `until` line: all tasks together occur more often than `MAX_OCCURRENCES`, if these are the times of
// the events and the samples of each input.
fn check_occurrences(
    diagram: &Diagram,
    doc: &Doc,
    events: &[List<u64>],
    own: &[List<Sample>],
) -> Result<(), TraceFault>
    requires ranked { IsRanked diagram.now }
    requires table { IsTimetable diagram.now.until events.now }
    requires rising { RiseInTime own.now }
    ensures few { OnOk result ((samples : Items AnySample)
        → All (HasItsSamples samples own.now) diagram.now.tasks
        → total_of diagram.now samples events.now ≤ MAX_OCCURRENCES) }
    ensures many { IfErr result (λ fault. (samples : Items AnySample)
        → All (HasItsSamples samples own.now) diagram.now.tasks
        → MAX_OCCURRENCES < total_of diagram.now samples events.now) }
    ensures line { IfErr result (λ fault. fault.line ≡ doc.now.lines.until_at) }
    ensures code { IfErr result (λ fault. fault.code ≡ TooManyOccurrences) }
{
    if total(diagram, events, own) > u64::from(MAX_OCCURRENCES) {
        return Err(TraceFault {
            line: doc.lines.until_at,
            code: TraceCode::TooManyOccurrences,
        });
    }
    Ok(())
}

// The empty trace of a document without a trace section. The occurrences are counted before memory is taken.
fn empty_trace(alloc: Global, diagram: &Diagram, doc: &Doc) -> Result<Trace, TraceFail>
    requires section { doc.now.body.trace ≡ None }
    requires ranked { IsRanked diagram.now }
    ensures trace { IfOk result
        (λ trace. IsTraceOf doc.now diagram.now trace.events.items trace.samples) }
    ensures own { IfOk result (λ trace. All (HasItsSamples trace.samples
        (own_lists (length diagram.now.inputs) trace.samples trace.own)) diagram.now.tasks) }
    ensures rising { IfOk result (λ trace.
        RiseInTime (own_lists (length diagram.now.inputs) trace.samples trace.own)) }
    ensures few { OnOk result (total_of diagram.now (given_samples doc.now diagram.now)
        (events_of doc.now diagram.now) ≤ MAX_OCCURRENCES) }
    ensures fault { IfErr result (λ fail. IsTraceRefusal doc.now diagram.now fail) }
    ensures many { MAX_OCCURRENCES < total_of diagram.now [] []
        → result ≡ Err (Refused doc.now.lines.until_at TooManyOccurrences) }
{
    check_occurrences(diagram, doc, &[], &[])?;
    Ok(Trace {
        events: no_times(alloc, diagram.events.items().len())?,
        samples: List::new(alloc),
        own: List::new(alloc),
    })
}

// Whether a task has a `when`.
fn has_guard(tasks: &[Task]) -> bool
    ensures { result ≡ list_any (λ t. is_some t.when) tasks.now }
{
    tasks.iter().any(|task| task.when.is_some())
}

// The samples of each of several inputs, if a task has a `when`; else nothing.
fn own_samples(
    alloc: Global,
    diagram: &Diagram,
    samples: &List<Sample>,
) -> Result<List<List<Sample>>, NoMemory>
    requires ranked { IsRanked diagram.now }
    requires named { All (λ s. s.input < length diagram.now.inputs) samples.now }
    requires order { AllPairs (λ a b. IsTrue (is_before a b)) samples.now }
    ensures own { IfOk result (λ own. All (HasItsSamples samples.now
        (own_lists (length diagram.now.inputs) samples.now own)) diagram.now.tasks) }
    ensures rising { IfOk result (λ own.
        RiseInTime (own_lists (length diagram.now.inputs) samples.now own)) }
{
    let mut own = List::new(alloc);
    if diagram.inputs.len() == 1 {
        return Ok(own);
    }
    if has_guard(diagram.tasks.items()) {
        own = samples_by_input(alloc, diagram.inputs.len(), samples)?;
    }
    Ok(own)
}

// The samples of each input: a single input has all of them, without a copy, and several have these lists.
fn own_lists<'s>(
    diagram: &Diagram,
    samples: &'s List<Sample>,
    lists: &'s List<List<Sample>>,
) -> &'s [List<Sample>]
    ensures { result.now ≡ own_lists (length diagram.now.inputs) samples.now lists.now }
{
    if diagram.inputs.len() == 1 {
        from_ref(samples)
    } else {
        lists.items()
    }
}

// What the lines of the document's trace section give to the inputs and events of its diagram, or their first fault.
fn read_section(
    alloc: Global,
    diagram: &Diagram,
    doc: &Doc,
    text: &[u8],
) -> Result<RowValues, TraceFail>
    requires section { doc.now.body.trace ≡ Some text.now }
    requires printable { IsPrintable doc.now.body }
    requires lines { HasItemLines doc.now }
    requires ranked { IsRanked diagram.now }
    ensures trace { IfOk result
        (λ said. IsTraceOf doc.now diagram.now said.events.items said.samples) }
    ensures fault { IfErr result (λ fail. IsTraceRefusal doc.now diagram.now fail) }
{
    let inputs = diagram.inputs.items();
    let events = diagram.events.items();
    let mut records = Records::new(alloc, text);
    let mut header = ByteRecord::new(alloc);
    if !records.read(&mut header)? {
        return Err(bad_header(doc.lines.trace_at));
    }
    let lines = doc.lines.trace.items();
    if !is_header(inputs, events, &header) {
        return Err(bad_header(lines[0]));
    }
    let rest = &lines[1..];
    let said = row_values(
        alloc,
        diagram.until,
        inputs,
        events,
        &header,
        &mut records,
        rest,
    )?;
    Ok(said)
}

fn bad_header(line: u32) -> TraceFail
    ensures { result ≡ Refused line BadHeader }
{
    TraceFail::from(TraceFault {
        line,
        code: TraceCode::BadHeader,
    })
}

// What the document's trace section gives to the inputs and events of its diagram, if the tasks then occur seldom
// enough; else the first fault. A section that keeps no line is refused before memory is taken.
fn section_trace(
    alloc: Global,
    diagram: &Diagram,
    doc: &Doc,
    text: &[u8],
) -> Result<Trace, TraceFail>
    requires section { doc.now.body.trace ≡ Some text.now }
    requires printable { IsPrintable doc.now.body }
    requires lines { HasItemLines doc.now }
    requires ranked { IsRanked diagram.now }
    ensures trace { IfOk result
        (λ trace. IsTraceOf doc.now diagram.now trace.events.items trace.samples) }
    ensures own { IfOk result (λ trace. All (HasItsSamples trace.samples
        (own_lists (length diagram.now.inputs) trace.samples trace.own)) diagram.now.tasks) }
    ensures rising { IfOk result (λ trace.
        RiseInTime (own_lists (length diagram.now.inputs) trace.samples trace.own)) }
    ensures few { OnOk result (total_of diagram.now (given_samples doc.now diagram.now)
        (events_of doc.now diagram.now) ≤ MAX_OCCURRENCES) }
    ensures fault { IfErr result (λ fail. IsTraceRefusal doc.now diagram.now fail) }
    ensures no_line { text.now ≡ [] → result ≡ Err (Refused doc.now.lines.trace_at BadHeader) }
{
    if text.is_empty() {
        return Err(bad_header(doc.lines.trace_at));
    }
    let said = read_section(alloc, diagram, doc, text)?;
    let own = own_samples(alloc, diagram, &said.samples)?;
    let lists = own_lists(diagram, &said.samples, &own);
    check_occurrences(diagram, doc, &said.events, lists)?;
    Ok(Trace {
        events: said.events,
        samples: said.samples,
        own,
    })
}

// What the document's trace gives to the inputs and events of its diagram, or its first fault.
fn trace_of(alloc: Global, diagram: &Diagram, doc: &Doc) -> Result<Trace, TraceFail>
    requires printable { IsPrintable doc.now.body }
    requires lines { HasItemLines doc.now }
    requires ranked { IsRanked diagram.now }
    ensures trace { IfOk result
        (λ trace. IsTraceOf doc.now diagram.now trace.events.items trace.samples) }
    ensures own { IfOk result (λ trace. All (HasItsSamples trace.samples
        (own_lists (length diagram.now.inputs) trace.samples trace.own)) diagram.now.tasks) }
    ensures rising { IfOk result (λ trace.
        RiseInTime (own_lists (length diagram.now.inputs) trace.samples trace.own)) }
    ensures few { OnOk result (total_of diagram.now (given_samples doc.now diagram.now)
        (events_of doc.now diagram.now) ≤ MAX_OCCURRENCES) }
    ensures fault { IfErr result (λ fail. IsTraceRefusal doc.now diagram.now fail) }
    ensures no_section { doc.now.body.trace ≡ None
        → MAX_OCCURRENCES < total_of diagram.now [] []
        → result ≡ Err (Refused doc.now.lines.until_at TooManyOccurrences) }
    ensures no_line { doc.now.body.trace ≡ Some []
        → result ≡ Err (Refused doc.now.lines.trace_at BadHeader) }
{
    match &doc.body.trace {
        None => empty_trace(alloc, diagram, doc),
        Some(text) => section_trace(alloc, diagram, doc, text.items()),
    }
}

/// The plan of the document, whose diagram this is: with the values of its trace's rows as samples, and with batches in
/// which each task occurs at exactly those base times of its clock at which the input of its `when` isn't 0. A document
/// without a trace section has an empty trace.
///
/// Refused is the first of these that has a fault: the header, with `BadHeader` at its line, or at the line that begins
/// the section if no line is kept; then the rows in order, each with its first fault in the order `TooManyRows`,
/// `BadRow`, `BadCell`, `TimeNotRising`, `TimePastEnd`; at last the line of `until`, with `TooManyOccurrences`, which is
/// found without walking ticks. With an error `diagram` is given up.
pub fn read_trace(alloc: Global, diagram: Diagram, doc: &Doc) -> Result<Plan, TraceFail>
    requires printable { IsPrintable doc.now.body }
    requires lines { HasItemLines doc.now }
    // The diagram came from this document.
    requires checked { IsCheckedOf doc.now diagram }
    requires ranked { IsRanked diagram }
    // The trace has no fault, and this is the plan.
    ensures plan { IfOk result (λ plan. IsPlanOf doc.now diagram plan) }
    // It has this first fault, unless memory ran out.
    ensures fault { IfErr result (λ fail. IsTraceRefusal doc.now diagram fail) }
    // Without a trace section occurrences are counted before memory is taken, so too many are never out of memory.
    ensures no_section { doc.now.body.trace ≡ None
        → MAX_OCCURRENCES < total_of diagram [] []
        → result ≡ Err (Refused doc.now.lines.until_at TooManyOccurrences) }
    // Neither is a section that keeps no line.
    ensures no_line { doc.now.body.trace ≡ Some []
        → result ≡ Err (Refused doc.now.lines.trace_at BadHeader) }
{
    let Trace {
        mut events,
        samples,
        own,
    } = trace_of(alloc, &diagram, doc)?;
    let lists = own_lists(&diagram, &samples, &own);
    let clocks = merge_clocks(alloc, &diagram, &mut events, lists)?;
    let batches = merged(alloc, diagram.until, &events, &clocks)?;
    Ok(Plan {
        diagram,
        samples,
        batches,
    })
}
