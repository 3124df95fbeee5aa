// The header of a trace section.

ghost use Rattle.std.specs.Prelude.{◌≡◌, ◌+◌, ◌<◌, ◌≤◌, ◌^◌, ◌++◌, false, drop, take, length, map, IfOk};
ghost use Rattle.std.specs.List.{list_any};
ghost use Rattle.std.specs.Option.{option_map_or};
ghost use Rattle.std.specs.Str.{bytes_eq};
ghost use Rattle.csv.specs.Records.{field_at, fields_of};
ghost use Rattle.dbp_plan.specs.NameLists.{is_among, index_of};
ghost use Rattle.trace_rows.specs.Headers.{input_names, is_header, kind_of_column};

use crate::cell::Kind;
use csv::ByteRecord;
use dbp_plan::{Input, Name, NoMemory};
use std::alloc::Global;

// Whether an input has the name.
fn has_input(inputs: &[Input], name: &[u8]) -> bool
    ensures { result ≡ list_any (λ input. bytes_eq input.name name.now) inputs.now }
{
    inputs.iter().any(|input| input.name.bytes() == name)
}

// Whether the name is among these.
fn is_among(names: &[Name], name: &[u8]) -> bool
    ensures { result ≡ is_among names.now name.now }
{
    names.iter().any(|other| other.bytes() == name)
}

// Whether an input or an event has the name.
#[tactic(auto, using(dbp_plan::proofs::NameLaws::among_append, crate::proofs::HeaderColumns::among_inputs))]
fn is_known(inputs: &[Input], events: &[Name], name: &[u8]) -> bool
    ensures { result ≡ is_among (input_names inputs.now ++ events.now) name.now }
{
    has_input(inputs, name) || is_among(events, name)
}

// Whether the record has this cell at the place.
fn is_cell(record: &ByteRecord, place: usize, text: &[u8]) -> bool
    ensures { result ≡ option_map_or
        (λ cell. bytes_eq cell text.now) (field_at (fields_of «record».now) place) false }
{
    match record.get(place) {
        Some(cell) => cell == text,
        None => false,
    }
}

// Whether an earlier column has the name.
fn is_repeated(header: &ByteRecord, place: usize, name: &[u8]) -> bool
    requires { place ≤ length (fields_of header.now) }
    ensures { result ≡ is_among (drop 1 (take place (fields_of header.now))) name.now }
{
    for earlier in 1..place {
        if is_cell(header, earlier, name) {
            return true;
        }
    }
    false
}

/// Whether the record is `time` and then distinct names of these inputs and events.
pub fn is_header(inputs: &[Input], events: &[Name], first: &ByteRecord) -> bool
    ensures { result ≡ is_header inputs.now events.now (fields_of first.now) }
{
    if !is_cell(first, 0, b"time") {
        return false;
    }
    for place in 1..first.len() {
        let Some(name) = first.get(place) else {
            return false;
        };
        if !is_known(inputs, events, name) {
            return false;
        }
        if is_repeated(first, place, name) {
            return false;
        }
    }
    true
}

// What the column with this name holds.
#[tactic(auto, using(crate::proofs::HeaderColumns::among_inputs))]
fn kind_of_column(inputs: &[Input], name: &[u8]) -> Kind
    ensures { result ≡ kind_of_column inputs.now name.now }
{
    if has_input(inputs, name) {
        Kind::Value
    } else {
        Kind::Mark
    }
}

/// What the columns of a header hold.
pub fn kinds(alloc: Global, inputs: &[Input], header: &ByteRecord) -> Result<Vec<Kind>, NoMemory>
    ensures kinds { IfOk result
        (λ kinds. kinds.items ≡ map (kind_of_column inputs.now) (drop 1 (fields_of header.now))) }
    ensures few { IfOk result (λ kinds. length kinds.items + 1 < 2 ^ 64) }
{
    let mut kinds = Vec::new(alloc);
    for place in 1..header.len() {
        if let Some(name) = header.get(place) {
            kinds.push(kind_of_column(inputs, name))?;
        }
    }
    Ok(kinds)
}

// The place of the name among the columns, and how many columns there are if it isn't among them.
pub(crate) fn index_of(header: &ByteRecord, name: &[u8]) -> usize
    ensures { result ≡ index_of (drop 1 (fields_of header.now)) name.now }
{
    for place in 1..header.len() {
        if is_cell(header, place, name) {
            return place - 1;
        }
    }
    header.len().saturating_sub(1)
}
