// Headers that no document has, and names as a fault shows them.

use csv::ByteRecord;
use dbp_plan::{Input, Name};
use std::alloc::Global;
use std::test::Fail;
use trace_rows::is_header;

fn name(text: &str) -> Result<Name, Fail> {
    match Name::of(text.as_bytes()) {
        Some(name) => Ok(name),
        None => Err(Fail::new("no name")),
    }
}

#[test]
fn a_name_is_shown_by_its_text(rt: HostRuntime) -> Result<(), Fail> {
    let shown = format!(in rt.alloc(); "{:?}", name("sensor_2")?)?;
    assert_eq!(rt; shown.as_str(), "sensor_2");
    Ok(())
}

// The line cut at its commas. Its cells are kept as they are.
fn record(alloc: Global, line: &str) -> Result<ByteRecord, Fail> {
    let mut record = ByteRecord::new(alloc);
    for cell in line.as_bytes().split(|byte| *byte == b',') {
        record.push_field(cell)?;
    }
    Ok(record)
}

// First records that no document has, since spaces around a cell don't count and a blank line isn't kept.
static NO_HEADERS: [&str; 4] = ["", " time", "time ,a", "time, a"];

fn is_header_line(alloc: Global, input: Input, line: &str) -> Result<bool, Fail> {
    let first = record(alloc, line)?;
    Ok(is_header(&[input], &[], &first))
}

#[test]
fn spaces_belong_to_a_name(rt: HostRuntime) -> Result<(), Fail> {
    let input = Input {
        name: name("a")?,
        first: 100,
    };
    for line in &NO_HEADERS {
        assert!(rt; !is_header_line(rt.alloc(), input, *line)?, "{line}");
    }
    assert!(rt; is_header_line(rt.alloc(), input, "time,a")?);
    Ok(())
}
