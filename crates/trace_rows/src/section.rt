// The records of a trace section.

ghost use Rattle.std.specs.Prelude.{◌≡◌, OnOk, map, nat_le};
ghost use Rattle.std.specs.List.{list_any};
ghost use Rattle.csv.specs.Reading.{error_kind};
ghost use Rattle.csv.specs.Records.{fields_of, trimmed};
ghost use Rattle.trace_rows.specs.ReaderErrors.{IsOfMemory};

use csv::{ByteRecord, Error, ErrorKind, Reader, ReaderBuilder};
use dbp_plan::NoMemory;
use std::alloc::Global;

// What an error of the reader of records says, if it doesn't say that a record is no text or of another length: a
// slice can always be read, so memory ran out.
fn out_of_memory(error: &Error) -> NoMemory
    requires { IsOfMemory (error_kind error.now) }
{
    match error.kind() {
        ErrorKind::Io(_) | ErrorKind::OutOfMemory => NoMemory,
        _ => unreachable!(),
    }
}

// Whether one of the bytes is at most a space, as white space is.
fn may_have_space(bytes: &[u8]) -> bool
    ensures { result ≡ list_any (λ b. nat_le b 32) bytes.now }
{
    bytes.iter().any(|byte| *byte <= b' ')
}

// Takes the white space around the cells away. A record without any is left as it is.
fn trim_cells(cells: &mut ByteRecord) -> Result<(), NoMemory>
    ensures { OnOk result (fields_of cells.new ≡ map trimmed (fields_of cells.old)) }
{
    if !may_have_space(cells.as_slice()) {
        return Ok(());
    }
    cells.trim()?;
    Ok(())
}

/// The records of a trace section that haven't been read yet. A line's record is the line, cut at its commas, without
/// spaces and tabs around its cells.
pub struct Records<'t> {
    reader: Reader<&'t [u8]>,
}

// By hand, as the prover then takes one step where it is dropped, and not one for each part.
impl Drop for Records<'_> {
    fn drop(self) {
        let Records { reader: _ } = self;
    }
}

impl<'t> Records<'t> {
    ghost use Rattle.std.specs.Prelude.{◌∷◌, [], IfOk, MatchBool, Ok, Some, true};
    ghost use Rattle.dia_lines.specs.Lines.{SaysInTrace, row};
    ghost use Rattle.dia_read.specs.Printable.{KeepsItself};
    ghost use Rattle.trace_rows.specs.Records.{StandsAtLine, records_left, records_of};

    /// The records of the section's kept lines, none of which is read.
    pub fn new(alloc: Global, text: &'t [u8]) -> Records<'t>
        requires { KeepsItself SaysInTrace row text.now }
        ensures left { records_left result ≡ records_of (Some text.now) }
        ensures stands { StandsAtLine result }
    {
        Records {
            reader: ReaderBuilder::new()
                .has_headers(false)
                .flexible(true)
                .from_reader(alloc, text),
        }
    }

    /// Reads the next record in place of what `record` held. The result is whether there was one. After out of memory
    /// no more is read.
    pub fn read(&mut self, record: &mut ByteRecord) -> Result<bool, NoMemory>
        requires { StandsAtLine self.old }
        ensures left { IfOk result (λ found. MatchBool found
            (records_left self.old ≡ fields_of «record».new ∷ records_left self.new)
            (records_left self.old ≡ [])) }
        ensures stands { result ≡ Ok true → StandsAtLine self.new }
    {
        match self.reader.read_byte_record(record) {
            Ok(true) => {
                trim_cells(record)?;
                Ok(true)
            }
            Ok(false) => Ok(false),
            Err(error) => Err(out_of_memory(&error)),
        }
    }
}
