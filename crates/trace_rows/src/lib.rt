//! The records of a trace section: its header, the first fault of its rows, and what they give to inputs and events.
//!
//! A record is the list of a line's cells (`cells_of`): the first is the header, the others are rows. `Records` reads
//! them one by one, and `records_left` are those still to come. `Headers` says which record is a header and what its
//! columns hold, `Cells` which cells may stand there, and `Values` what the rows give: the times of each event, which
//! are those of the rows with `1` in its column, and the samples, by row and then by declaration. Faults are lists too,
//! a header's and the rows' (`header_faults`, `row_faults`), each row tried after those before it. A section in plain
//! form is read back as what was written; the proof that generated documents are accepted uses it.
#![tactic(auto)]

mod cell;
mod fail;
mod header;
mod laws;
mod rows;
mod section;
mod values;

pub use cell::Kind;
pub use fail::{TraceCode, TraceFail, TraceFault};
pub use header::{is_header, kinds};
pub use laws::written_section_is_read_back;
pub use rows::{MAX_ROWS, RowValues, row_values};
pub use section::Records;
pub use values::no_times;
