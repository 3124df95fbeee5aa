// Why a text has no plan.

use dia_check::CheckCode;
use dia_read::ReadCode;
use trace_rows::TraceCode;

/// Why a text has no plan.
#[derive(Drop)]
pub enum Code {
    /// It spells no document.
    Reading(ReadCode),
    /// Its document has no diagram with ranks.
    Checking(CheckCode),
    /// Its document's trace has a fault, or its tasks occur too often.
    Tracing(TraceCode),
}
