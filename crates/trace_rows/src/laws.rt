// A law of trace sections.

ghost use Rattle.std.specs.Prelude.{◌≡◌, ℕ, true, ◌∷◌, List as Items, None, Some, codes, map};
ghost use Rattle.dbp_plan.specs.FirstFault.{first_fault};
ghost use Rattle.dbp_plan.specs.declared.diagram.Input.{Input as AnyInput};
ghost use Rattle.dia_lines.specs.Lines.{SaysInTrace, row};
ghost use Rattle.dia_read.specs.Printable.{KeepsItself};
ghost use Rattle.trace_rows.specs.Headers.{is_header, kind_of_column};
ghost use Rattle.trace_rows.specs.Records.{records_of};
ghost use Rattle.trace_rows.specs.Rows.{row_faults};
ghost use Rattle.trace_rows.specs.Values.{event_times, samples_of};
ghost use Rattle.trace_rows.specs.Written.{CanWrite, WrittenRow, written_cells, written_samples, written_section, written_times};

/// A trace section in its plain form is read back as what was written: its lines are kept, they are a header and rows
/// without a fault, each event has the times of the rows with its mark, and the samples are the values of the rows.
pub fn written_section_is_read_back()
    ensures kept { (until : ℕ) (inputs : Items AnyInput) (events columns : Items (Items ℕ))
        (rows : Items WrittenRow)
        → CanWrite until inputs events columns rows → KeepsItself SaysInTrace row (written_section columns rows) }
    ensures records { (until : ℕ) (inputs : Items AnyInput) (events columns : Items (Items ℕ))
        (rows : Items WrittenRow)
        → CanWrite until inputs events columns rows
        → records_of (Some (written_section columns rows)) ≡ (codes "time" ∷ columns) ∷ map written_cells rows }
    ensures header { (until : ℕ) (inputs : Items AnyInput) (events columns : Items (Items ℕ))
        (rows : Items WrittenRow)
        → CanWrite until inputs events columns rows → is_header inputs events (codes "time" ∷ columns) ≡ true }
    ensures faultless { (until : ℕ) (inputs : Items AnyInput) (events columns : Items (Items ℕ))
        (rows : Items WrittenRow) (lines : Items ℕ)
        → CanWrite until inputs events columns rows
        → first_fault (row_faults until (map (kind_of_column inputs) columns) (map written_cells rows) lines) ≡ None }
    ensures events { (until : ℕ) (inputs : Items AnyInput) (events columns : Items (Items ℕ))
        (rows : Items WrittenRow)
        → CanWrite until inputs events columns rows
        → event_times columns (map written_cells rows) events ≡ map (written_times columns rows) events }
    ensures samples { (until : ℕ) (inputs : Items AnyInput) (events columns : Items (Items ℕ))
        (rows : Items WrittenRow)
        → CanWrite until inputs events columns rows
        → samples_of columns (map written_cells rows) inputs ≡ written_samples columns rows inputs }
{}
