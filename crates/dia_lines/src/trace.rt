// A line of the trace section.

ghost use Rattle.std.specs.Prelude.{◌≡◌, ◌≤◌, false, length, IfOk, IfErr};
ghost use Rattle.std.specs.List.{list_all, prefix_len, suffix_len};
ghost use Rattle.dia_lines.specs.declared.fault.ReadCode.TheVariants.{BadByte};
ghost use Rattle.dia_lines.specs.Sections.{is_space, is_trace_byte};
ghost use Rattle.dia_lines.specs.Trimmed.{after_spaces, before_spaces, trimmed};
ghost use Rattle.dia_lines.specs.Lines.{Content, SaysInTrace};
ghost use Rattle.dia_lines.specs.Held.{IsHeld};
ghost use Rattle.dia_lines.specs.Moves.{kept_in_trace};

use crate::ReadCode;

// What a line of the trace section is.
#[derive(Clone, Copy)]
pub(crate) enum TraceLine {
    Blank,
    // A row, which is kept as it is.
    Row,
    // The script section begins.
    Script,
    Done,
}

fn is_space_byte(byte: u8) -> bool
    ensures { result ≡ is_space byte }
{
    matches!(byte, b' ' | b'\t')
}

const ALLOWED: u8 = 1;

// For each byte a digit, whose low bit says whether the byte may stand in the trace section.
static TRACE_BYTES: [u8; 256] = *b"\
    00000000010000000000000000000000\
    10000000000011001111111111000000\
    01111111111111111111111111100001\
    01111111111111111111111111100000\
    00000000000000000000000000000000\
    00000000000000000000000000000000\
    00000000000000000000000000000000\
    00000000000000000000000000000000";

fn is_allowed_byte(byte: u8) -> bool
    ensures { result ≡ is_trace_byte byte }
{
    TRACE_BYTES[byte as usize] & ALLOWED != 0
}

fn all_allowed(line: &[u8]) -> bool
    ensures { result ≡ list_all is_trace_byte line.now }
{
    line.iter().all(|byte| is_allowed_byte(*byte))
}

fn spaces_before(line: &[u8]) -> usize
    ensures value { result ≡ prefix_len is_space line.now }
    ensures within { result ≤ length line.now }
{
    line.iter().take_while(|byte| is_space_byte(**byte)).count()
}

fn spaces_after(line: &[u8]) -> usize
    ensures value { result ≡ suffix_len is_space line.now }
    ensures within { result ≤ length line.now }
{
    line.iter()
        .rev()
        .take_while(|byte| is_space_byte(**byte))
        .count()
}

fn trim_start(line: &[u8]) -> &[u8]
    ensures { result.now ≡ after_spaces line.now }
{
    let len = spaces_before(line);
    &line[len..]
}

fn trim_end(text: &[u8]) -> &[u8]
    ensures { result.now ≡ before_spaces text.now }
{
    let len = text.len() - spaces_after(text);
    &text[..len]
}

#[tactic(auto, unfolding(crate::specs::Trimmed::trimmed))]
fn trim(line: &[u8]) -> &[u8]
    ensures { result.now ≡ trimmed line.now }
{
    trim_end(trim_start(line))
}

// What a line of the trace section says, or its fault.
pub(crate) fn trace_line(line: &[u8]) -> Result<TraceLine, ReadCode>
    ensures found { IfOk result (λ l. (said : Content) × SaysInTrace line.now said
        × IsHeld said (kept_in_trace l)) }
    ensures fault { IfErr result (λ e. (e ≡ BadByte) × (list_all is_trace_byte line.now ≡ false)) }
{
    if !all_allowed(line) {
        return Err(ReadCode::BadByte);
    }
    let text = trim(line);
    if text.is_empty() {
        Ok(TraceLine::Blank)
    } else if text == b"done".as_slice() {
        Ok(TraceLine::Done)
    } else if text == b"script".as_slice() {
        Ok(TraceLine::Script)
    } else {
        Ok(TraceLine::Row)
    }
}
