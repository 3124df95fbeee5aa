// Texts without any line with tokens, and where a text is refused.

ghost use Rattle.std.specs.Prelude.{◌≡◌, true};
ghost use Rattle.dia_read.specs.Documents.{is_blank_text, IsFirstFault};
ghost use Rattle.dia_read.specs.Refusals.{refused_at as refusal_at};
ghost use Rattle.dia_tokens.specs.Blanks.{is_blank_line as is_blank};

use crate::ReadFail;
use dia_lines::{LineError, ReadCode, next_line};
use dia_tokens::all_allowed;

// Whether the line has nothing but spaces, tabs and a comment.
fn is_blank_line(line: &[u8]) -> bool
    ensures { result ≡ is_blank line.now }
{
    let mut rest = line;
    while let [first, after @ ..] = rest {
        match first {
            b'#' => return true,
            b' ' | b'\t' => rest = after,
            _ => return false,
        }
    }
    true
}

// Whether no line of the text has tokens.
pub(crate) fn is_blank_text(bytes: &[u8]) -> bool
    ensures { result ≡ is_blank_text bytes.now }
{
    let mut rest = bytes;
    while !rest.is_empty() {
        let (line, after) = next_line(rest);
        if !is_blank_line(line) {
            return false;
        }
        rest = after;
    }
    true
}

// The fault of a text without any line with tokens. It stands at line 1.
pub(crate) fn blank_fault(bytes: &[u8]) -> ReadCode
    requires { is_blank_text bytes.now ≡ true }
    ensures { IsFirstFault bytes.now 1 result }
{
    if bytes.is_empty() {
        return ReadCode::MissingHeader;
    }
    let (line, _) = next_line(bytes);
    if all_allowed(line) {
        ReadCode::MissingHeader
    } else {
        ReadCode::BadByte
    }
}

// The refusal of a text, of which the line with the number is the first that isn't read.
pub(crate) fn refused_at(number: u32, error: LineError) -> ReadFail
    ensures { result ≡ refusal_at number error }
{
    match error {
        LineError::Refused(code) => ReadFail::Refused { line: number, code },
        LineError::NoMemory => ReadFail::NoMemory,
    }
}
