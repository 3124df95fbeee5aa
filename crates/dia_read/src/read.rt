// Reading a text, line by line.

ghost use Rattle.std.specs.Prelude.{◌≡◌, ℕ, ◌≤◌, true, false, length, Err, IfOk, IfErr};
ghost use Rattle.dbp_plan.specs.declared.limits.TheConstants.{MAX_TEXT};
ghost use Rattle.dia_lines.specs.declared.fault.ReadCode.{ReadCode as Code};
ghost use Rattle.dia_read.specs.declared.document.Doc.{Doc as Document};
ghost use Rattle.dia_read.specs.declared.fault.ReadFail.TheVariants.{Refused};
ghost use Rattle.dia_read.specs.declared.document.Body.{Body as BodyRead};
ghost use Rattle.dia_read.specs.Answers.{Refuses, Gives, HasBody, IsRefused};
ghost use Rattle.dia_read.specs.Canonical.{canonical_text};
ghost use Rattle.dia_read.specs.Documents.{is_blank_text, Spells, IsFirstFault};
ghost use Rattle.dia_read.specs.Printable.{IsPrintable, HasItemLines};

use crate::draft::Draft;
use crate::refusal::{blank_fault, is_blank_text, refused_at};
use crate::{Doc, ReadCode, ReadFail};
use dia_lines::{Position, next_line, read_line_with};
use std::alloc::Global;

// The document that a text with tokens spells, or its first fault.
fn read_lines(alloc: Global, bytes: &[u8]) -> Result<Doc, ReadFail>
    requires fits { length bytes.now ≤ MAX_TEXT }
    requires full { is_blank_text bytes.now ≡ false }
    ensures found { IfOk result (λ doc. Spells bytes.now doc) }
    ensures printable { IfOk result (λ doc. IsPrintable doc.body) }
    ensures lines { IfOk result (λ doc. HasItemLines doc) }
    ensures fault { IfErr result (λ e. Refuses bytes.now e) }
{
    let mut draft = Draft::new(alloc);
    let mut tokens = Vec::new(alloc);
    let mut position = Position::start();
    let mut number = 0;
    let mut rest = bytes;
    while !rest.is_empty() {
        let (line, after) = next_line(rest);
        number += 1;
        match read_line_with(alloc, &mut position, line, &mut tokens) {
            Ok(item) => draft.add(alloc, number, line, item)?,
            Err(error) => return Err(refused_at(number, error)),
        }
        rest = after;
    }
    if position.is_ended() {
        Ok(draft.finish()?)
    } else {
        Err(ReadFail::Refused {
            line: number + 1,
            code: ReadCode::MissingDone,
        })
    }
}

// The document that the text spells, or its first fault.
fn read_text(alloc: Global, bytes: &[u8]) -> Result<Doc, ReadFail>
    requires { length bytes.now ≤ MAX_TEXT }
    ensures found { IfOk result (λ doc. Spells bytes.now doc) }
    ensures printable { IfOk result (λ doc. IsPrintable doc.body) }
    ensures lines { IfOk result (λ doc. HasItemLines doc) }
    ensures fault { IfErr result (λ e. Refuses bytes.now e) }
    ensures blank { (line : ℕ) (code : Code) → is_blank_text bytes.now ≡ true
        → IsFirstFault bytes.now line code → result ≡ Err (Refused line code) }
{
    if is_blank_text(bytes) {
        Err(ReadFail::Refused {
            line: 1,
            code: blank_fault(bytes),
        })
    } else {
        read_lines(alloc, bytes)
    }
}

/// The document that a text spells, or the text's first fault. docs/LANGUAGE.md says which texts spell documents, and
/// in which order faults are tried.
pub fn read_doc(alloc: Global, bytes: &[u8]) -> Result<Doc, ReadFail>
    requires { length bytes.now ≤ MAX_TEXT }
    // The text spells the document.
    ensures found { IfOk result (λ doc. Spells bytes.now doc) }
    // A document that the text spells is given, unless memory runs out.
    ensures only { (doc : Document) → Spells bytes.now doc → Gives doc result }
    // The document can be printed, and has a line of each item.
    ensures printable { IfOk result (λ doc. IsPrintable doc.body) }
    ensures lines { IfOk result (λ doc. HasItemLines doc) }
    // The canonical text of a body that can be printed is read as a document with this body, unless memory runs out.
    ensures again { (body : BodyRead) → IsPrintable body → bytes.now ≡ canonical_text body
        → HasBody body result }
    // A refusal says the text's first fault, unless memory ran out.
    ensures fault { IfErr result (λ e. Refuses bytes.now e) }
    // A text without any line with tokens is refused with its fault, whatever memory there is.
    ensures blank { (line : ℕ) (code : Code) → is_blank_text bytes.now ≡ true
        → IsFirstFault bytes.now line code → result ≡ Err (Refused line code) }
    // A text with a first fault is refused with it, unless memory runs out.
    ensures refused { (line : ℕ) (code : Code) → IsFirstFault bytes.now line code
        → IsRefused (Refused line code) result }
{
    read_text(alloc, bytes)
}
