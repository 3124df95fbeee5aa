// What a line says after those before it, or its first fault.

ghost use Rattle.std.specs.Prelude.{◌≡◌, ◌≢◌, false, ◌∷◌, List, Err, IfOk, IfErr, OnOk, OnErr};
ghost use Rattle.std.specs.List.{list_all};
ghost use Rattle.dia_tokens.specs.Kinds.{is_allowed};
ghost use Rattle.dia_tokens.specs.Line.{Spells as SpellsTokens, HasBadStart};
ghost use Rattle.dia_lines.specs.Answers.{Refuses, RefusesText, RefusesInDiagram, IsNextLine, RefusesAfter};
ghost use Rattle.dia_lines.specs.Held.{IsHeld, IsKept};
ghost use Rattle.dia_lines.specs.Lines.{Content, SaysStatement, SaysInScript, Reads, statements};
ghost use Rattle.dia_lines.specs.Moves.{kept_in_trace, place_after_line, version_after_line};
ghost use Rattle.dia_lines.specs.Positions.{AreCounts, IsAfter};
ghost use Rattle.dia_lines.specs.Statements.{Statement};
ghost use Rattle.dia_lines.specs.declared.fault.LineError.TheVariants.{Refused, NoMemory as OutOfMemory};
ghost use Rattle.dia_lines.specs.declared.fault.ReadCode.TheVariants.{BadByte, BadToken};
ghost use Rattle.dia_lines.specs.declared.place.Place.TheVariants.{Script, Trace};

use crate::statement::statement;
use crate::token_checks::token_code;
use crate::trace::{TraceLine, trace_line};
use crate::{Counts, Line, LineError, Place, Position};
use dia_tokens::{Keyword, Token, line_spelling, tokens_into};
use std::alloc::Global;

// The tokens of a line, which take the place of the list's, or its first fault.
fn line_tokens(line: &[u8], out: &mut Vec<Token>) -> Result<(), LineError>
    ensures found { OnOk result (SpellsTokens line.now out.new.items) }
    ensures fault { IfErr result (λ e. RefusesText line.now e) }
    ensures bad_byte { list_all is_allowed line.now ≡ false → result ≡ Err (Refused BadByte) }
    ensures bad_token { HasBadStart line.now → result ≡ Err (Refused BadToken) }
{
    Ok(tokens_into(line, out)?)
}

// A line of the diagram, and the counts after it.
fn diagram_line(
    alloc: Global,
    position: Position,
    line: &[u8],
    tokens: &mut Vec<Token>,
) -> Result<(Line, Counts), LineError>
    ensures found { (before : List Content) → IsAfter before position
        → IfOk result (λ r. (s : Statement) × SaysStatement before line.now s × IsKept s r.0
        × AreCounts (s ∷ statements before) r.1) }
    ensures fault { (before : List Content) → IsAfter before position
        → IfErr result (λ e. RefusesInDiagram before line.now e) }
    ensures bad_byte { list_all is_allowed line.now ≡ false → result ≡ Err (Refused BadByte) }
    ensures bad_token { HasBadStart line.now → result ≡ Err (Refused BadToken) }
{
    line_tokens(line, tokens)?;
    let line = match token_code(position.place, tokens) {
        Some(code) => return Err(LineError::from(code)),
        None => statement(alloc, position.version, position.place, tokens)?,
    };
    match position.counts.with_line(&line) {
        Ok(counts) => Ok((line, counts)),
        Err(limit) => Err(LineError::from(limit)),
    }
}

// A line of the script section.
fn script_line(alloc: Global, line: &[u8]) -> Result<Line, LineError>
    ensures found { IfOk result (λ l. (said : Content) × SaysInScript line.now said × IsHeld said l) }
    ensures fault { IfErr result (λ e. RefusesText line.now e) }
    ensures bad_byte { list_all is_allowed line.now ≡ false → result ≡ Err (Refused BadByte) }
{
    let text = line_spelling(alloc, line)?;
    if text.bytes().is_empty() {
        Ok(Line::Nothing)
    } else if text.bytes() == Keyword::Done.text() {
        Ok(Line::Done)
    } else {
        Ok(Line::Step(text))
    }
}

// The place after a line that may stand at the place.
fn place_after(place: Place, line: &Line) -> Place
    ensures { result ≡ place_after_line place line.now }
{
    match line {
        Line::Header(_) => Place::Policy,
        Line::Policy(_) => Place::Until,
        Line::Until(_) | Line::Decl(_) => Place::Declarations,
        Line::Task(_) | Line::Part(_) => Place::Body,
        Line::Trace => Place::Trace,
        Line::Script => Place::Script,
        Line::Done => Place::Ended,
        Line::Nothing | Line::Row | Line::Step(_) => place,
    }
}

// The version after a line that may stand after lines of the version.
fn version_after(version: u32, line: &Line) -> u32
    ensures { result ≡ version_after_line version line.now }
{
    match line {
        Line::Header(named) => *named,
        _ => version,
    }
}

// What is kept of a line of the trace section. The position goes on behind it.
fn past_trace_line(position: &mut Position, line: TraceLine) -> Line
    ensures kept { result ≡ kept_in_trace line }
    ensures next { position.new
        ≡ record position.old { place = place_after_line position.old.place (kept_in_trace line) } }
{
    match line {
        TraceLine::Blank => Line::Nothing,
        TraceLine::Row => Line::Row,
        TraceLine::Script => {
            position.place = Place::Script;
            Line::Script
        }
        TraceLine::Done => {
            position.place = Place::Ended;
            Line::Done
        }
    }
}

// What the line says after those before it, which aren't in the trace section, and the counts after it.
fn counted_line(
    alloc: Global,
    position: Position,
    line: &[u8],
    tokens: &mut Vec<Token>,
) -> Result<(Line, Counts), LineError>
    requires { position.place ≢ Trace }
    ensures found { (before : List Content) → IsAfter before position
        → IfOk result (λ r. (said : Content) × Reads before line.now said × IsHeld said r.0
        × AreCounts (statements (said ∷ before)) r.1) }
    ensures fault { (before : List Content) → IsAfter before position
        → IfErr result (λ e. Refuses before line.now e) }
    ensures bad_byte { list_all is_allowed line.now ≡ false → result ≡ Err (Refused BadByte) }
    ensures bad_token { position.place ≢ Script → HasBadStart line.now
        → result ≡ Err (Refused BadToken) }
{
    match position.place {
        Place::Script => Ok((script_line(alloc, line)?, position.counts)),
        _ => diagram_line(alloc, position, line, tokens),
    }
}

// What a line that isn't in the trace section says after those before it. The position goes on behind it.
fn line_outside_trace(
    alloc: Global,
    position: &mut Position,
    line: &[u8],
    tokens: &mut Vec<Token>,
) -> Result<Line, LineError>
    requires { position.old.place ≢ Trace }
    ensures found { IfOk result (λ l. IsNextLine position.old line.now l position.new) }
    ensures fault { IfErr result (λ e. RefusesAfter position.old line.now e) }
    ensures same { OnErr result (position.new ≡ position.old) }
    ensures bad_byte { list_all is_allowed line.now ≡ false → result ≡ Err (Refused BadByte) }
    ensures bad_token { position.old.place ≢ Script → HasBadStart line.now
        → result ≡ Err (Refused BadToken) }
{
    let (line, counts) = counted_line(alloc, *position, line, tokens)?;
    let version = version_after(position.version, &line);
    let place = place_after(position.place, &line);
    *position = Position {
        version,
        place,
        counts,
    };
    Ok(line)
}

/// What the line says after those before it, and the position after it; or its first fault.
pub fn read_line(
    alloc: Global,
    position: Position,
    line: &[u8],
) -> Result<(Line, Position), LineError>
    // As for `read_line_with`.
    ensures found { IfOk result (λ r. IsNextLine position line.now r.0 r.1) }
    ensures fault { IfErr result (λ e. RefusesAfter position line.now e) }
    ensures memory { position.place ≡ Trace → IfErr result (λ e. e ≢ OutOfMemory) }
    ensures bad_byte { list_all is_allowed line.now ≡ false → result ≡ Err (Refused BadByte) }
    ensures bad_token { position.place ≢ Trace → position.place ≢ Script → HasBadStart line.now
        → result ≡ Err (Refused BadToken) }
{
    let mut next = position;
    let line = read_line_with(alloc, &mut next, line, &mut Vec::new(alloc))?;
    Ok((line, next))
}

/// As `read_line`, for a caller who reads many lines: the position goes on behind the line, and the list's room is used
/// again for the line's tokens, which take the place of what it holds. What the list holds afterwards no clause says.
pub fn read_line_with(
    alloc: Global,
    position: &mut Position,
    line: &[u8],
    tokens: &mut Vec<Token>,
) -> Result<Line, LineError>
    // The line says what is held of it.
    ensures found { IfOk result (λ l. IsNextLine position.old line.now l position.new) }
    // A refusal says the line's first fault, unless memory ran out.
    ensures fault { IfErr result (λ e. RefusesAfter position.old line.now e) }
    // After a refusal the position is as it was.
    ensures same { OnErr result (position.new ≡ position.old) }
    // A line of the trace section takes no memory.
    ensures memory { position.old.place ≡ Trace → IfErr result (λ e. e ≢ OutOfMemory) }
    // A line with a byte that no section allows is refused before any memory is taken.
    ensures bad_byte { list_all is_allowed line.now ≡ false → result ≡ Err (Refused BadByte) }
    // So is a line of the diagram that begins with a text that makes no token.
    ensures bad_token { position.old.place ≢ Trace → position.old.place ≢ Script
        → HasBadStart line.now → result ≡ Err (Refused BadToken) }
{
    match position.place {
        Place::Trace => Ok(past_trace_line(position, trace_line(line)?)),
        _ => line_outside_trace(alloc, position, line, tokens),
    }
}
