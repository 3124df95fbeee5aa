// The tokens of a line as they are spelled.

ghost use Rattle.std.specs.Prelude.{◌≡◌, false, List, ◌++◌, Err, IfOk, IfErr, OnOk};
ghost use Rattle.std.specs.List.{list_all};
ghost use Rattle.dia_tokens.specs.declared.line.LineFail.TheVariants.{BadByte};
ghost use Rattle.dia_tokens.specs.declared.token.Token.{Token as Spelled};
ghost use Rattle.dia_tokens.specs.Kinds.{is_allowed};
ghost use Rattle.dia_tokens.specs.Line.{Spells, Refuses};
ghost use Rattle.dia_tokens.specs.Pieces.{seen};
ghost use Rattle.dia_tokens.specs.Spelling.{text_of, spaced, IsSpelling};

use crate::LineFail;
use crate::lexing::{Front, may_sign, next_token};
use crate::line::all_allowed;
use crate::piece::Piece;
use crate::values::{fault_of, first_fault};
use dbp_plan::NoMemory;
use smallvec::SmallVec;
use std::alloc::Global;
use std::marker::Model;

/// The tokens of a line as they are spelled, joined by one space. A contract sees the text.
#[derive(Drop)]
pub struct Spelling {
    text: SmallVec<u8, NEAR>,
}

// Bytes that a text has room for in place. The lines of most scripts are shorter.
const NEAR: usize = 64;

impl Model for Spelling {
    ghost use Rattle.std.specs.Prelude.{ℕ, List};

    ghost Value = { List ℕ };

    ghost view = { λ s. s.text.items };
}

impl Spelling {
    /// The bytes of the text.
    pub fn bytes(&self) -> &[u8]
        ensures { result.now ≡ self.now }
    {
        self.text.as_slice()
    }
}

fn text_of<'a>(piece: Piece<'a>) -> &'a [u8]
    ensures { result.now ≡ text_of (seen piece.entry) }
{
    match piece {
        Piece::Keyword(keyword) => keyword.text(),
        Piece::Name(text) => text,
        Piece::Number(text) => text,
        Piece::Symbol(symbol) => symbol.text(),
    }
}

// Adds the token's text, after a space unless it is the first.
fn push_piece(first: bool, out: &mut SmallVec<u8, NEAR>, piece: Piece) -> Result<(), NoMemory>
    ensures { OnOk result (out.new.items ≡ out.old.items ++ spaced first (seen piece.entry)) }
{
    if !first {
        out.push(b' ')?;
    }
    out.extend_from_slice(text_of(piece))?;
    Ok(())
}

/// The line's tokens as they are spelled, or the line's first fault. The line is gone over twice: for bytes that aren't allowed,
/// and for its tokens.
pub fn line_spelling(alloc: Global, line: &[u8]) -> Result<Spelling, LineFail>
    // The line spells tokens, and the text is their spelling.
    ensures found { IfOk result (λ text. (ts : List Spelled)
        × Spells line.now ts × IsSpelling line.now text) }
    // A refusal says the line's first fault, unless memory ran out.
    ensures fault { IfErr result (λ e. Refuses line.now e) }
    // A line with a byte that isn't allowed is refused before any memory is taken.
    ensures bad_byte { list_all is_allowed line.now ≡ false → result ≡ Err BadByte }
{
    if !all_allowed(line) {
        return Err(LineFail::BadByte);
    }
    let mut text = SmallVec::with_capacity(alloc, line.len())?;
    let mut fault = None;
    let mut first = true;
    let mut signed = true;
    let mut rest = line;
    loop {
        match next_token(signed, rest) {
            Front::Nothing => {
                return match fault {
                    Some(fail) => Err(LineFail::from(fail)),
                    None => Ok(Spelling { text }),
                };
            }
            Front::Bad => return Err(LineFail::BadToken),
            Front::Found(piece, after) => {
                if let Some(fail) = fault_of(piece) {
                    fault = Some(first_fault(fault, fail));
                }
                push_piece(first, &mut text, piece)?;
                first = false;
                signed = may_sign(piece);
                rest = after;
            }
        }
    }
}
