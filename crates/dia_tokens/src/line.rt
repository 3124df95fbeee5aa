// The tokens of a line, and its first fault.

ghost use Rattle.std.specs.Prelude.{◌≡◌, ◌⊎◌, false, List, [], ◌∷◌, ◌++◌, Err, IfOk, IfErr, OnOk, MatchResult};
ghost use Rattle.std.specs.List.{list_all};
ghost use Rattle.dia_tokens.specs.Kinds.{is_allowed};
ghost use Rattle.dia_tokens.specs.Line.{Spells, HasBadStart, HasFault, Refuses};
ghost use Rattle.dia_tokens.specs.declared.line.LineFail.{LineFail as Fault};
ghost use Rattle.dia_tokens.specs.declared.line.LineFail.TheVariants.{BadByte, BadToken, NoMemory as OutOfMemory};
ghost use Rattle.dia_tokens.specs.declared.token.Token.{Token as Spelled};

use crate::Token;
use crate::lexing::{Front, may_sign, next_token};
use crate::values::{first_fault, token_of};
use dbp_plan::NoMemory;
use std::alloc::{AllocError, AllocFailed, Global};

/// Why a line has no tokens. If it has several faults, the first of these that it has.
#[derive(Clone, Copy, Debug, PartialEq, Eq)]
pub enum LineFail {
    /// A byte that is neither printed ASCII, a space nor a tab.
    BadByte,
    /// A text that makes no token.
    BadToken,
    /// A number outside of 64 bits.
    NumberTooWide,
    /// A name of more than 24 bytes.
    NameTooLong,
    /// Memory ran out. That may be at any time.
    NoMemory,
}

impl From<AllocError> for LineFail {
    ghost from_gives = { λ _ e. e ≡ OutOfMemory };

    fn from(_e: AllocError) -> LineFail {
        LineFail::NoMemory
    }
}

impl<T: Drop> From<AllocFailed<T>> for LineFail {
    ghost from_gives = { λ _ e. e ≡ OutOfMemory };

    fn from(_e: AllocFailed<T>) -> LineFail {
        LineFail::NoMemory
    }
}

impl From<NoMemory> for LineFail {
    ghost from_gives = { λ _ e. e ≡ OutOfMemory };

    fn from(_: NoMemory) -> LineFail {
        LineFail::NoMemory
    }
}

fn is_allowed_byte(byte: u8) -> bool
    ensures { result ≡ is_allowed byte }
{
    matches!(byte, b' '..=b'~' | b'\t')
}

/// Whether a line may have each of these bytes.
pub fn all_allowed(line: &[u8]) -> bool
    ensures { result ≡ list_all is_allowed line.now }
{
    // All are looked at, since a search for the first one that isn't allowed would go byte by byte.
    line.iter()
        .fold(true, |allowed, byte| allowed & is_allowed_byte(*byte))
}

// Adds a token. The first one brings room for a line of this length with names of a usual length.
fn push_token(out: &mut Vec<Token>, token: Token, len: usize) -> Result<(), NoMemory>
    ensures { OnOk result (out.new.items ≡ out.old.items ++ token ∷ []) }
{
    if out.is_empty() {
        out.reserve(4 + len / 6)?;
    }
    out.push(token)?;
    Ok(())
}

// Reads a line: its tokens, which take the place of the list's, or its first fault.
fn read(line: &[u8], out: &mut Vec<Token>) -> Result<(), LineFail>
    ensures found { OnOk result (Spells line.now out.new.items) }
    ensures fault { IfErr result (λ e. Refuses line.now e) }
    ensures bad_byte { list_all is_allowed line.now ≡ false → result ≡ Err BadByte }
    ensures bad_token { HasBadStart line.now → result ≡ Err BadToken }
{
    out.clear();
    if !all_allowed(line) {
        return Err(LineFail::BadByte);
    }
    let mut fault = None;
    let mut signed = true;
    let mut rest = line;
    loop {
        match next_token(signed, rest) {
            Front::Nothing => {
                return match fault {
                    Some(fail) => Err(LineFail::from(fail)),
                    None => Ok(()),
                };
            }
            Front::Bad => return Err(LineFail::BadToken),
            Front::Found(piece, after) => {
                match token_of(piece) {
                    Ok(token) => push_token(out, token, line.len())?,
                    Err(fail) => fault = Some(first_fault(fault, fail)),
                }
                signed = may_sign(piece);
                rest = after;
            }
        }
    }
}

/// The tokens of a line, which take the place of those in the list, or the line's first fault. For a caller who reads
/// many lines: the list's room is used again.
pub fn tokens_into(line: &[u8], out: &mut Vec<Token>) -> Result<(), LineFail>
    // The line spells the tokens.
    ensures found { OnOk result (Spells line.now out.new.items) }
    // Tokens that the line spells are given, unless memory runs out.
    ensures only { (ts : List Spelled) → Spells line.now ts
        → MatchResult result (λ _. out.new.items ≡ ts) (λ e. e ≡ OutOfMemory) }
    // After a refusal the list is empty.
    ensures empty { IfErr result (λ _. out.new.items ≡ []) }
    // A refusal says the line's first fault, unless memory ran out.
    ensures fault { IfErr result (λ e. Refuses line.now e) }
    // A line with a byte that isn't allowed is refused before any memory is taken.
    ensures bad_byte { list_all is_allowed line.now ≡ false → result ≡ Err BadByte }
    // So is a line that begins with a text that makes no token.
    ensures bad_token { HasBadStart line.now → result ≡ Err BadToken }
    // A line with a first fault is refused with it, unless memory runs out.
    ensures refused { (f : Fault) → HasFault line.now f
        → MatchResult result (λ _. ⊥) (λ e. (e ≡ OutOfMemory) ⊎ (e ≡ f)) }
{
    match read(line, out) {
        Ok(()) => Ok(()),
        Err(fail) => {
            out.clear();
            Err(fail)
        }
    }
}

/// The tokens of a line, or its first fault.
pub fn tokens(alloc: Global, line: &[u8]) -> Result<Vec<Token>, LineFail>
    // The line spells the tokens.
    ensures found { IfOk result (λ ts. Spells line.now ts.items) }
    // Tokens that the line spells are given, unless memory runs out.
    ensures only { (ts : List Spelled) → Spells line.now ts
        → MatchResult result (λ v. v.items ≡ ts) (λ e. e ≡ OutOfMemory) }
    // A refusal says the line's first fault, unless memory ran out.
    ensures fault { IfErr result (λ e. Refuses line.now e) }
    // A line with a byte that isn't allowed is refused before any memory is taken.
    ensures bad_byte { list_all is_allowed line.now ≡ false → result ≡ Err BadByte }
    // So is a line that begins with a text that makes no token.
    ensures bad_token { HasBadStart line.now → result ≡ Err BadToken }
    // A line with a first fault is refused with it, unless memory runs out.
    ensures refused { (f : Fault) → HasFault line.now f
        → MatchResult result (λ _. ⊥) (λ e. (e ≡ OutOfMemory) ⊎ (e ≡ f)) }
{
    let mut out = Vec::new(alloc);
    tokens_into(line, &mut out)?;
    Ok(out)
}
