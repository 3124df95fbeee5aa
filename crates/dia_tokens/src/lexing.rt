// The text of a line's first token.

ghost use Rattle.std.specs.Prelude.{◌≡◌, ◌<◌, ◌≤◌, length};
ghost use Rattle.std.specs.List.{prefix_len};
ghost use Rattle.dia_tokens.specs.Fronts.{front};
ghost use Rattle.dia_tokens.specs.Kinds.{is_name, is_digit, is_blank, is_equals};
ghost use Rattle.dia_tokens.specs.Lexes.{signs};
ghost use Rattle.dia_tokens.specs.Pieces.{seen};
ghost use Rattle.dia_tokens.specs.Reading.{begins, name_in, number_in, front_of, token_at};

use crate::Symbol;
use crate::class::{is_blank_byte, is_digit_byte, is_name_byte};
use crate::kind::{Kind, kind_at};
use crate::piece::Piece;
use crate::reserved::keyword_or_name;

// What stands at the beginning of a line.
#[derive(Clone, Copy)]
pub(crate) enum Front<'a> {
    Nothing,
    Bad,
    Found(Piece<'a>, &'a [u8]),
}

fn name_len(line: &[u8]) -> usize
    ensures value { result ≡ prefix_len is_name line.now }
    ensures within { result ≤ length line.now }
{
    line.iter().take_while(|byte| is_name_byte(**byte)).count()
}

fn digits_len(line: &[u8]) -> usize
    ensures value { result ≡ prefix_len is_digit line.now }
    ensures within { result ≤ length line.now }
{
    line.iter().take_while(|byte| is_digit_byte(**byte)).count()
}

fn blank_len(line: &[u8]) -> usize
    ensures value { result ≡ prefix_len is_blank line.now }
    ensures within { result ≤ length line.now }
{
    line.iter().take_while(|byte| is_blank_byte(**byte)).count()
}

// The name or the keyword at the front.
#[inline(always)]
fn name_token<'a>(line: &'a [u8]) -> Front<'a>
    ensures { front result ≡ name_in line.now }
{
    let len = name_len(line);
    let (text, rest) = line.split_at(len);
    Front::Found(keyword_or_name(text), rest)
}

// The number at the front, after so many bytes of sign.
fn number_token<'a>(sign: usize, line: &'a [u8]) -> Front<'a>
    requires { sign ≤ length line.now }
    ensures { front result ≡ number_in sign line.now }
{
    let len = sign + digits_len(&line[sign..]);
    let (text, rest) = line.split_at(len);
    if begins_name(rest) {
        Front::Bad
    } else {
        Front::Found(Piece::Number(text), rest)
    }
}

fn begins_name(line: &[u8]) -> bool
    ensures { result ≡ begins is_name line.now }
{
    match line {
        [first, ..] => is_name_byte(*first),
        [] => false,
    }
}

fn begins_digit(line: &[u8]) -> bool
    ensures { result ≡ begins is_digit line.now }
{
    match line {
        [first, ..] => is_digit_byte(*first),
        [] => false,
    }
}

fn begins_equals(line: &[u8]) -> bool
    ensures { result ≡ begins is_equals line.now }
{
    match line {
        [first, ..] => *first == b'=',
        [] => false,
    }
}

// The token that begins with a byte of the kind.
#[inline(always)]
fn token_of_kind<'a>(signed: bool, kind: Kind, line: &'a [u8]) -> Front<'a>
    requires { 0 < length line.now }
    ensures { front result ≡ front_of signed kind line.now }
{
    match kind {
        Kind::Hash => Front::Nothing,
        Kind::Letter => name_token(line),
        Kind::Digit => number_token(0, line),
        Kind::Dash => {
            if signed && begins_digit(&line[1..]) {
                number_token(1, line)
            } else {
                Front::Found(Piece::Symbol(Symbol::Minus), &line[1..])
            }
        }
        Kind::Bang => {
            if begins_equals(&line[1..]) {
                Front::Found(Piece::Symbol(Symbol::Unequal), &line[2..])
            } else {
                Front::Bad
            }
        }
        Kind::Pair(short, long) => {
            if begins_equals(&line[1..]) {
                Front::Found(Piece::Symbol(long), &line[2..])
            } else {
                Front::Found(Piece::Symbol(short), &line[1..])
            }
        }
        Kind::Plain(symbol) => Front::Found(Piece::Symbol(symbol), &line[1..]),
        Kind::Blank | Kind::Other => Front::Bad,
    }
}

// The first token, after the blanks.
#[inline(always)]
#[tactic(auto, unfolding(crate::specs::Reading::token_at))]
pub(crate) fn next_token<'a>(signed: bool, line: &'a [u8]) -> Front<'a>
    ensures { front result ≡ token_at signed line.now }
{
    let line = &line[blank_len(line)..];
    match line.first() {
        None => Front::Nothing,
        Some(first) => token_of_kind(signed, kind_at(*first), line),
    }
}

// Whether a `-` before a digit belongs to the number, if this is the token before it.
pub(crate) fn may_sign(last: Piece) -> bool
    ensures { result ≡ signs (seen last.entry) }
{
    !matches!(
        last,
        Piece::Name(_) | Piece::Number(_) | Piece::Symbol(Symbol::Close)
    )
}
