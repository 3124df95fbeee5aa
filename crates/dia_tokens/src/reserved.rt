// The keywords.

ghost use Rattle.std.specs.Prelude.{◌≡◌};
ghost use Rattle.dia_tokens.specs.Pieces.{seen};
ghost use Rattle.std.specs.Str.{bytes_eq};
ghost use Rattle.dia_tokens.specs.Keywords.{keyword_among, keyword_of, keyword_text, keywords_from};

use crate::Keyword;
use crate::piece::Piece;

// The keywords that begin with this byte.
#[tactic(auto, unfolding(crate::specs::Keywords::keywords_from))]
fn keywords_from(first: u8) -> &'static [Keyword]
    ensures { result.now ≡ keywords_from first }
{
    match first {
        b'a' => &[Keyword::At, Keyword::And],
        b'c' => &[Keyword::Cost, Keyword::Cpu],
        b'd' => &[Keyword::Dbp, Keyword::Deadline, Keyword::Done],
        b'e' => &[Keyword::Edf, Keyword::Event, Keyword::Every, Keyword::Else],
        b'f' => &[Keyword::Fp, Keyword::From],
        b'i' => &[Keyword::Input, Keyword::If],
        b'l' => &[Keyword::Let],
        b'm' => &[Keyword::Min, Keyword::Max],
        b'n' => &[Keyword::Next, Keyword::Not],
        b'o' => &[Keyword::On, Keyword::Out, Keyword::Or],
        b'p' => &[Keyword::Policy, Keyword::Prio, Keyword::Pre],
        b'r' => &[Keyword::Read],
        b's' => &[Keyword::State, Keyword::Sense, Keyword::Script],
        b't' => &[Keyword::Task, Keyword::Then, Keyword::Trace],
        b'u' => &[Keyword::Until],
        b'w' => &[Keyword::When],
        _ => &[],
    }
}

// Whether the keyword is the text. Lengths mostly say that it isn't.
fn is_text(keyword: Keyword, text: &[u8]) -> bool
    ensures { result ≡ bytes_eq (keyword_text keyword) text.now }
{
    let own = keyword.text();
    own.len() == text.len() && own == text
}

// The first of the keywords that the text is.
fn keyword_among(keywords: &[Keyword], text: &[u8]) -> Option<Keyword>
    ensures { result ≡ keyword_among keywords.now text.now }
{
    keywords
        .iter()
        .find(|keyword| is_text(**keyword, text))
        .copied()
}

// A keyword, or else a name. Keywords have 2 to 8 bytes.
#[inline(always)]
#[tactic(auto, using(crate::proofs::KeywordLaws::among_from, crate::proofs::KeywordLaws::no_keyword), unfolding(crate::specs::Keywords::keyword_of))]
pub(crate) fn keyword_or_name<'a>(text: &'a [u8]) -> Piece<'a>
    ensures { seen result ≡ keyword_of text.now }
{
    let [first, ..] = text else {
        return Piece::Name(text);
    };
    if text.len() < 2 || 8 < text.len() {
        return Piece::Name(text);
    }
    match keyword_among(keywords_from(*first), text) {
        Some(keyword) => Piece::Keyword(keyword),
        None => Piece::Name(text),
    }
}
