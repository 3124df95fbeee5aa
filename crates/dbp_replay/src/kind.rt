// The table of the forms of script lines.

ghost use Rattle.std.specs.Prelude.{◌≡◌, [], ◌∷◌, ◌++◌};
ghost use Rattle.dbp_replay.specs.StepForms.{form_of, kind_among, kind_with, kinds_from};

use dbp_core::StepKind;

// What a line has after its word and its task.
#[derive(Clone, Copy, Debug, PartialEq, Eq)]
pub(crate) enum Takes {
    // Nothing.
    Nothing,
    // The number of a slot.
    Slot,
    // The name of a writer, after `pre` or `pre N` if the link is delayed.
    Writer,
    // The name of a read.
    Read,
    // The name of an out.
    Port,
}

// The word that begins a line of the kind.
fn word_of(kind: StepKind) -> &'static [u8]
    ensures { result.now ≡ (form_of kind).0 }
{
    match opening_of(kind) {
        [word @ .., _] => word,
        [] => unreachable!(),
    }
}

// The word that begins a line of the kind, and the space after it.
pub(crate) fn opening_of(kind: StepKind) -> &'static [u8]
    ensures { result.now ≡ (form_of kind).0 ++ 32 ∷ [] }
{
    match kind {
        StepKind::Seen => b"seen ",
        StepKind::Aim => b"aim ",
        StepKind::Claim => b"claim ",
        StepKind::OpenGate => b"open ",
        StepKind::Start => b"start ",
        StepKind::Hear => b"hear ",
        StepKind::Look => b"look ",
        StepKind::Take => b"take ",
        StepKind::Shut => b"shut ",
        StepKind::Put => b"put ",
        StepKind::Done => b"done ",
        StepKind::End => b"end ",
    }
}

// What stands after the task in a line of the kind.
pub(crate) fn takes_of(kind: StepKind) -> Takes
    ensures { result ≡ (form_of kind).1 }
{
    match kind {
        StepKind::Aim => Takes::Slot,
        StepKind::Claim => Takes::Writer,
        StepKind::Look | StepKind::Take => Takes::Read,
        StepKind::Put => Takes::Port,
        _ => Takes::Nothing,
    }
}

// The kinds whose word begins with this byte.
#[tactic(auto, unfolding(crate::specs::StepForms::kinds_from))]
fn kinds_from(first: u8) -> &'static [StepKind]
    ensures { result.now ≡ kinds_from first }
{
    match first {
        b'a' => &[StepKind::Aim],
        b'c' => &[StepKind::Claim],
        b'd' => &[StepKind::Done],
        b'e' => &[StepKind::End],
        b'h' => &[StepKind::Hear],
        b'l' => &[StepKind::Look],
        b'o' => &[StepKind::OpenGate],
        b'p' => &[StepKind::Put],
        b's' => &[StepKind::Seen, StepKind::Start, StepKind::Shut],
        b't' => &[StepKind::Take],
        _ => &[],
    }
}

// The first of the kinds that has the word.
fn kind_among(kinds: &[StepKind], text: &[u8]) -> Option<StepKind>
    ensures { result ≡ kind_among kinds.now text.now }
{
    kinds.iter().find(|kind| word_of(**kind) == text).copied()
}

// The kind of the lines that begin with the word.
#[tactic(auto, using(crate::proofs::StepWords::among_from))]
pub(crate) fn kind_with(text: &[u8]) -> Option<StepKind>
    ensures { result ≡ kind_with text.now }
{
    match text {
        [first, ..] => kind_among(kinds_from(*first), text),
        [] => None,
    }
}
