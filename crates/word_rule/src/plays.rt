// The kinds of atomic steps, and what the seat that makes one learns.

use crate::views::View;
use atomic_table::Play;

// The releaser loads how many instances of a task have ended.
pub(crate) struct SeenPlay;

impl Play<(), View> for SeenPlay {
    ghost use Rattle.word_rule.specs.Plays.{Sees};

    ghost then = { Sees };
}

// The releaser stores a task's aim.
pub(crate) struct AimPlay;

impl Play<(), View> for AimPlay {
    ghost use Rattle.word_rule.specs.Plays.{Aims};

    ghost then = { Aims };
}

// The releaser stores a link's claim.
pub(crate) struct ClaimPlay;

impl Play<(), View> for ClaimPlay {
    ghost use Rattle.word_rule.specs.Plays.{Claims};

    ghost then = { Claims };
}

// The releaser stores a task's gate.
pub(crate) struct OpenPlay;

impl Play<(), View> for OpenPlay {
    ghost use Rattle.word_rule.specs.Plays.{Opens};

    ghost then = { Opens };
}

// A task loads its gate.
pub(crate) struct StartPlay;

impl Play<(), View> for StartPlay {
    ghost use Rattle.word_rule.specs.Plays.{Starts};

    ghost then = { Starts };
}

// A task loads its next order.
pub(crate) struct HearPlay;

impl Play<(), View> for HearPlay {
    ghost use Rattle.word_rule.specs.Plays.{Hears};

    ghost then = { Hears };
}

// A task loads the stamp of the slot that it heard of for its next read.
pub(crate) struct LookPlay;

impl Play<(), View> for LookPlay {
    ghost use Rattle.word_rule.specs.Plays.{Looks};

    ghost then = { Looks };
}

// A task loads the word of its next read.
pub(crate) struct TakePlay;

impl Play<(), View> for TakePlay {
    ghost use Rattle.word_rule.specs.Plays.{Takes};

    ghost then = { Takes };
}

// A task stamps its slot with 0.
pub(crate) struct ShutPlay;

impl Play<(), View> for ShutPlay {
    ghost use Rattle.word_rule.specs.Plays.{Shuts};

    ghost then = { Shuts };
}

// A task stores its next out.
pub(crate) struct PutPlay;

impl Play<(), View> for PutPlay {
    ghost use Rattle.word_rule.specs.Plays.{Puts};

    ghost then = { Puts };
}

// A task stamps its slot with its instance.
pub(crate) struct DonePlay;

impl Play<(), View> for DonePlay {
    ghost use Rattle.word_rule.specs.Plays.{Finishes};

    ghost then = { Finishes };
}

// A task says that its instance has ended.
pub(crate) struct EndPlay;

impl Play<(), View> for EndPlay {
    ghost use Rattle.word_rule.specs.Plays.{Ends};

    ghost then = { Ends };
}
