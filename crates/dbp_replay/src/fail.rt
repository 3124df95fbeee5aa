// Why a document has no script, and why steps can't be replayed.

ghost use Rattle.std.specs.Prelude.{◌≡◌};
ghost use Rattle.dbp_replay.specs.declared.fail.ReplayFail.TheVariants as replay_fail;
ghost use Rattle.dbp_replay.specs.declared.fail.ScriptFail.TheVariants as script_fail;

use dbp_core::Illegal;
use dbp_plan::NoMemory;
use std::alloc::AllocError;
use std::fmt;

/// What is wrong with a document's script, in the order of their numbers, from 27 on.
#[derive(Clone, Copy, Debug, PartialEq, Eq)]
pub enum ScriptCode {
    /// The line has no form of a step.
    BadStep,
    /// The line names a task, a link, a read or an out that isn't there.
    StepName,
    /// The document has no script section.
    NoScript,
}

impl ScriptCode {
    ghost use Rattle.dbp_replay.specs.Codes.{script_name, script_number};

    /// The number of the code.
    pub fn number(self) -> u32
        ensures { result ≡ script_number self }
    {
        match self {
            ScriptCode::BadStep => 27,
            ScriptCode::StepName => 28,
            ScriptCode::NoScript => 29,
        }
    }

    /// The name of the code.
    pub fn name(self) -> &'static str
        ensures { result.now ≡ script_name self }
    {
        match self {
            ScriptCode::BadStep => "BadStep",
            ScriptCode::StepName => "StepName",
            ScriptCode::NoScript => "NoScript",
        }
    }
}

/// The number and the name of the code.
impl fmt::Display for ScriptCode {
    ghost use Rattle.std.specs.Prelude.{Some};
    ghost use Rattle.dbp_replay.specs.Codes.{code_text};

    ghost output = { λ code. Some (code_text code) };

    fn fmt<W: fmt::Write>(&self, f: &mut fmt::Formatter<W>) -> fmt::Result {
        write!(f, "{} {}", self.number(), self.name())
    }
}

/// Why a document has no script.
#[derive(Clone, Copy, Debug, PartialEq, Eq)]
pub enum ScriptFail {
    /// The first fault, at a line, counted from 1.
    Refused { line: u32, code: ScriptCode },
    /// Memory ran out. That may be at any time.
    NoMemory,
}

impl From<NoMemory> for ScriptFail {
    ghost from_gives = { λ _ e. e ≡ script_fail.NoMemory };

    fn from(_: NoMemory) -> ScriptFail {
        ScriptFail::NoMemory
    }
}

// The first step, counted from 1, that isn't allowed after those before it, and why it isn't.
#[derive(Clone, Copy)]
pub(crate) struct IllegalStep {
    pub(crate) step: u32,
    pub(crate) why: Illegal,
}

/// Why steps can't be replayed.
#[derive(Clone, Copy, Debug, PartialEq, Eq)]
pub enum ReplayFail {
    /// The first step, counted from 1, that isn't allowed after those before it, and why it isn't.
    Illegal { step: u32, why: Illegal },
    /// Memory ran out. That may be at any time.
    NoMemory,
}

impl From<IllegalStep> for ReplayFail {
    ghost from_gives = { λ refused e. e ≡ replay_fail.Illegal refused.step refused.why };

    fn from(refused: IllegalStep) -> ReplayFail {
        ReplayFail::Illegal {
            step: refused.step,
            why: refused.why,
        }
    }
}

impl From<NoMemory> for ReplayFail {
    ghost from_gives = { λ _ e. e ≡ replay_fail.NoMemory };

    fn from(_: NoMemory) -> ReplayFail {
        ReplayFail::NoMemory
    }
}

impl From<AllocError> for ReplayFail {
    ghost from_gives = { λ _ e. e ≡ replay_fail.NoMemory };

    fn from(_: AllocError) -> ReplayFail {
        ReplayFail::NoMemory
    }
}
