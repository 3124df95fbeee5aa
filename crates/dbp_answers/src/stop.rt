// Why a command makes no text of an input.

ghost use Rattle.std.specs.Prelude.{◌≡◌};

use crate::command_code::CommandCode;
use crate::refusal::Refusal;
use dbp_plan::NoMemory;
use dbp_replay::{ReplayFail, ScriptFail};
use dia_check::CheckFail;
use dia_read::ReadFail;
use rank_find::RankFail;
use trace_io::{Code, TraceFail};

/// Why a command makes no text of an input.
#[derive(Drop)]
pub enum Stop {
    /// The input is refused.
    Refused(Refusal),
    /// A release of a simulation meets an unfinished instance of its task: the line that says so.
    Overrun(Vec<u8>),
    /// Memory ran out.
    NoMemory,
}

impl From<NoMemory> for Stop {
    ghost use Rattle.dbp_answers.specs.declared.stop.Stop.TheVariants.{NoMemory as OutOfMemory};

    ghost from_gives = { λ _ stop. stop ≡ OutOfMemory };

    fn from(_: NoMemory) -> Self {
        Stop::NoMemory
    }
}

impl From<ReadFail> for Stop {
    ghost use Rattle.dbp_answers.specs.Stops.{stop_of_reading};

    ghost from_gives = { λ fail stop. stop ≡ stop_of_reading fail };

    fn from(fail: ReadFail) -> Self {
        match fail {
            ReadFail::Refused { line, code } => Stop::Refused(Refusal::Document {
                line,
                code: Code::Reading(code),
            }),
            ReadFail::NoMemory => Stop::NoMemory,
        }
    }
}

impl From<CheckFail> for Stop {
    ghost use Rattle.dbp_answers.specs.Stops.{stop_of_checking};

    ghost from_gives = { λ fail stop. stop ≡ stop_of_checking fail };

    fn from(fail: CheckFail) -> Self {
        match fail {
            CheckFail::Refused { line, code } => Stop::Refused(Refusal::Document {
                line,
                code: Code::Checking(code),
            }),
            CheckFail::NoMemory => Stop::NoMemory,
        }
    }
}

impl From<TraceFail> for Stop {
    ghost use Rattle.dbp_answers.specs.Stops.{stop_of_tracing};

    ghost from_gives = { λ fail stop. stop ≡ stop_of_tracing fail };

    fn from(fail: TraceFail) -> Self {
        match fail {
            TraceFail::Refused { line, code } => Stop::Refused(Refusal::Document {
                line,
                code: Code::Tracing(code),
            }),
            TraceFail::NoMemory => Stop::NoMemory,
        }
    }
}

impl From<RankFail> for Stop {
    ghost use Rattle.dbp_answers.specs.Stops.{stop_of_ranking};

    ghost from_gives = { λ fail stop. stop ≡ stop_of_ranking fail };

    fn from(fail: RankFail) -> Self {
        match fail {
            RankFail::Cycle { names } => {
                Stop::Refused(Refusal::OfCommand(CommandCode::Cycle { tasks: names }))
            }
            RankFail::NoMemory => Stop::NoMemory,
        }
    }
}

impl From<ScriptFail> for Stop {
    ghost use Rattle.dbp_answers.specs.Stops.{stop_of_script};

    ghost from_gives = { λ fail stop. stop ≡ stop_of_script fail };

    fn from(fail: ScriptFail) -> Self {
        match fail {
            ScriptFail::Refused { line, code } => Stop::Refused(Refusal::Script { line, code }),
            ScriptFail::NoMemory => Stop::NoMemory,
        }
    }
}

impl From<ReplayFail> for Stop {
    ghost use Rattle.dbp_answers.specs.Stops.{stop_of_replay};

    ghost from_gives = { λ fail stop. stop ≡ stop_of_replay fail };

    fn from(fail: ReplayFail) -> Self {
        match fail {
            ReplayFail::Illegal { step, why } => Stop::Refused(Refusal::Illegal { step, why }),
            ReplayFail::NoMemory => Stop::NoMemory,
        }
    }
}
