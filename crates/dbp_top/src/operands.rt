// The operands among the arguments of a command, and the command that is made of them.

ghost use Rattle.std.specs.Prelude.{◌≡◌};
ghost use Rattle.dbp_top.specs.Commands.{made};

use dbp_answers::Command;
use dbp_plan::Name;

// The operands among the arguments of a command.
#[derive(Clone, Copy, Debug, PartialEq, Eq)]
pub(crate) struct Operands {
    // A number below 2 ^ 64.
    pub(crate) number: u64,
    // The size of a document.
    pub(crate) size: u32,
    // The name of a task, if one is given.
    pub(crate) name: Option<Name>,
}

// What makes a command of the operands among its arguments. The table of commands is a static, which can hold no command that
// names a task.
#[derive(Clone, Copy, Debug, PartialEq, Eq)]
pub(crate) enum Maker {
    Mean,
    Sim,
    SimRecord,
    Cpus,
    CpusRecord,
    Run,
    // By the number.
    RunTurns,
    Form,
    Upgrade,
    Rank,
    Plan,
    Rta,
    // Of the name.
    Need,
    Replay,
    ReplayRanked,
    // By the number and the size.
    Gen,
    // By the number and the size.
    Soak,
}

// The command that is made of the operands: none if it wants a name that isn't given.
pub(crate) fn made(maker: Maker, given: Operands) -> Option<Command>
    ensures { result ≡ made maker given }
{
    let Operands { number, size, name } = given;
    let command = match maker {
        Maker::Mean => Command::Mean,
        Maker::Sim => Command::Sim { record_it: false },
        Maker::SimRecord => Command::Sim { record_it: true },
        Maker::Cpus => Command::Cpus { record_it: false },
        Maker::CpusRecord => Command::Cpus { record_it: true },
        Maker::Run => Command::Run { turns: None },
        Maker::RunTurns => Command::Run {
            turns: Some(number),
        },
        Maker::Form => Command::Form,
        Maker::Upgrade => Command::Upgrade,
        Maker::Rank => Command::Rank,
        Maker::Plan => Command::Plan,
        Maker::Rta => Command::Rta,
        Maker::Need => Command::Need { task: name? },
        Maker::Replay => Command::Replay { ranked: false },
        Maker::ReplayRanked => Command::Replay { ranked: true },
        Maker::Gen => Command::Gen { seed: number, size },
        Maker::Soak => Command::Soak { seed: number, size },
    };
    Some(command)
}
