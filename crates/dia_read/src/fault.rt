// Why a text wasn't read.

ghost use Rattle.std.specs.Prelude.{◌≡◌};
ghost use Rattle.dia_read.specs.declared.fault.ReadFail.TheVariants.{NoMemory as OutOfMemory};

use dbp_plan::NoMemory;
use dia_lines::ReadCode;

/// Why a text wasn't read.
#[derive(Clone, Copy, Debug, PartialEq, Eq)]
pub enum ReadFail {
    /// The first fault of the text, at a line, counted from 1.
    Refused { line: u32, code: ReadCode },
    /// Memory ran out. That may be at any time.
    NoMemory,
}

impl From<NoMemory> for ReadFail {
    ghost from_gives = { λ _ e. e ≡ OutOfMemory };

    fn from(_: NoMemory) -> ReadFail {
        ReadFail::NoMemory
    }
}
