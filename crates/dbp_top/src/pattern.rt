// What may stand where a command has an argument, and the operands in arguments.

ghost use Rattle.std.specs.Prelude.{◌≡◌, ◌↔◌, ℕ, Some};
ghost use Rattle.std.specs.Str.Parse.{digits_value};
ghost use Rattle.dbp_top.specs.Patterns.{Fits, IsNumber, IsSize, form_of};
ghost use Rattle.dbp_top.specs.declared.operands.Operands.{Operands as Given};

use crate::operands::Operands;
use dbp_plan::Name;

// What may stand where a command has an argument.
pub(crate) enum Pattern {
    // This argument.
    Exact(&'static str),
    // A number after these bytes.
    Number(&'static str),
    // A size.
    Size,
    // The name of a task.
    Name,
}

// The operands that are known after the argument, if it fits the pattern.
pub(crate) fn after_argument(
    pattern: &Pattern,
    argument: &str,
    operands: Operands,
) -> Option<Operands>
    ensures { (after : Given) → result ≡ Some after
        ↔ Fits (form_of pattern.now) argument.now operands after }
{
    match pattern {
        Pattern::Exact(text) => {
            if argument == *text {
                Some(operands)
            } else {
                None
            }
        }
        Pattern::Number(prefix) => {
            let number = number_in(argument.strip_prefix(*prefix)?)?;
            Some(Operands { number, ..operands })
        }
        Pattern::Size => {
            let size = size_in(argument)?;
            Some(Operands { size, ..operands })
        }
        Pattern::Name => {
            let name = Name::of(argument.as_bytes())?;
            Some(Operands {
                name: Some(name),
                ..operands
            })
        }
    }
}

// The number that the digits make.
fn number_in(digits: &str) -> Option<u64>
    ensures { (n : ℕ) → result ≡ Some n ↔ IsNumber digits.now × (n ≡ digits_value 10 digits.now) }
{
    if digits.len() > 20 || digits.starts_with('+') {
        return None;
    }
    digits.parse().ok()
}

// The size that the digits make.
fn size_in(digits: &str) -> Option<u32>
    ensures { (n : ℕ) → result ≡ Some n ↔ IsSize digits.now × (n ≡ digits_value 10 digits.now) }
{
    let size = number_in(digits)?;
    if 1 <= size && size <= 32 {
        Some(size as u32)
    } else {
        None
    }
}
