// Orders and values as words of the table that the parties of a run share.

ghost use Rattle.std.specs.Prelude.{◌≡◌, All, FitsSigned};
ghost use Rattle.std.specs.Int.{w64};
ghost use Rattle.dbp_rules.specs.LoadedWords.{order_of, value_of_word};
ghost use Rattle.dbp_rules.specs.SharedWords.{order_value, signed_value};
ghost use Rattle.dbp_rules.specs.WordRanges.{FirstValuesFit};

use crate::parts::Order;
use dbp_plan::{Diagram, Out};

impl Order {
    /// The number of the order: its slot in the low 32 bits, and its number above them.
    pub fn to_word(self) -> u64
        ensures { result ≡ order_value self }
    {
        u64::from(self.slot) + (u64::from(self.number) << 32)
    }

    /// The order with this number.
    pub fn from_word(word: u64) -> Order
        ensures { result ≡ order_of word }
    {
        Order {
            slot: (word % (1 << 32)) as u32,
            number: (word >> 32) as u32,
        }
    }
}

/// The number of the value: a value below 0 counts down from 2^64.
pub fn value_to_word(value: i64) -> u64
    ensures { result ≡ signed_value value }
{
    value.cast_unsigned()
}

/// The value with this number: from 2^63 on it is below 0.
pub fn value_from_word(word: u64) -> i64
    ensures { result ≡ value_of_word word }
{
    word.cast_signed()
}

/// Reads the first value of each out. By its type it has 64 bits, so the words of slots have 64 bits before the first step.
pub fn first_values_have_64_bits(diagram: &Diagram)
    ensures { FirstValuesFit diagram.now }
{
    for task in diagram.tasks.items() {
        firsts_have_64_bits(task.outs.items());
    }
}

// What is read is known to be in the range of its type.
fn firsts_have_64_bits(outs: &[Out])
    ensures { All (λ o. FitsSigned w64 o.first) outs.now }
{
    for out in outs {
        let _first = out.first;
    }
}
