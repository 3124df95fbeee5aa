// The row of one instance.

ghost use Rattle.std.specs.Prelude.{◌≡◌, ◌<◌, ◌≤◌, List, ℤ, [], ◌∷◌, ◌++◌, length};
ghost use Rattle.dbp_plan.specs.declared.limits.TheConstants.{MAX_OUTS};

use crate::MAX_OUTS;
use std::marker::Model;

// Words of a row, at most.
const ROOM: usize = MAX_OUTS as usize;

const _: () = prove!(ROOM == 8);

/// Up to `MAX_OUTS` words: the values of a task's outs in one instance. A contract sees the list of its words.
#[derive(Drop)]
pub struct Row {
    held: [i64; ROOM],
    count: usize,
}

impl Model for Row {
    ghost use Rattle.std.specs.Prelude.{List, ℤ, take, ◌≤◌};
    ghost use Rattle.dbp_plan.specs.declared.limits.TheConstants.{MAX_OUTS};

    ghost Value = { List ℤ };

    ghost view = { λ r. take r.count r.held };

    ghost invariant = { λ r. r.count ≤ MAX_OUTS };
}

impl Row {
    /// The empty row.
    pub fn new() -> Row
        ensures { result ≡ [] }
    {
        Row {
            held: [0; ROOM],
            count: 0,
        }
    }

    /// Adds the word at the end.
    pub fn push(&mut self, word: i64)
        requires { length self.old < MAX_OUTS }
        ensures { self.new ≡ self.old ++ word ∷ [] }
    {
        self.held[self.count] = word;
        self.count += 1;
    }

    /// Takes all words out.
    pub fn clear(&mut self)
        ensures { self.new ≡ [] }
    {
        self.count = 0;
    }

    /// All words, in order.
    pub fn words(&self) -> &[i64]
        ensures value { result.now ≡ self.now }
        ensures fits { length self.now ≤ MAX_OUTS }
    {
        &self.held[..self.count]
    }
}
