// What runs the parties.

ghost use Rattle.std.specs.Prelude.{◌≡◌, ◌∷◌, [], ◌++◌, IfOk, None, OnErr, Some};
ghost use Rattle.std.specs.Thread.{IsSync};
ghost use Rattle.party_turns.specs.Parties.{AreFresh, HaveFinished};
ghost use Rattle.party_turns.specs.SameSeats.{AreSameParties};
ghost use Rattle.party_exec.specs.Entries.{entry_of};

use dbp_plan::{NoMemory, Plan};
use party_turns::Party;
use std::sync::Wait;
use std::thread::Threads;
use word_rule::SlotWords;

/// A crew makes the turns of all parties of a table, until each has finished, and keeps an entry of each run.
pub trait Crew {
    ghost use Rattle.std.specs.Prelude.{ℕ, List, Option};
    ghost use Rattle.dbp_plan.specs.declared.plan.Plan.{Plan};
    ghost use Rattle.party_exec.specs.declared.crew_entry.CrewEntry.{CrewEntry};

    /// The entries of its runs, the first one first.
    ghost runs: { Self → List CrewEntry };

    /// The plan for which it is prepared.
    ghost ready: { Self → Option Plan };

    /// The number from which it draws the order of turns; 0 if it draws nothing.
    ghost seed: { Self → ℕ };

    /// The number from which its last run drew; 0 if it has made none.
    ghost last_seed: { Self → ℕ };

    /// Takes all memory that a run of the plan needs. If it runs out, the plan that was ready before stays so.
    fn prepare(&mut self, plan: &Plan) -> Result<(), NoMemory>
        ensures runs { runs self.new ≡ runs self.old }
        ensures ready { IfOk result (λ _. ready self.new ≡ Some plan.now) }
        ensures kept { OnErr result (ready self.new ≡ ready self.old) }
        ensures seed { seed self.new ≡ seed self.old }
        ensures last_seed { last_seed self.new ≡ last_seed self.old };

    /// Runs the parties of a table that have made no step, until each has finished. It takes no memory, and may wait.
    fn run<R: Threads + Wait + Sync>(&mut self, rt: &R, words: &SlotWords, parties: &mut [Party])
        requires sync { IsSync R.row }
        requires ready { ready self.old ≡ Some words.now.plan }
        requires fresh { AreFresh words.now parties.old }
        ensures same { AreSameParties parties.old parties.new }
        ensures finished { HaveFinished words.now parties.new }
        ensures runs { runs self.new ≡ runs self.old ++ entry_of words.now.plan ∷ [] }
        ensures ready { ready self.new ≡ None }
        ensures seed { seed self.new ≡ seed self.old }
        ensures last_seed { last_seed self.new ≡ seed self.old };
}
