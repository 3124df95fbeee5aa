// A crew of one thread, which draws the turns.

ghost use Rattle.std.specs.Prelude.{◌≡◌, ◌<◌, ◌≤◌, ◌-◌, [], ◌∷◌, ◌++◌, ℕ, All, None, Some, length};
ghost use Rattle.drawn_numbers.specs.Draws.{after_draw, after_draws};
ghost use Rattle.party_turns.specs.Parties.{AreFresh, Belongs, HaveFinished};
ghost use Rattle.party_turns.specs.SameSeats.{AreSameParties};
ghost use Rattle.party_exec.specs.Crews.{last_seed_of, seed_of, turn_ready, turn_runs};
ghost use Rattle.party_exec.specs.Draws.{HaveDrawnRounds, IsDrawnRound, MakeTurnsBetween, after_round, turn_count};
ghost use Rattle.party_exec.specs.Entries.{entry_of};
ghost use Rattle.party_exec.specs.Jobs.{MakesTurns};

use crate::all_parties::have_finished;
use crate::crew::Crew;
use crate::crew_entry::CrewEntry;
use crate::draws::{draw_place, draw_turns};
use crate::runs::Runs;
use dbp_plan::{NoMemory, Plan};
use party_turns::Party;
use rand_core::SeedableRng;
use rand_xoshiro::SplitMix64;
use std::alloc::Global;
use std::sync::Wait;
use std::thread::Threads;
use word_rule::SlotWords;

/// A crew that makes all turns on one thread, in an order that it draws from its seed by SplitMix64. Equal seeds give
/// equal orders. In each round it draws the party that begins, and how many turns, from 1 to 3, each party makes.
#[derive(Drop)]
pub struct TurnCrew {
    pub(crate) seed: u64,
    // the seed of its last run; 0 before it has made one
    pub(crate) last_seed: u64,
    pub(crate) runs: Runs,
}

impl TurnCrew {
    /// A crew without runs.
    pub fn new(alloc: Global, seed: u64) -> TurnCrew
        ensures seed { seed_of result ≡ seed }
        ensures last_seed { last_seed_of result ≡ 0 }
        ensures runs { turn_runs result ≡ [] }
        ensures ready { turn_ready result ≡ None }
    {
        TurnCrew {
            seed,
            last_seed: 0,
            runs: Runs::new(alloc),
        }
    }

    /// Sets the number from which the next runs draw.
    pub fn seed(&mut self, seed: u64)
        ensures seed { seed_of self.new ≡ seed }
        ensures last_seed { last_seed_of self.new ≡ last_seed_of self.old }
        ensures runs { turn_runs self.new ≡ turn_runs self.old }
        ensures ready { turn_ready self.new ≡ turn_ready self.old }
    {
        self.seed = seed;
    }

    /// The entries of its runs, the first one first.
    pub fn runs(&self) -> &[CrewEntry]
        ensures { result.now ≡ turn_runs self.now }
    {
        self.runs.entries.as_slice()
    }
}

impl Crew for TurnCrew {
    ghost use Rattle.party_exec.specs.Crews.{last_seed_of, seed_of, turn_ready, turn_runs};

    ghost runs = { turn_runs };

    ghost ready = { turn_ready };

    ghost seed = { seed_of };

    ghost last_seed = { last_seed_of };

    fn prepare(&mut self, plan: &Plan) -> Result<(), NoMemory> {
        self.runs.prepare(plan)
    }

    fn run<R: Threads + Wait + Sync>(&mut self, rt: &R, words: &SlotWords, parties: &mut [Party])
        requires ready { turn_ready self.old ≡ Some words.now.plan }
        requires fresh { AreFresh words.now parties.old }
        ensures rounds { (draws : ℕ)
            × HaveDrawnRounds words.now (seed_of self.old) parties.old draws parties.new }
        ensures same { AreSameParties parties.old parties.new }
        ensures finished { HaveFinished words.now parties.new }
        ensures runs { turn_runs self.new ≡ turn_runs self.old ++ entry_of words.now.plan ∷ [] }
        ensures ready { turn_ready self.new ≡ None }
        ensures seed { seed_of self.new ≡ seed_of self.old }
        ensures last_seed { last_seed_of self.new ≡ seed_of self.old }
    {
        run_drawn_rounds(rt, self.seed, words, parties);
        self.runs.close(words, parties);
        self.last_seed = self.seed;
    }
}

// The generator that begins at the seed.
fn first_draws(seed: u64) -> SplitMix64
    ensures { result ≡ seed }
{
    SplitMix64::seed_from_u64(seed)
}

// Rounds until all parties have finished.
fn run_drawn_rounds<R: Wait>(rt: &R, seed: u64, words: &SlotWords, parties: &mut [Party])
    requires { AreFresh words.now parties.old }
    ensures rounds { (draws : ℕ) × HaveDrawnRounds words.now seed parties.old draws parties.new }
    ensures same { AreSameParties parties.old parties.new }
    ensures finished { HaveFinished words.now parties.new }
{
    let mut draws = first_draws(seed);
    for _ in rt.forever() {
        if have_finished(words, parties) {
            return;
        }
        drawn_round(&mut draws, words, parties);
    }
    unreachable!()
}

// A round: each party makes its turns, from the one on that is drawn first.
fn drawn_round(draws: &mut SplitMix64, words: &SlotWords, parties: &mut [Party])
    requires here { All (Belongs words.now) parties.old }
    requires some { 0 < length parties.old }
    ensures round { IsDrawnRound words.now draws.old parties.old parties.new }
    ensures draws { draws.new ≡ after_round (length parties.old) draws.old }
{
    let count = parties.len();
    let first = draw_place(draws, count);
    turns_between(draws, words, parties, first, count);
    turns_between(draws, words, parties, 0, first);
}

// The parties at these places make their turns.
fn turns_between(
    draws: &mut SplitMix64,
    words: &SlotWords,
    parties: &mut [Party],
    from: usize,
    to: usize,
)
    requires here { All (Belongs words.now) parties.old }
    requires ends { from ≤ to }
    requires there { to ≤ length parties.old }
    ensures turns { MakeTurnsBetween words.now from to draws.old parties.old parties.new }
    ensures draws { draws.new ≡ after_draws (to - from) draws.old }
{
    for place in from..to {
        turns_drawn(draws, words, &mut parties[place]);
    }
}

// The party makes as many turns as are drawn.
fn turns_drawn(draws: &mut SplitMix64, words: &SlotWords, party: &mut Party)
    requires { Belongs words.now party.old }
    ensures turns { MakesTurns words.now party.old (turn_count draws.old) party.new }
    ensures draws { draws.new ≡ after_draw draws.old }
{
    let turns = draw_turns(draws);
    for _ in 0..turns {
        party.turn(words);
    }
}
