// A crew with a thread for each party.

ghost use Rattle.std.specs.Prelude.{◌≡◌, [], ◌∷◌, ◌++◌, All, IfOk, None, OnErr, Some};
ghost use Rattle.std.specs.Thread.{IsSync};
ghost use Rattle.party_turns.specs.Parties.{AreFresh, Belongs, HaveFinished};
ghost use Rattle.party_turns.specs.SameSeats.{AreSameParties};
ghost use Rattle.party_exec.specs.Crews.{no_seed, thread_ready, thread_runs};
ghost use Rattle.party_exec.specs.Entries.{entry_of};
ghost use Rattle.party_exec.specs.Jobs.{HaveRounds, MakeJobs, MakesJobs};

use crate::all_parties::have_finished;
use crate::crew::Crew;
use crate::crew_entry::CrewEntry;
use crate::job::{jobs, make_jobs};
use crate::meetings::Meetings;
use crate::pace::{FreePace, Pace};
use crate::round::Round;
use crate::runs::Runs;
use crate::waiting::Waiting;
use dbp_plan::{NoMemory, Plan};
use party_turns::Party;
use std::alloc::Global;
use std::sync::Wait;
use std::thread;
use std::thread::Threads;
use word_rule::SlotWords;

/// A crew with a thread for each party. It works in rounds, in each of which every party is a job. That each job has a thread of
/// its own, no clause says. A run without a pace where the threads would have one processor alone makes all jobs on one thread,
/// in turn.
#[derive(Drop)]
pub struct ThreadCrew<P: Pace> {
    pace: P,
    pub(crate) runs: Runs,
}

impl<P: Pace> ThreadCrew<P> {
    /// A crew without runs.
    pub fn new(alloc: Global, pace: P) -> ThreadCrew<P>
        ensures runs { thread_runs result ≡ [] }
        ensures ready { thread_ready result ≡ None }
    {
        ThreadCrew {
            pace,
            runs: Runs::new(alloc),
        }
    }

    /// The entries of its runs, the first one first.
    pub fn runs(&self) -> &[CrewEntry]
        ensures { result.now ≡ thread_runs self.now }
    {
        self.runs.entries.as_slice()
    }

    /// Takes all memory that a run of the plan needs. If it runs out, the plan that was ready before stays so.
    pub fn prepare_paced(&mut self, plan: &Plan) -> Result<(), NoMemory>
        ensures runs { thread_runs self.new ≡ thread_runs self.old }
        ensures ready { IfOk result (λ _. thread_ready self.new ≡ Some plan.now) }
        ensures kept { OnErr result (thread_ready self.new ≡ thread_ready self.old) }
    {
        self.runs.prepare(plan)
    }

    /// Runs the parties as `Crew::run` does, at every pace: in rounds, in each of which every party makes its turns in a job. The
    /// pace is called before each turn; since a pace means nothing to a contract, that is tested.
    pub fn run_paced<R: Threads + Wait + Sync>(
        &mut self,
        rt: &R,
        words: &SlotWords,
        parties: &mut [Party],
    )
        requires ready { thread_ready self.old ≡ Some words.now.plan }
        requires fresh { AreFresh words.now parties.old }
        ensures rounds { HaveRounds words.now parties.old parties.new }
        ensures same { AreSameParties parties.old parties.new }
        ensures finished { HaveFinished words.now parties.new }
        ensures runs { thread_runs self.new ≡ thread_runs self.old ++ entry_of words.now.plan ∷ [] }
        ensures ready { thread_ready self.new ≡ None }
    {
        run_rounds(rt, &self.pace, words, parties);
        self.runs.close(words, parties);
    }
}

impl Crew for ThreadCrew<FreePace> {
    ghost use Rattle.party_exec.specs.Crews.{no_seed, thread_ready, thread_runs};

    ghost runs = { thread_runs };

    ghost ready = { thread_ready };

    ghost seed = { no_seed };

    ghost last_seed = { no_seed };

    fn prepare(&mut self, plan: &Plan) -> Result<(), NoMemory> {
        self.prepare_paced(plan)
    }

    fn run<R: Threads + Wait + Sync>(&mut self, rt: &R, words: &SlotWords, parties: &mut [Party])
        requires sync { IsSync R.row }
        requires ready { thread_ready self.old ≡ Some words.now.plan }
        requires fresh { AreFresh words.now parties.old }
        ensures rounds { HaveRounds words.now parties.old parties.new }
        ensures same { AreSameParties parties.old parties.new }
        ensures finished { HaveFinished words.now parties.new }
        ensures runs { thread_runs self.new ≡ thread_runs self.old ++ entry_of words.now.plan ∷ [] }
        ensures ready { thread_ready self.new ≡ None }
        ensures seed { no_seed self.new ≡ no_seed self.old }
        ensures last_seed { no_seed self.new ≡ no_seed self.old }
    {
        if is_on_one_processor(rt) {
            run_rounds_in_turn(rt, words, parties);
            self.runs.close(words, parties);
        } else {
            self.run_paced(rt, words, parties);
        }
    }
}

// Rounds until all parties have finished.
fn run_rounds<R: Threads + Wait + Sync, P: Pace>(
    rt: &R,
    pace: &P,
    words: &SlotWords,
    parties: &mut [Party],
)
    requires { AreFresh words.now parties.old }
    ensures rounds { HaveRounds words.now parties.old parties.new }
    ensures same { AreSameParties parties.old parties.new }
    ensures finished { HaveFinished words.now parties.new }
{
    let mut meetings = Meetings::new();
    for _ in rt.forever() {
        if have_finished(words, parties) {
            return;
        }
        let is_given_up = rounds(rt, pace, words, parties, meetings.is_held());
        meetings = meetings.after(is_given_up);
    }
    unreachable!()
}

// Whether the threads may run on one processor alone. If the system doesn't say it, they may run on several.
fn is_on_one_processor<R: Threads>(rt: &R) -> bool {
    match thread::available_parallelism(rt) {
        Ok(processors) => processors.get() == 1,
        Err(_) => false,
    }
}

// Rounds: the jobs of each party in a row, in as many threads as there are parties. Returns whether the threads were to meet
// and haven't.
fn rounds<R: Threads + Wait + Sync, P: Pace>(
    rt: &R,
    pace: &P,
    words: &SlotWords,
    parties: &mut [Party],
    is_met: bool,
) -> bool
    requires { All (Belongs words.now) parties.old }
    ensures { MakeJobs words.now parties.old 64 parties.new }
{
    if parties.is_empty() {
        return false;
    }
    let threads = parties.len();
    let round = Round::new(threads, is_met);
    thread::for_each_mut(
        rt,
        parties,
        threads,
        &|_: usize, party: &mut Party|
            requires { Belongs words.now party.now }
            ensures { MakesJobs words.entry.now party.entry.now 64 party.exit.now }
        { jobs(rt, pace, words, &round, party) },
    );
    round.was_given_up()
}

// Rounds until all parties have finished, on this thread: on one processor the others would only wait for each other.
fn run_rounds_in_turn<R: Threads + Wait + Sync>(rt: &R, words: &SlotWords, parties: &mut [Party])
    requires { AreFresh words.now parties.old }
    ensures rounds { HaveRounds words.now parties.old parties.new }
    ensures same { AreSameParties parties.old parties.new }
    ensures finished { HaveFinished words.now parties.new }
{
    let round = Round::new(1, false);
    for _ in rt.forever() {
        if have_finished(words, parties) {
            return;
        }
        round_in_turn(rt, words, &round, parties);
    }
    unreachable!()
}

// A round: a job of each party in turn, on this thread. None waits.
fn round_in_turn<R: Threads + Wait + Sync>(
    rt: &R,
    words: &SlotWords,
    round: &Round,
    parties: &mut [Party],
)
    requires { All (Belongs words.now) parties.old }
    ensures { MakeJobs words.now parties.old 1 parties.new }
{
    thread::for_each_mut(
        rt,
        parties,
        1,
        &|_: usize, party: &mut Party|
            requires { Belongs words.now party.now }
            ensures { MakesJobs words.entry.now party.entry.now 1 party.exit.now }
        { make_jobs(rt, &FreePace, words, round, Waiting::Never, 1, party) },
    );
}
