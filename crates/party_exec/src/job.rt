// A party's jobs of the rounds that its thread makes.

ghost use Rattle.std.specs.Prelude.{◌≡◌, ◌<◌};
ghost use Rattle.party_turns.specs.Parties.{Belongs};
ghost use Rattle.party_exec.specs.Jobs.{IsCountedTurn, IsJob, IsNextJob, MakesJobs, idle_after, number_of};

use crate::bell::Bell;
use crate::concern::{concerned, instances_done, releaser_number};
use crate::pace::Pace;
use crate::round::Round;
use crate::waiting::Waiting;
use party_turns::{Party, Turn};
use std::sync::Wait;
use word_rule::SlotWords;

const MOST_TURNS: u32 = 4096;

const MOST_IDLE: u32 = 64;

// After so many idle turns in a row a job begins to wait.
const IDLE_BEFORE_WAIT: u32 = 2;

// So many jobs of a party a thread makes in a row.
const MOST_JOBS: u32 = 64;

// Makes jobs of the party, of so many rounds. If it hasn't finished then, these rounds end: the others may wait for the steps
// that its jobs leave.
pub(crate) fn jobs<R: Wait, P: Pace>(
    rt: &R,
    pace: &P,
    words: &SlotWords,
    round: &Round,
    party: &mut Party,
)
    requires { Belongs words.now party.old }
    ensures { MakesJobs words.now party.old 64 party.new }
{
    let bell = round.bell(number_in(words, party));
    bell.say_done(instances_done(party));
    let waiting = round.begin(rt);
    make_jobs(rt, pace, words, round, waiting, MOST_JOBS, party);
    if !party.has_finished(words) {
        round.end();
    }
}

// The party's next jobs, so many in a row.
pub(crate) fn make_jobs<R: Wait, P: Pace>(
    rt: &R,
    pace: &P,
    words: &SlotWords,
    round: &Round,
    waiting: Waiting,
    count: u32,
    party: &mut Party,
)
    requires { Belongs words.now party.old }
    ensures { MakesJobs words.now party.old count party.new }
{
    for _ in 0..count {
        next_job(rt, pace, words, round, waiting, party);
    }
}

// The party's job of the next round, if it hasn't finished.
fn next_job<R: Wait, P: Pace>(
    rt: &R,
    pace: &P,
    words: &SlotWords,
    round: &Round,
    waiting: Waiting,
    party: &mut Party,
)
    requires { Belongs words.now party.old }
    ensures { IsNextJob words.now party.old party.new }
{
    if party.has_finished(words) {
        return;
    }
    job(rt, pace, words, round, waiting, party);
}

// Makes turns of the party until it has finished, or until others are to have theirs.
fn job<R: Wait, P: Pace>(
    rt: &R,
    pace: &P,
    words: &SlotWords,
    round: &Round,
    waiting: Waiting,
    party: &mut Party,
)
    requires { Belongs words.now party.old }
    ensures { IsJob words.now party.old party.new }
{
    let bell = round.bell(number_in(words, party));
    make_turns(rt, pace, words, round, bell, waiting, party);
    bell.say_awake();
}

fn make_turns<R: Wait, P: Pace>(
    rt: &R,
    pace: &P,
    words: &SlotWords,
    round: &Round,
    bell: &Bell,
    waiting: Waiting,
    party: &mut Party,
)
    requires { Belongs words.now party.old }
    ensures { IsJob words.now party.old party.new }
{
    let mut waiting = waiting;
    let mut idle = 0;
    for _ in 0..MOST_TURNS {
        if party.has_finished(words) {
            return;
        }
        let turn = told_turn(pace, words, round, party);
        idle = idle_turns(idle, turn);
        if idle == MOST_IDLE {
            return;
        }
        waiting = match idle {
            0 => waiting.ended(bell),
            idle if idle < IDLE_BEFORE_WAIT => waiting,
            _ => waiting.going_on(rt, round, bell, words, party),
        };
    }
}

// One turn of the party. Then it rings for those who wait for its step.
fn told_turn<P: Pace>(pace: &P, words: &SlotWords, round: &Round, party: &mut Party) -> Turn
    requires { Belongs words.now party.old }
    ensures { IsCountedTurn words.now party.old party.new result }
{
    let concern = concerned(words, party);
    let turn = paced_turn(pace, words, party);
    round.ring(words, number_in(words, party), party, concern);
    turn
}

// One turn of the party, which the pace hears of.
fn paced_turn<P: Pace>(pace: &P, words: &SlotWords, party: &mut Party) -> Turn
    requires { Belongs words.now party.old }
    ensures { IsCountedTurn words.now party.old party.new result }
{
    party.count_turn();
    pace.at(number_in(words, party), party.turn_number());
    party.turn(words)
}

// Its number among the parties.
fn number_in(words: &SlotWords, party: &Party) -> u32
    ensures { result ≡ number_of words.now party.now }
{
    match party {
        Party::Releaser(_) => releaser_number(words),
        Party::Task(party) => party.seat().task(),
    }
}

// How many turns in a row were idle, after this one.
fn idle_turns(idle: u32, turn: Turn) -> u32
    requires { idle < 64 }
    ensures { result ≡ idle_after idle turn }
{
    match turn {
        Turn::Idle(_) => idle + 1,
        _ => 0,
    }
}
