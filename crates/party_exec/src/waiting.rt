// How a job waits for a step of another party, and why it is woken.
//
// A turn is idle if one step of one other party is still to come: the releaser's open of a gate, the done of the writer that
// is read, or the end of the task that the releaser sees. `awaited` names this party. `concerned` names, for each of these
// steps, those who may wait for it. All loads and stores of the words and of the bells are sequentially consistent, so they
// have one order. A job that waits
//
//   1. takes the count of its bell,        5. watches the count,
//   2. loads whether rounds are ending,    6. says that it sleeps,
//   3. says for whose step it waits,       7. looks, by a turn,
//   4. looks, by a turn,                   8. sleeps while the count is that of 1.
//
// A job of the party that it waits for
//
//   a. makes the step, by a turn,          c. adds 1 to the count,
//   b. loads for whose step it waits,      d. loads whether it sleeps,
//      and if it is its own                e. and if it does, wakes it.
//
// - a is before 4, or before 7: the look finds the step, and the turn isn't idle.
// - a is after 4, so b is after 3 and finds the party's own number. If c is before 8 the count isn't that of 1 any more: 8
//   returns at once, since the system compares the count and puts the thread to sleep in one step. If c is after 8, so d is
//   after 6, and e wakes the job, which finds another count and looks.
// - b doesn't find the party's own number, since the job has been woken in between, by another ring: then it looks after
//   that, and so after a. If it waits again, by new steps 1 to 4, this 4 is after a.
// - c is before 1, for an earlier step: the job looks after that. A ring in vain makes it look once too often, and no more.
// - A thread whose last job ends before its party has finished stores first that the rounds are ending, and then rings all
//   bells (c, d, e). If the store is before 2, the job that loads it never waits. If it is after 2, c is after 1: as above,
//   8 returns. A job that is followed by another job of its thread ends without a ring, since that one goes on.
// - A job whose step is awaited has begun, since all have come: none waits in rounds whose meeting was given up or not held.
//
// A task that waits at its gate wouldn't get past its look while a task that it reads directly isn't done. So after an open
// the releaser may leave it to such a writer. Between b, which has found the releaser's number, and c the releaser's job
//
//   f. loads how many instances of each such writer are said to be done. Are they all, it goes on to c. If one isn't,
//   g. it says for the task that it waits for that writer, if it still waits for the releaser,
//   h. and loads again what is said of that writer: only if it is done now, it goes on to c.
//
// A writer's job, between its done (a) and its loads for its readers (b), says how many of its instances are done (s). What is
// said is a hint: no value is passed by it, and the woken task looks for itself. Of the instances before this thread's first
// job it is said before the meeting.
//
// - s is before h: the releaser rings, after the open and the done.
// - s is after h: the writer's b is after s and so after g, finds the writer's number, and its c is after the open too.
// - g doesn't find the releaser's number, since the job was woken in between: as above, it looks after that.
// - g is late, and finds the job waiting at the gate of its next instance. Then the writer has made its done before, and is
//   between a and s, so it will ring: in vain, or after the next open, whose b has found the writer's number. If it has
//   rung before that b, the job hasn't said anything since: it looks after this b, and so after the open.
// - Nobody else waits for what the task would do meanwhile. Its start, hears and looks are awaited by none, and its done and
//   end can't come before the writer's done.
//
// Nor do all sleep at once. While the releaser waits, or has finished, the gates of all aimed instances are open. A task at
// a look, or left to a writer at its gate, waits for a writer that is ranked above it. So of the tasks whose aimed instance
// hasn't ended the highest one waits for nobody; and if there is none, the releaser doesn't wait.

ghost use Rattle.party_turns.specs.Parties.{Belongs};

use crate::bell::Bell;
use crate::concern::awaited;
use crate::round::Round;
use party_turns::Party;
use std::sync::Wait;
use word_rule::SlotWords;

// What a job has said of its waiting.
#[derive(Clone, Copy)]
pub(crate) enum Waiting {
    // It doesn't wait in this round any more.
    Never,
    // It has said nothing.
    No,
    // It has said for whose step it waits. Before, its bell had been rung so often.
    Watching { rings: u64 },
    // It has also said that it sleeps.
    Sleeping { rings: u64 },
}

impl Waiting {
    // After a turn that made a step.
    pub(crate) fn ended(self, bell: &Bell) -> Waiting {
        match self {
            Waiting::Never | Waiting::No => self,
            Waiting::Watching { .. } | Waiting::Sleeping { .. } => {
                bell.say_awake();
                Waiting::No
            }
        }
    }

    // After a turn of the party that was idle. The next turn of the job looks once more.
    pub(crate) fn going_on<R: Wait>(
        self,
        rt: &R,
        round: &Round,
        bell: &Bell,
        words: &SlotWords,
        party: &Party,
    ) -> Waiting
        requires { Belongs words.now party.now }
    {
        match self {
            Waiting::Never => self,
            Waiting::No => begun(round, bell, awaited(words, party)),
            Waiting::Watching { rings } => watched(round, bell, rings),
            Waiting::Sleeping { rings } => {
                bell.sleep(rt, rings);
                bell.say_awake();
                Waiting::No
            }
        }
    }
}

// Takes the count of the bell, and says for whose step the job waits. Whether the round is ending is asked after the count
// is taken.
fn begun(round: &Round, bell: &Bell, awaited: Option<u32>) -> Waiting {
    let Some(party) = awaited else {
        return Waiting::No;
    };
    let rings = bell.rings();
    if round.is_ending() {
        return Waiting::Never;
    }
    bell.say_awaited(party);
    Waiting::Watching { rings }
}

// Watches the count, and says that the job sleeps if it has stayed.
fn watched(round: &Round, bell: &Bell, rings: u64) -> Waiting {
    if bell.has_rung_since(rings, round.loads) {
        bell.say_awake();
        return Waiting::No;
    }
    bell.say_asleep();
    Waiting::Sleeping { rings }
}
