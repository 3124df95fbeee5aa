// The shared words before the first step, with a seat for each party.

ghost use Rattle.std.specs.Prelude.{◌≡◌, ◌+◌, ◌<◌, IfOk, length};
ghost use Rattle.word_rule.specs.FirstSeats.{AreFirstTasks, IsFirstReleaser, IsFirstTask, KeepsReleaser, split_off};
ghost use Rattle.word_rule.specs.Seats.{ReleaserSits};

use crate::first_words::first_words;
use crate::seats::{ReleaserSeat, SlotWords, TaskSeat};
use crate::views::NextTask;
use atomic_table::Table;
use dbp_plan::{List, NoMemory, Plan};
use dbp_rules::{Count, ReleaserPart, TaskPart, Wiring, first_values_have_64_bits, wire_plan};
use dbp_slots::layout;
use std::alloc::Global;

impl SlotWords {
    /// The words of the plan before the first step, the releaser's seat, and the tasks' seats: the one at index i is that
    /// of task i. No seat has made a step, so by the rule of the table each word is that of the start state. If memory runs
    /// out the plan is given up.
    pub fn new(
        alloc: Global,
        plan: Plan,
    ) -> Result<(SlotWords, ReleaserSeat, List<TaskSeat>), NoMemory>
        ensures plan { IfOk result (λ made. made.0.plan ≡ plan) }
        ensures releaser { IfOk result (λ made. IsFirstReleaser made.0 made.1) }
        ensures tasks { IfOk result (λ made. AreFirstTasks made.0 made.2) }
    {
        let (words, mut seat) = SlotWords::begin(alloc, plan)?;
        let tasks = words.split_seats(alloc, &mut seat)?;
        Ok((words, seat, tasks))
    }

    // The words of the plan before the first step, and the releaser's seat.
    fn begin(alloc: Global, plan: Plan) -> Result<(SlotWords, ReleaserSeat), NoMemory>
        ensures plan { IfOk result (λ made. made.0.plan ≡ plan) }
        ensures releaser { IfOk result (λ made. IsFirstReleaser made.0 made.1) }
        ensures none { IfOk result (λ made. split_off made.1 ≡ 0) }
    {
        let wiring = wire_plan(alloc, &plan, Count::All)?;
        let layout = layout(&plan.diagram);
        let part = ReleaserPart::start(alloc, &wiring)?;
        first_values_have_64_bits(&plan.diagram);
        let start = first_words(alloc, &plan, &layout)?;
        let (table, seat) = Table::of_words(alloc, start.as_slice(), &plan)?;
        let words = SlotWords {
            table,
            plan,
            wiring,
            layout,
        };
        let seat = ReleaserSeat { seat, part };
        Ok((words, seat))
    }

    // The seats of all tasks.
    fn split_seats(
        &self,
        alloc: Global,
        seat: &mut ReleaserSeat,
    ) -> Result<List<TaskSeat>, NoMemory>
        requires first { IsFirstReleaser self.now seat.old }
        requires none { split_off seat.old ≡ 0 }
        ensures releaser { IfOk result (λ _. IsFirstReleaser self.now seat.new) }
        ensures tasks { IfOk result (λ seats. AreFirstTasks self.now seats) }
    {
        let mut seats = List::new(alloc);
        for task in 0..self.plan.diagram.tasks.len() {
            let next = self.split_seat(seat, task);
            seats.push(next)?;
        }
        Ok(seats)
    }

    // Splits the seat of the next task off the releaser's. The tasks go in order, so each has one seat at most.
    fn split_seat(&self, seat: &mut ReleaserSeat, task: u32) -> TaskSeat
        requires here { ReleaserSits self.now seat.old }
        requires next { task ≡ split_off seat.old }
        requires task { task < length self.now.plan.diagram.tasks }
        ensures same { KeepsReleaser seat.old seat.new }
        ensures one { split_off seat.new ≡ task + 1 }
        ensures first { IsFirstTask self.now task result }
    {
        let seat = self.table.shared.split_seat::<NextTask>(&mut seat.seat);
        TaskSeat {
            seat,
            task,
            part: TaskPart::first(),
        }
    }

    /// The plan.
    pub fn plan(&self) -> &Plan
        ensures { result.now ≡ self.now.plan }
    {
        &self.plan
    }

    /// What the steps look up in the plan.
    pub fn wiring(&self) -> &Wiring
        ensures { result.now ≡ self.now.wiring }
    {
        &self.wiring
    }
}
