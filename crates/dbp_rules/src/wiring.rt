// What the steps look up in a plan, made once.

ghost use Rattle.std.specs.Prelude.{◌≡◌, ◌+◌, ◌<◌, length};
ghost use Rattle.dbp_rules.specs.Lookups.{time, wired_task};

use crate::step::Count;
use dbp_plan::{Link, List, Sample};
use release_list::Release;

/// An end of a link.
#[derive(Clone, Copy)]
pub enum LinkEnd {
    /// The task whose outs the link carries.
    Writer,
    /// The task that reads them.
    Reader,
}

/// A read of a task, at its turn.
#[derive(Clone, Copy, Debug, PartialEq, Eq)]
pub struct ReadWiring {
    /// Its number among the task's reads.
    pub read: u32,
    /// The place of its link's order among those that the task hears.
    pub order: u32,
    /// The task that it reads.
    pub writer: u32,
    /// The writer's out.
    pub port: u32,
}

/// A task, as the steps see it.
#[derive(Drop)]
pub struct TaskWiring {
    /// How many outs it has.
    pub ports: u32,
    /// How many slots it has under the count.
    pub slots: u32,
    /// How many slots before the current one are kept: the longest delay of the links that leave it.
    pub kept: u32,
    /// 0 is the highest.
    pub rank: u32,
    /// The times of its instances.
    pub times: List<u64>,
    /// The links into it.
    pub links: List<u32>,
    /// The links that leave it.
    pub leaving: List<u32>,
    /// Its reads in the order of their turns: by the tick of the task's service, then by declaration.
    pub reads: List<ReadWiring>,
}

/// What the steps look up in a plan.
pub struct Wiring {
    /// Which links keep a writer from a slot.
    pub count: Count,
    /// By their numbers.
    pub tasks: List<TaskWiring>,
    /// The diagram's.
    pub links: List<Link>,
    /// The releaser's actions, in order.
    pub releases: List<Release>,
    /// The samples of each input.
    pub samples: List<List<Sample>>,
}

// By hand, as the prover then takes one step where a wiring is dropped, and not one for each part.
impl Drop for Wiring {
    fn drop(self) {
        let Wiring {
            count: _,
            tasks: _,
            links: _,
            releases: _,
            samples: _,
        } = self;
    }
}

impl TaskWiring {
    /// The time of the task's next instance after so many, in ticks; 0 if it has no more.
    pub fn next_time(&self, ended: u32) -> u64
        ensures { result ≡ time self.now (ended + 1) }
    {
        let next = ended as usize;
        let times = self.times.items();
        if next < times.len() { times[next] } else { 0 }
    }
}

impl Wiring {
    /// What the steps look up of the task.
    pub fn task(&self, task: u32) -> &TaskWiring
        requires { task < length self.now.tasks }
        ensures { result.now ≡ wired_task self.now task }
    {
        &self.tasks.items()[task as usize]
    }
}
