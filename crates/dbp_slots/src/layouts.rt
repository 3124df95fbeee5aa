// The addresses of the words of a run's table.
ghost use Rattle.std.specs.Prelude.{◌≡◌, ◌≤◌};
ghost use Rattle.dbp_plan.specs.declared.limits.TheConstants.{MAX_TASKS};
ghost use Rattle.dbp_slots.specs.LayoutBlocks.{BeginInOrder, sizes_by};
ghost use Rattle.dbp_slots.specs.TableWords.{word_count};

pub mod laying;

use dbp_plan::MAX_TASKS;

// The words of a task's slots.
#[derive(Clone, Copy)]
struct Block {
    // The first of them.
    begin: u32,
    slots: u32,
    // Words of each slot, beside its stamp.
    ports: u32,
}

/// The addresses of the words of a diagram's shared table, in words; word 0 is none of them. Tasks, links, slots and
/// ports are numbered from 0, and a call requires one that the diagram has. It takes no memory.
#[derive(Drop)]
pub struct Layout {
    tasks: u32,
    links: u32,
    // By the number of the task.
    blocks: [Block; MAX_TASKS as usize],
    // Words of the table.
    end: u32,
    ghost few: { tasks ≤ MAX_TASKS },
    ghost in_order: { BeginInOrder (sizes_by tasks links blocks) blocks tasks },
    ghost counted: { end ≡ word_count (sizes_by tasks links blocks) },
}

impl Layout {
    ghost use Rattle.std.specs.Prelude.{◌≡◌};
    ghost use Rattle.dbp_slots.specs.Layout.{sizes};
    ghost use Rattle.dbp_slots.specs.TableWords.{aim, claim, ended, gate, IsWord, address_of, stamp, word, word_count};

    /// The address of the task's gate.
    pub fn gate(&self, task: u32) -> u32
        requires { IsWord (sizes self.now) (gate task) }
        ensures { result ≡ address_of (sizes self.now) (gate task) }
    {
        1 + 3 * task
    }

    /// The address of the count of the task's instances that have ended.
    pub fn ended(&self, task: u32) -> u32
        requires { IsWord (sizes self.now) (ended task) }
        ensures { result ≡ address_of (sizes self.now) (ended task) }
    {
        2 + 3 * task
    }

    /// The address of the task's aim.
    pub fn aim(&self, task: u32) -> u32
        requires { IsWord (sizes self.now) (aim task) }
        ensures { result ≡ address_of (sizes self.now) (aim task) }
    {
        3 + 3 * task
    }

    /// The address of the link's claim.
    pub fn claim(&self, link: u32) -> u32
        requires { IsWord (sizes self.now) (claim link) }
        ensures { result ≡ address_of (sizes self.now) (claim link) }
    {
        1 + 3 * self.tasks + link
    }

    /// The address of the stamp of the task's slot.
    pub fn stamp(&self, task: u32, slot: u32) -> u32
        requires { IsWord (sizes self.now) (stamp task slot) }
        ensures { result ≡ address_of (sizes self.now) (stamp task slot) }
    {
        let block = self.blocks[task as usize];
        block.begin + slot * (1 + block.ports)
    }

    /// The address of the word for the port in the task's slot. It is among those after the slot's stamp.
    pub fn word(&self, task: u32, slot: u32, port: u32) -> u32
        requires { IsWord (sizes self.now) (word task slot port) }
        ensures { result ≡ address_of (sizes self.now) (word task slot port) }
    {
        self.stamp(task, slot) + 1 + port
    }

    /// How many words the table has, with word 0.
    pub fn word_count(&self) -> u32
        ensures { result ≡ word_count (sizes self.now) }
    {
        self.end
    }
}
