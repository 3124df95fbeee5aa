// The numbers of a few tasks.

ghost use Rattle.std.specs.Prelude.{◌≡◌, ◌+◌, ◌^◌, ◌<◌, ◌↔◌, [], ◌∷◌, ◌++◌, length, IfOk, IsTrue, OnOk, OnErr};
ghost use Rattle.dbp_plan.specs.TaskNumbers.{AreCounted, numbers_of};

use crate::{List, NoMemory};
use std::alloc::Global;
use std::marker::Model;

/// A list of numbers of tasks, of at most 4294967295 items, which takes no memory for the first three: at most times
/// few tasks occur together. A contract sees the list of its items.
#[derive(Drop)]
pub struct TaskNumbers {
    alloc: Global,
    numbers: Numbers,
}

// Few numbers stand here themselves and more in a list, so that all take two words.
#[derive(Drop)]
enum Numbers {
    Zero([u32; 0]),
    One([u32; 1]),
    Two([u32; 2]),
    Three([u32; 3]),
    More(Box<List<u32>>),
}

impl Model for TaskNumbers {
    ghost use Rattle.std.specs.Prelude.{List, ℕ};
    ghost use Rattle.dbp_plan.specs.TaskNumbers.{AreCounted, numbers_of};

    ghost Value = { List ℕ };

    ghost view = { λ l. numbers_of l.numbers };

    ghost invariant = { λ l. AreCounted l.numbers };
}

impl TaskNumbers {
    /// The empty list.
    pub fn new(alloc: Global) -> TaskNumbers
        ensures { result ≡ [] }
    {
        TaskNumbers {
            alloc,
            numbers: Numbers::Zero([]),
        }
    }

    /// Adds the number at the end. If memory runs out the list stays as it was.
    pub fn push(&mut self, task: u32) -> Result<(), NoMemory>
        requires { length self.old + 1 < 2 ^ 32 }
        ensures ok { OnOk result (self.new ≡ self.old ++ task ∷ []) }
        ensures err { OnErr result (self.new ≡ self.old) }
    {
        let alloc = self.alloc;
        self.numbers.push(alloc, task)
    }

    /// All numbers, in order.
    pub fn items(&self) -> &[u32]
        ensures value { result.now ≡ self.now }
        // callers don't see the type's bound on the length
        ensures fits { length self.now < 2 ^ 32 }
    {
        match &self.numbers {
            Numbers::Zero(numbers) => numbers,
            Numbers::One(numbers) => numbers,
            Numbers::Two(numbers) => numbers,
            Numbers::Three(numbers) => numbers,
            Numbers::More(list) => list.items(),
        }
    }

    /// The number of items.
    pub fn len(&self) -> u32
        ensures { result ≡ length self.now }
    {
        self.items().len() as u32
    }

    /// Whether there are no items.
    pub fn is_empty(&self) -> bool
        ensures { IsTrue result ↔ (self.now ≡ []) }
    {
        self.items().is_empty()
    }

    /// An equal list.
    pub fn copied(&self) -> Result<TaskNumbers, NoMemory>
        ensures { IfOk result (λ copy. copy ≡ self.now) }
    {
        Ok(TaskNumbers {
            alloc: self.alloc,
            numbers: self.numbers.copied(self.alloc)?,
        })
    }
}

impl Numbers {
    // Adds the number at the end. If memory runs out they stay as they were.
    fn push(&mut self, alloc: Global, task: u32) -> Result<(), NoMemory>
        requires counted { AreCounted self.old }
        requires room { length (numbers_of self.old) + 1 < 2 ^ 32 }
        ensures counted { AreCounted self.new }
        ensures ok { OnOk result (numbers_of self.new ≡ numbers_of self.old ++ task ∷ []) }
        ensures err { OnErr result (numbers_of self.new ≡ numbers_of self.old) }
    {
        let more = match self {
            Numbers::Zero(_) => Numbers::One([task]),
            Numbers::One(numbers) => Numbers::Two([numbers[0], task]),
            Numbers::Two(numbers) => Numbers::Three([numbers[0], numbers[1], task]),
            Numbers::Three(numbers) => {
                let [first, second, third] = *numbers;
                Numbers::More(boxed(alloc, &[first, second, third, task])?)
            }
            Numbers::More(list) => return list.push(task),
        };
        *self = more;
        Ok(())
    }

    // The same numbers.
    fn copied(&self, alloc: Global) -> Result<Numbers, NoMemory>
        requires { AreCounted self.now }
        ensures counted { IfOk result (λ copy. AreCounted copy) }
        ensures numbers { IfOk result (λ copy. numbers_of copy ≡ numbers_of self.now) }
    {
        match self {
            Numbers::Zero(numbers) => Ok(Numbers::Zero(*numbers)),
            Numbers::One(numbers) => Ok(Numbers::One(*numbers)),
            Numbers::Two(numbers) => Ok(Numbers::Two(*numbers)),
            Numbers::Three(numbers) => Ok(Numbers::Three(*numbers)),
            Numbers::More(list) => Ok(Numbers::More(Box::new(alloc, list.copied()?)?)),
        }
    }
}

// A list of the four numbers, in a place of its own.
fn boxed(alloc: Global, numbers: &[u32; 4]) -> Result<Box<List<u32>>, NoMemory>
    requires { length numbers.now ≡ 4 }
    ensures { IfOk result (λ list. list.value ≡ numbers.now) }
{
    let mut list = List::with_capacity(alloc, 4)?;
    list.push(numbers[0])?;
    list.push(numbers[1])?;
    list.push(numbers[2])?;
    list.push(numbers[3])?;
    Ok(Box::new(alloc, list)?)
}

const _: () = prove!(size_of::<TaskNumbers>() == 16);
