// Copies of data that hold lists.

ghost use Rattle.std.specs.Prelude.{◌≡◌, IfOk};

use crate::{Batch, Diagram, Expr, Let, List, Next, NoMemory, Out, Task};

// What has an equal copy, unless memory runs out.
pub(crate) trait TryCopy: Drop {
    fn try_copy(&self) -> Result<Self, NoMemory>
        ensures { IfOk result (λ copy. copy ≡ self.now) };
}

impl<V: Copy> TryCopy for Expr<V> {
    fn try_copy(&self) -> Result<Expr<V>, NoMemory> {
        Ok(Expr {
            nodes: self.nodes.copied()?,
        })
    }
}

impl TryCopy for Let {
    fn try_copy(&self) -> Result<Let, NoMemory> {
        Ok(Let {
            name: self.name,
            expr: self.expr.try_copy()?,
        })
    }
}

impl TryCopy for Next {
    fn try_copy(&self) -> Result<Next, NoMemory> {
        Ok(Next {
            state: self.state,
            expr: self.expr.try_copy()?,
        })
    }
}

impl TryCopy for Out {
    fn try_copy(&self) -> Result<Out, NoMemory> {
        Ok(Out {
            name: self.name,
            first: self.first,
            expr: self.expr.try_copy()?,
        })
    }
}

impl TryCopy for Task {
    fn try_copy(&self) -> Result<Task, NoMemory> {
        Ok(Task {
            name: self.name,
            clock: self.clock,
            when: self.when,
            prio: self.prio,
            deadline: self.deadline,
            cost: self.cost,
            cpu: self.cpu,
            states: self.states.copied()?,
            senses: self.senses.copied()?,
            reads: self.reads.copied()?,
            lets: all_copied(&self.lets)?,
            order: self.order.copied()?,
            nexts: all_copied(&self.nexts)?,
            outs: all_copied(&self.outs)?,
        })
    }
}

impl TryCopy for Diagram {
    fn try_copy(&self) -> Result<Diagram, NoMemory> {
        Ok(Diagram {
            policy: self.policy,
            until: self.until,
            inputs: self.inputs.copied()?,
            events: self.events.copied()?,
            tasks: all_copied(&self.tasks)?,
            links: self.links.copied()?,
            ranks: self.ranks.copied()?,
        })
    }
}

impl TryCopy for Batch {
    fn try_copy(&self) -> Result<Batch, NoMemory> {
        Ok(Batch {
            time: self.time,
            tasks: self.tasks.copied()?,
        })
    }
}

// A list of copies of the items.
pub(crate) fn all_copied<T: TryCopy>(list: &List<T>) -> Result<List<T>, NoMemory>
    ensures { IfOk result (λ copy. copy ≡ list.now) }
{
    let mut copy = list.sized_like()?;
    for item in list.items() {
        copy.push(item.try_copy()?)?;
    }
    Ok(copy)
}
