// Laws of the meaning: there is one, and no other, whatever the ranks are.

ghost use Rattle.std.specs.Prelude.{◌≡◌, List};
ghost use Rattle.dbp_plan.specs.BareDiagrams.{bare_diagram};
ghost use Rattle.dbp_plan.specs.declared.diagram.Diagram.{Diagram};
ghost use Rattle.dbp_plan.specs.declared.plan.Plan.{Plan};
ghost use Rattle.dbp_plan.specs.declared.schedule.Batch.{Batch};
ghost use Rattle.dbp_plan.specs.declared.schedule.Sample.{Sample};
ghost use Rattle.dbp_plan.specs.declared.table.Table.{Table};
ghost use Rattle.sync_meaning.specs.Meaning.{IsMeaning};

/// A plan has one meaning at most.
pub fn one_meaning()
    ensures { (p : Plan) (y z : Table) → IsMeaning p.diagram p.samples p.batches y → IsMeaning p.diagram p.samples p.batches z → y ≡ z }
{}

/// Each plan has a meaning.
pub fn some_meaning()
    ensures { (p : Plan) → (y : Table) × IsMeaning p.diagram p.samples p.batches y }
{}

/// Diagrams that differ in policy, end, prios, deadlines and ranks alone mean the same with the same samples and batches.
pub fn the_meaning_needs_no_ranks()
    ensures { (d e : Diagram) (samples : List Sample) (batches : List Batch) (y : Table) → bare_diagram d ≡ bare_diagram e
        → IsMeaning d samples batches y → IsMeaning e samples batches y }
{}
