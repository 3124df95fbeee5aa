// What the list says, proved of every plan.
ghost use Rattle.std.specs.Prelude.{◌≡◌, ℕ, ◌+◌, ◌≤◌, List as Items, length, slice_get, Some};
ghost use Rattle.dbp_plan.specs.Plan.{IsPlan};
ghost use Rattle.dbp_plan.specs.declared.diagram.Diagram.{Diagram};
ghost use Rattle.dbp_plan.specs.declared.diagram.Link.{Link};
ghost use Rattle.dbp_plan.specs.declared.schedule.Batch.{Batch};
ghost use Rattle.dbp_plan.specs.declared.schedule.Sample.{Sample};
ghost use Rattle.release_list.specs.Releases.{batch_start, releases_at, releases_of};
ghost use Rattle.release_list.specs.Schedule.{IsSchedule};
ghost use Rattle.release_list.specs.declared.release.Release.{Release};

/// The releaser's list keeps the order of the protocol: an instance is aimed first, then the links into its task are
/// claimed for it, then its gate is opened; and a claim stands after all aims of its time.
pub fn releases_are_a_schedule()
    ensures { (d : Diagram) (samples : Items Sample) (batches : Items Batch) → IsPlan d samples batches → IsSchedule d batches (releases_of d.links batches) }
{}

/// The actions of each batch stand together in the list. They begin where those of the batch before it end, and those
/// of the last batch end with the list.
pub fn a_batch_stands_together()
    ensures first { (links : Items Link) (batches : Items Batch) → batch_start links batches 0 ≡ 0 }
    ensures next { (links : Items Link) (batches : Items Batch) (number : ℕ) (batch : Batch)
        → slice_get batches number ≡ Some batch
        → batch_start links batches (number + 1)
        ≡ batch_start links batches number + length (releases_at links batch) }
    ensures end { (links : Items Link) (batches : Items Batch) (number : ℕ) → length batches ≤ number
        → batch_start links batches number ≡ length (releases_of links batches) }
    ensures item { (links : Items Link) (batches : Items Batch) (number index : ℕ) (batch : Batch) (action : Release)
        → slice_get batches number ≡ Some batch → slice_get (releases_at links batch) index ≡ Some action
        → slice_get (releases_of links batches) (batch_start links batches number + index) ≡ Some action }
{}
