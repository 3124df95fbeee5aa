// How many direct links lead from a task to another.

ghost use Rattle.std.specs.Prelude.{◌≡◌, ◌+◌, ◌<◌, ◌≤◌, ℕ, All, length};
ghost use Rattle.dbp_plan.specs.declared.limits.TheConstants.{MAX_TASKS};
ghost use Rattle.rank_find.specs.Distances.{AreDistances, AreLowered, AreNamed, AreReached};
ghost use Rattle.rank_find.specs.Links.{IsWriter};
ghost use Rattle.rank_find.specs.declared.distance.TheConstants.{FAR as far};

use dbp_plan::List;

// Farther than any distance.
pub(crate) const FAR: u32 = u32::MAX;

const _: () = prove!(FAR == 4_294_967_295);

// Brings these tasks to the distance, if they are farther.
fn lower(distances: &mut [u32], tasks: &[u32], distance: u32)
    requires { All (λ j. j < length distances.old) tasks.now }
    ensures { AreLowered tasks.now distance distances.old distances.new }
{
    for task in tasks {
        let task = *task as usize;
        if distance < distances[task] {
            distances[task] = distance;
        }
    }
}

// Brings the writers of all tasks at the distance to one step more, if they are farther.
fn reach(writers: &[List<u32>], distances: &mut [u32], distance: u32)
    requires named { AreNamed writers.now }
    requires size { length writers.now ≤ length distances.old }
    requires near { distance + 1 < far }
    ensures { AreReached writers.now (length writers.now) distance distances.old distances.new }
{
    for task in 0..writers.len() {
        if distances[task] == distance {
            lower(distances, writers[task].items(), distance + 1);
        }
    }
}

// How many direct links lead from each task to the start at least. At first the start is at 0, and all else is far.
pub(crate) fn measure(writers: &[List<u32>], distances: &mut [u32])
    requires named { AreNamed writers.now }
    requires size { length writers.now ≤ length distances.old }
    requires few { length writers.now ≤ MAX_TASKS }
    ensures size { length distances.new ≡ length distances.old }
    ensures distances { (start : ℕ) → AreDistances (IsWriter writers.now) start 0 distances.old
        → AreDistances (IsWriter writers.now) start (length writers.now) distances.new }
{
    for distance in 0..writers.len() {
        reach(writers, distances, distance as u32);
    }
}
