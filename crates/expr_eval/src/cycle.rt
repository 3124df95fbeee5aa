// The first let on a cycle, and a cycle that begins with it.

ghost use Rattle.std.specs.Prelude.{◌≡◌, ℕ, ◌<◌, ◌≤◌, Contains, IfOk, MatchBool, MatchOption, length};
ghost use Rattle.dbp_plan.specs.declared.limits.TheConstants.{MAX_BODY};
ghost use Rattle.expr_eval.specs.LetOrders.{IsCycleFrom, IsFirstCycle, LiesOnCycle};
ghost use Rattle.expr_eval.specs.LetSearch.{AreAllLeading, IsFirstUsed, IsNextUser, LeadTo, UsesNoneOf, UsesOneOf};

use crate::variable::{is_among, uses, uses_one_of};
use dbp_plan::{Let, List, NoMemory};
use std::alloc::Global;

// A cycle of lets from the earliest one that lies on a cycle.
pub(crate) fn first_cycle(
    alloc: Global,
    lets: &List<Let>,
    base: u32,
) -> Result<Option<List<u32>>, NoMemory>
    requires { length lets.now ≤ MAX_BODY }
    ensures { IfOk result (λ found. MatchOption found ((i : ℕ) → i < length lets.now → LiesOnCycle base lets.now i → ⊥) (λ cycle. (first : ℕ) × IsFirstCycle base lets.now first cycle)) }
{
    for i in 0..lets.len() {
        let found = leading_to(alloc, lets, base, i)?;
        let cycle = cycle_from(alloc, lets, base, i, found.items())?;
        if cycle.is_some() {
            return Ok(cycle);
        }
    }
    Ok(None)
}

// The let, and all from which uses lead to it.
fn leading_to(
    alloc: Global,
    lets: &List<Let>,
    base: u32,
    target: u32,
) -> Result<List<u32>, NoMemory>
    requires few { length lets.now ≤ MAX_BODY }
    requires target { target < length lets.now }
    ensures lead { IfOk result (λ found. LeadTo base lets.now target found) }
    ensures all { IfOk result (λ found. AreAllLeading base lets.now found) }
{
    let mut found = List::new(alloc);
    found.push(target)?;
    while let Some(user) = next_user(lets, base, found.items()) {
        found.push(user)?;
    }
    Ok(found)
}

// The earliest let that isn't among these and uses one of them.
fn next_user(lets: &List<Let>, base: u32, found: &[u32]) -> Option<u32>
    ensures { MatchOption result (AreAllLeading base lets.now found.now) (IsNextUser base lets.now found.now) }
{
    for i in 0..lets.len() {
        if is_new_user(lets, base, i, found) {
            return Some(i);
        }
    }
    None
}

// Whether the let isn't among these and uses one of them.
fn is_new_user(lets: &List<Let>, base: u32, user: u32, found: &[u32]) -> bool
    requires { user < length lets.now }
    ensures { MatchBool result ((Contains found.now user → ⊥) × UsesOneOf base lets.now found.now user) ((Contains found.now user → ⊥) → UsesNoneOf base lets.now found.now user) }
{
    !is_among(user, found) && uses_one_of(lets, base, user, found)
}

// A cycle from the target, if it lies on one. It is the first of the lets that were found, and from each other one
// uses lead to it, each time to a let earlier.
fn cycle_from(
    alloc: Global,
    lets: &List<Let>,
    base: u32,
    target: u32,
    found: &[u32],
) -> Result<Option<List<u32>>, NoMemory>
    requires few { length lets.now ≤ MAX_BODY }
    requires lead { LeadTo base lets.now target found.now }
    requires all { AreAllLeading base lets.now found.now }
    ensures { IfOk result (λ cycle. MatchOption cycle (LiesOnCycle base lets.now target → ⊥) (IsCycleFrom base lets.now target)) }
{
    let mut user = target;
    let mut cycle = List::new(alloc);
    cycle.push(user)?;
    let mut bound = found.len();
    while let Some(place) = first_used(lets, base, user, &found[..bound]) {
        if place == 0 {
            return Ok(Some(cycle));
        }
        user = found[place];
        cycle.push(user)?;
        bound = place;
    }
    Ok(None)
}

// The first place of a let that the user uses.
fn first_used(lets: &List<Let>, base: u32, user: u32, found: &[u32]) -> Option<usize>
    requires { user < length lets.now }
    ensures { MatchOption result (UsesNoneOf base lets.now found.now user) (IsFirstUsed base lets.now found.now user) }
{
    for (place, used) in found.iter().enumerate() {
        if uses(lets, base, user, *used) {
            return Some(place);
        }
    }
    None
}
