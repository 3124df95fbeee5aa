// The order in which lets are evaluated.

ghost use Rattle.std.specs.Prelude.{◌≡◌, ℕ, ◌+◌, ◌<◌, ◌≤◌, All, Contains, List as Items, IfErr, IfOk, MatchBool, MatchOption, length};
ghost use Rattle.dbp_plan.specs.LetOrder.{IsLetOrder, VariablesBelow};
ghost use Rattle.dbp_plan.specs.declared.limits.TheConstants.{MAX_BODY};
ghost use Rattle.dbp_plan.specs.declared.diagram.Let.{Let};
ghost use Rattle.expr_eval.specs.LetOrders.{AllWait, AreNamesOf, IsFailOf, IsCycle, IsFrontOrder, IsNextReady, IsReady, Waits};

use crate::cycle::first_cycle;
use crate::variable::{is_among, refers_to_another};
use dbp_plan::{Let, List, Name, NoMemory};
use std::alloc::Global;

/// Why lets have no order of evaluation.
#[derive(Drop)]
pub enum LetFail {
    /// Lets use each other in a cycle. `first` is the place of the earliest let that lies on a cycle, and `names` are
    /// those of the lets of a cycle from it on: each uses the next, and the last uses the first.
    Cycle { first: u32, names: List<Name> },
    /// Memory ran out.
    NoMemory,
}

impl From<NoMemory> for LetFail {
    ghost use Rattle.expr_eval.specs.declared.order.LetFail.TheVariants.{NoMemory as OutOfMemory};

    ghost from_gives = { λ _ e. e ≡ OutOfMemory };

    fn from(_: NoMemory) -> Self {
        LetFail::NoMemory
    }
}

/// The lets in the order of evaluation from the front, by their places from 0: each time the earliest let that isn't
/// placed yet and whose used lets all are. The variable of a let is the base plus its place; variables below the base are no lets.
/// There are at most `MAX_BODY` lets. Refused exactly if lets use each other in a cycle.
pub fn order_lets(alloc: Global, lets: &List<Let>, base: u32) -> Result<List<u32>, LetFail>
    requires few { length lets.now ≤ MAX_BODY }
    requires variables { All (λ l. VariablesBelow (base + length lets.now) l.expr.nodes) lets.now }
    ensures front { IfOk result (λ order. IsFrontOrder base lets.now order) }
    ensures order { IfOk result (λ order. IsLetOrder base lets.now order) }
    ensures fail { IfErr result (λ fail. IsFailOf base lets.now fail) }
{
    let mut order = List::new(alloc);
    while let Some(next) = next_ready(lets, base, order.items()) {
        order.push(next)?;
    }
    if order.len() == lets.len() {
        return Ok(order);
    }
    // no order stops short without a cycle
    let Some(cycle) = first_cycle(alloc, lets, base)? else {
        unreachable!()
    };
    let names = names_of(alloc, lets, cycle.items())?;
    Err(LetFail::Cycle {
        first: cycle.items()[0],
        names,
    })
}

/// No lets have both an order and a cycle.
pub fn no_order_of_a_cycle()
    ensures { (base : ℕ) (lets : Items Let) (order cycle : Items ℕ) → IsLetOrder base lets order → IsCycle base lets cycle → ⊥ }
{}

/// Lets have one order from the front at most.
pub fn one_front_order()
    ensures { (base : ℕ) (lets : Items Let) (one other : Items ℕ) → IsFrontOrder base lets one → IsFrontOrder base lets other → one ≡ other }
{}

// The earliest let that isn't placed and is ready.
fn next_ready(lets: &List<Let>, base: u32, placed: &[u32]) -> Option<u32>
    ensures { MatchOption result (AllWait base lets.now placed.now) (IsNextReady base lets.now placed.now) }
{
    for i in 0..lets.len() {
        if is_candidate(lets, base, placed, i) {
            return Some(i);
        }
    }
    None
}

// Whether the let isn't placed and is ready.
fn is_candidate(lets: &List<Let>, base: u32, placed: &[u32], user: u32) -> bool
    requires { user < length lets.now }
    ensures { MatchBool result ((Contains placed.now user → ⊥) × IsReady base lets.now placed.now user) ((Contains placed.now user → ⊥) → Waits base lets.now placed.now user) }
{
    !is_among(user, placed) && is_ready(lets, base, placed, user)
}

// Whether all lets that the let uses are placed.
fn is_ready(lets: &List<Let>, base: u32, placed: &[u32], user: u32) -> bool
    requires { user < length lets.now }
    ensures { MatchBool result (IsReady base lets.now placed.now user) (Waits base lets.now placed.now user) }
{
    for node in lets.items()[user as usize].expr.nodes.items() {
        if refers_to_another(*node, base, placed) {
            return false;
        }
    }
    true
}

// The names of the lets at these places.
fn names_of(alloc: Global, lets: &List<Let>, numbers: &[u32]) -> Result<List<Name>, NoMemory>
    requires named { All (λ i. i < length lets.now) numbers.now }
    requires few { length numbers.now ≤ length lets.now }
    ensures { IfOk result (λ names. AreNamesOf lets.now numbers.now names) }
{
    let mut names = List::new(alloc);
    for i in numbers {
        names.push(lets.items()[*i as usize].name)?;
    }
    Ok(names)
}
