// Which lets an expression uses.

ghost use Rattle.std.specs.Prelude.{◌≡◌, ◌+◌, ◌<◌, ◌↔◌, ℕ, Contains, IsTrue, MatchBool, MatchOption, length};
ghost use Rattle.dbp_plan.specs.declared.node.Node.TheVariants.{Var};
ghost use Rattle.expr_eval.specs.LetOrders.{Uses};
ghost use Rattle.expr_eval.specs.LetSearch.{UsesNoneOf, UsesOneOf};

use dbp_plan::{Let, List, Node};

// The place of the let whose variable the node is.
pub(crate) fn used_let(node: Node<u32>, base: u32) -> Option<u32>
    ensures { MatchOption result ((j : ℕ) → node ≡ Var (base + j) → ⊥) (λ j. node ≡ Var (base + j)) }
{
    match node {
        Node::Var(variable) => variable.checked_sub(base),
        _ => None,
    }
}

// Whether the number is one of these.
pub(crate) fn is_among(number: u32, numbers: &[u32]) -> bool
    ensures { IsTrue result ↔ Contains numbers.now number }
{
    numbers.contains(&number)
}

// Whether the node is the variable of one of these lets.
fn refers_to_one_of(node: Node<u32>, base: u32, lets: &[u32]) -> bool
    ensures { MatchBool result ((j : ℕ) × Contains lets.now j × (node ≡ Var (base + j))) ((j : ℕ) → Contains lets.now j → node ≡ Var (base + j) → ⊥) }
{
    match used_let(node, base) {
        Some(used) => is_among(used, lets),
        None => false,
    }
}

// Whether the node is the variable of a let that isn't one of these.
pub(crate) fn refers_to_another(node: Node<u32>, base: u32, lets: &[u32]) -> bool
    ensures { MatchBool result ((j : ℕ) × (node ≡ Var (base + j)) × (Contains lets.now j → ⊥)) ((j : ℕ) → node ≡ Var (base + j) → Contains lets.now j) }
{
    match used_let(node, base) {
        Some(used) => !is_among(used, lets),
        None => false,
    }
}

// Whether the let uses the other.
pub(crate) fn uses(lets: &List<Let>, base: u32, user: u32, used: u32) -> bool
    requires { user < length lets.now }
    ensures { MatchBool result (Uses base lets.now user used) (Uses base lets.now user used → ⊥) }
{
    for node in lets.items()[user as usize].expr.nodes.items() {
        if used_let(*node, base) == Some(used) {
            return true;
        }
    }
    false
}

// Whether the let uses one of these.
pub(crate) fn uses_one_of(lets: &List<Let>, base: u32, user: u32, found: &[u32]) -> bool
    requires { user < length lets.now }
    ensures { MatchBool result (UsesOneOf base lets.now found.now user) (UsesNoneOf base lets.now found.now user) }
{
    for node in lets.items()[user as usize].expr.nodes.items() {
        if refers_to_one_of(*node, base, found) {
            return true;
        }
    }
    false
}
