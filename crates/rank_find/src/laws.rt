// Laws of orders and of cycles.

ghost use Rattle.std.specs.Prelude.{◌≡◌, ◌<◌, ◌^◌, ℕ, List as Items, length};
ghost use Rattle.dbp_plan.specs.Closed.{IsClosed};
ghost use Rattle.dbp_plan.specs.Cycles.{IsCycle};
ghost use Rattle.dbp_plan.specs.declared.diagram.Diagram.{Diagram};
ghost use Rattle.dbp_plan.specs.Ranking.{IsByRank};
ghost use Rattle.dbp_plan.specs.Ranks.{ranks_of};
ghost use Rattle.dia_check.specs.Diagrams.{IsDiagramOf};
ghost use Rattle.dia_read.specs.declared.document.Body.{Body};
ghost use Rattle.rank_find.specs.Bodies.{ranked_body};
ghost use Rattle.rank_find.specs.FirstCycles.{IsFirstCycle};
ghost use Rattle.rank_find.specs.Finds.{AreNamesOfFirstCycle};
ghost use Rattle.rank_find.specs.Links.{WritesTo};
ghost use Rattle.rank_find.specs.Orders.{HoldsEachOnce, IsOrder};

/// A diagram has one order at most.
pub fn one_order()
    ensures { (d : Diagram) (one other : Items ℕ) → IsOrder d one → IsOrder d other → one ≡ other }
{}

/// A diagram has one first cycle at most, and so one list of its names.
pub fn one_first_cycle()
    ensures cycle { (d : Diagram) (start begin : ℕ) (one other : Items ℕ) → IsFirstCycle (WritesTo d) start one
        → IsFirstCycle (WritesTo d) begin other → one ≡ other }
    ensures names { (d : Diagram) (one other : Items (Items ℕ)) → AreNamesOfFirstCycle d one
        → AreNamesOfFirstCycle d other → one ≡ other }
{}

/// No closed diagram has both an order and a cycle of direct links.
pub fn no_order_of_a_cycle()
    ensures { (d : Diagram) (order cycle : Items ℕ) → IsClosed d → IsOrder d order → IsCycle (WritesTo d) cycle → ⊥ }
{}

/// The tasks of a body with priorities by an order are ranked in this order. There are fewer than 2^32, so that each has
/// a priority of its own.
pub fn ranked_bodies_are_ranked_by_their_order()
    ensures { (body : Body) (order : Items ℕ) (d : Diagram) → length body.tasks < 2 ^ 32
        → HoldsEachOnce (length body.tasks) order → IsDiagramOf (ranked_body body order) d → IsByRank (ranks_of d.policy d.tasks) order }
{}

/// A closed diagram whose direct links form no cycle has an order.
pub fn some_order()
    ensures { (d : Diagram) → IsClosed d → ((cycle : Items ℕ) → IsCycle (WritesTo d) cycle → ⊥)
        → (order : Items ℕ) × IsOrder d order }
{}
