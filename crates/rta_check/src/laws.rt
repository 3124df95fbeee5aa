// What the bounds of a diagram's tasks say of its plans.

ghost use Rattle.std.specs.Prelude.{◌≡◌, ◌<◌, ℕ, List as Items, length};
ghost use Rattle.dbp_plan.specs.declared.diagram.Diagram.{Diagram};
ghost use Rattle.dbp_plan.specs.declared.plan.Plan.{Plan};
ghost use Rattle.rank_order.specs.Ends.{NoOverrun};
ghost use Rattle.rank_order.specs.Order.{ServesByRank};
ghost use Rattle.rank_order.specs.Service.{left_of};
ghost use Rattle.rank_order.specs.ServiceOf.{service};
ghost use Rattle.rta_check.specs.declared.bound.Bound.{Bound};
ghost use Rattle.rta_check.specs.Bounds.{AreBounds, KeepsBounds};
ghost use Rattle.rta_check.specs.Periods.{IsPeriodic};
ghost use Rattle.rta_check.specs.Phases.{DiffersInPhase};
ghost use Rattle.rta_check.specs.Responses.{IsBound, IsResponse, KeepsBound};

/// A task has one bound.
pub fn one_bound()
    ensures there { (d : Diagram) (task : ℕ) → (b : Bound) × IsBound d task b }
    ensures only { (d : Diagram) (task : ℕ) (b c : Bound) → IsBound d task b → IsBound d task c
        → b ≡ c }
{}

/// Under service by rank, if no task is on an event, each least response time holds by itself: in each plan of the
/// diagram with any offsets, any end and any samples, whatever the other tasks' bounds are.
pub fn each_bound_holds_by_itself()
    ensures { (d : Diagram) (p : Plan) (task r : ℕ) → ServesByRank d → IsPeriodic d
        → IsResponse d task r → DiffersInPhase d p.diagram → KeepsBound p task r }
{}

/// Under service by rank, if no task is on an event and each has a least response time, no plan of the diagram with any
/// offsets, any end and any samples has an overrun.
pub fn bounded_tasks_do_not_overrun()
    ensures { (d : Diagram) (p : Plan) → ServesByRank d → IsPeriodic d
        → ((task : ℕ) → task < length d.tasks → (r : ℕ) × IsResponse d task r)
        → DiffersInPhase d p.diagram → NoOverrun p (left_of p (service p)) }
{}

/// A diagram has one list of bounds.
pub fn one_list_of_bounds()
    ensures there { (d : Diagram) → (bounds : Items Bound) × AreBounds d bounds }
    ensures only { (d : Diagram) (bounds others : Items Bound) → AreBounds d bounds → AreBounds d others
        → bounds ≡ others }
{}

/// Under service by rank, if no task is on an event, each plan of the diagram with any offsets, any end and any samples
/// keeps the diagram's bounds.
pub fn bounds_are_kept()
    ensures { (d : Diagram) (bounds : Items Bound) (p : Plan) → ServesByRank d → IsPeriodic d
        → AreBounds d bounds → DiffersInPhase d p.diagram → KeepsBounds bounds p }
{}
