// What holds of the service of every plan on its processors, and of its record and its overrun there.

ghost use Rattle.std.specs.Prelude.{◌≡◌, ◌≢◌, ◌↔◌, ◌⊎◌, ◌+◌, ◌<◌, ◌∷◌, ◌++◌, ℕ, List as Items, [], All, Option, Some, false, length, slice_index, slice_index_or};
ghost use Rattle.dbp_plan.specs.declared.plan.Plan.{Plan};
ghost use Rattle.dbp_rules.specs.Lawful.{Leads};
ghost use Rattle.dbp_rules.specs.Rules.{hears};
ghost use Rattle.dbp_rules.specs.Start.{start_of};
ghost use Rattle.dbp_rules.specs.Wired.{wiring_of};
ghost use Rattle.dbp_rules.specs.declared.state.State.{State};
ghost use Rattle.dbp_rules.specs.declared.step.Count.TheVariants.{All as AllTasks};
ghost use Rattle.dbp_rules.specs.declared.step.Heard.TheVariants.{Closed, NotYet};
ghost use Rattle.dbp_rules.specs.declared.step.Step.{Step};
ghost use Rattle.rank_order.specs.Ends.{IsEnd, IsOverrun, NoOverrun};
ghost use Rattle.rank_order.specs.Instances.{Instance, IsInstance};
ghost use Rattle.rank_order.specs.Service.{Waits, left_of};
ghost use Rattle.rank_order.specs.ServiceOf.{service};
ghost use Rattle.cpu_sim.specs.Outcomes.{AreCpuEnds};
ghost use Rattle.cpu_sim.specs.Processors.{IsServiceOn, cpu_of, is_blocked, left_on, served_on};
ghost use Rattle.cpu_sim.specs.Record.{IsCpuRecord};
ghost use Rattle.cpu_sim.specs.Services.{services};

/// Each plan says of each processor and each tick which instance is served there, and there is one service that meets
/// what it says.
pub fn a_plan_has_one_service_on_its_processors()
    ensures there { (p : Plan) → IsServiceOn p (services p) }
    ensures only { (p : Plan) (serve : ℕ → ℕ → Option Instance) → IsServiceOn p serve
        → (c t : ℕ) → serve c t ≡ services p c t }
{}

/// Where all tasks are on one processor, nobody is passed over: it serves what the service of one processor does, each
/// instance has the same end, so lists of ends are the same, and there is the same overrun, or none.
pub fn one_processor_serves_as_before()
    ensures serves { (p : Plan) (c : ℕ) → All (λ t. t.cpu ≡ c) p.diagram.tasks
        → (t : ℕ) → services p c t ≡ service p t }
    ensures ends { (p : Plan) (c : ℕ) → All (λ t. t.cpu ≡ c) p.diagram.tasks
        → (x : Instance) (e : ℕ) → IsInstance p x → IsEnd (services p (cpu_of p x)) x e ↔ IsEnd (service p) x e }
    ensures listed { (p : Plan) (c : ℕ) → All (λ t. t.cpu ≡ c) p.diagram.tasks
        → (ends : Items (Items ℕ)) (i k : ℕ) → AreCpuEnds p ends → i < length p.diagram.tasks
        → k < length (slice_index_or ends i [])
        → IsEnd (service p) (record { task = i; number = k + 1 }) (slice_index (slice_index_or ends i []) k) }
    ensures overrun { (p : Plan) (c : ℕ) → All (λ t. t.cpu ≡ c) p.diagram.tasks
        → (t : ℕ) (x : Instance) → IsOverrun p (left_on p (services p)) t x ↔ IsOverrun p (left_of p (service p)) t x }
    ensures none { (p : Plan) (c : ℕ) → All (λ t. t.cpu ≡ c) p.diagram.tasks
        → NoOverrun p (left_on p (services p)) ↔ NoOverrun p (left_of p (service p)) }
{}

/// Where an instance waits that isn't blocked, its processor serves: one that is blocked doesn't keep it idle.
pub fn a_processor_passes_over_the_blocked()
    ensures { (p : Plan) (t : ℕ) (x : Instance) → Waits p (left_on p (services p)) t x
        → is_blocked p (served_on p (services p) t) x ≡ false
        → (z : Instance) × (services p (cpu_of p x) t ≡ Some z) }
{}

/// At each time at which an instance that was released has something left, some processor serves.
pub fn some_processor_serves()
    ensures { (p : Plan) (t : ℕ) (x : Instance) → Waits p (left_on p (services p)) t x
        → (c : ℕ) × (z : Instance) × (services p c t ≡ Some z) }
{}

/// A plan has a recorded list on its processors or an overrun: one of either at most, and never both.
pub fn a_plan_has_one_outcome_on_its_processors()
    ensures some { (p : Plan) → ((script : Items Step) × IsCpuRecord p script)
        ⊎ ((t : ℕ) × (x : Instance) × IsOverrun p (left_on p (services p)) t x) }
    ensures list { (p : Plan) (script other : Items Step) → IsCpuRecord p script
        → IsCpuRecord p other → script ≡ other }
    ensures time { (p : Plan) (t u : ℕ) (x y : Instance)
        → IsOverrun p (left_on p (services p)) t x → IsOverrun p (left_on p (services p)) u y
        → t ≡ u }
    ensures instance { (p : Plan) (t u : ℕ) (x y : Instance)
        → IsOverrun p (left_on p (services p)) t x → IsOverrun p (left_on p (services p)) u y
        → x ≡ y }
    ensures apart { (p : Plan) (script : Items Step) (t : ℕ) (x : Instance) → IsCpuRecord p script
        → IsOverrun p (left_on p (services p)) t x → ⊥ }
{}

/// Each step of a recorded list is allowed where it is made, by the rules under `All`; no start finds its gate closed, and
/// no look misses its row.
pub fn a_record_on_processors_is_lawful()
    ensures leads { (p : Plan) (script : Items Step) → IsCpuRecord p script
        → (s : State) × Leads p (wiring_of p AllTasks) (start_of p (wiring_of p AllTasks)) script s }
    ensures moves { (p : Plan) (front : Items Step) (e : Step) (rest : Items Step)
        → IsCpuRecord p (front ++ e ∷ rest)
        → (s : State) × Leads p (wiring_of p AllTasks) (start_of p (wiring_of p AllTasks)) front s
        × (hears (wiring_of p AllTasks) s e ≢ Closed) × (hears (wiring_of p AllTasks) s e ≢ NotYet) }
{}
