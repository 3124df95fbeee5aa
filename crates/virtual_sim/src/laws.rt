// What holds of the record and of the overrun of every plan.

ghost use Rattle.std.specs.Prelude.{◌≡◌, ◌⊎◌, ℕ, List as Items, [], slice_get, Some};
ghost use Rattle.dbp_plan.specs.declared.plan.Plan.{Plan};
ghost use Rattle.dbp_plan.specs.declared.schedule.Batch.{Batch};
ghost use Rattle.dbp_rules.specs.Lawful.{Leads};
ghost use Rattle.dbp_rules.specs.Start.{start_of};
ghost use Rattle.dbp_rules.specs.Wired.{wiring_of};
ghost use Rattle.dbp_rules.specs.declared.state.State.{State};
ghost use Rattle.dbp_rules.specs.declared.step.Count.TheVariants.{Ranked};
ghost use Rattle.dbp_rules.specs.declared.step.Step.{Step};
ghost use Rattle.instance_steps.specs.Events.{end_events};
ghost use Rattle.rank_order.specs.Ends.{IsEnd, IsOverrun};
ghost use Rattle.rank_order.specs.Instances.{Instance};
ghost use Rattle.rank_order.specs.Service.{left_of};
ghost use Rattle.rank_order.specs.ServiceOf.{service};
ghost use Rattle.virtual_sim.specs.Record.{HasEndAt, IsRecord, StandsAfterBatch, end_events_at};

/// A plan has a recorded list or an overrun: one of either at most, and never both.
pub fn a_plan_has_one_outcome()
    ensures some { (p : Plan) → ((script : Items Step) × IsRecord p script)
        ⊎ ((t : ℕ) × (x : Instance) × IsOverrun p (left_of p (service p)) t x) }
    ensures list { (p : Plan) (script other : Items Step) → IsRecord p script → IsRecord p other
        → script ≡ other }
    ensures time { (p : Plan) (t u : ℕ) (x y : Instance)
        → IsOverrun p (left_of p (service p)) t x → IsOverrun p (left_of p (service p)) u y
        → t ≡ u }
    ensures instance { (p : Plan) (t u : ℕ) (x y : Instance)
        → IsOverrun p (left_of p (service p)) t x → IsOverrun p (left_of p (service p)) u y
        → x ≡ y }
    ensures apart { (p : Plan) (script : Items Step) (t : ℕ) (x : Instance) → IsRecord p script
        → IsOverrun p (left_of p (service p)) t x → ⊥ }
{}

/// Each step of a recorded list is allowed where it is made, by the rules under `Ranked`.
pub fn a_recorded_list_is_ranked()
    ensures { (p : Plan) (script : Items Step) → IsRecord p script
        → (s : State) × Leads p (wiring_of p Ranked) (start_of p (wiring_of p Ranked)) script s }
{}

/// In a recorded list the steps by which an instance ends stand right after those of all ticks before its end, so they are
/// the first ones of that tick. They are the only such steps of the tick, and a tick at which no instance ends has none.
pub fn recorded_ends_stand_at_their_times()
    ensures there { (p : Plan) (script : Items Step) (x : Instance) (e : ℕ) → IsRecord p script
        → IsEnd (service p) x e → HasEndAt p script x.task e }
    ensures whole { (p : Plan) (script : Items Step) (x : Instance) (e : ℕ) → IsRecord p script
        → IsEnd (service p) x e → end_events_at p (service p) e ≡ end_events p x.task }
    ensures only { (p : Plan) (t : ℕ) → (end_events_at p (service p) t ≡ [])
        ⊎ ((x : Instance) × IsEnd (service p) x t
        × (end_events_at p (service p) t ≡ end_events p x.task)) }
{}

/// Right after each batch of its plan a recorded list stands at one front. This front plays the events of the ticks before
/// the batch, then those of the end in its tick, and then those of the batch. It leads from the start to a state in which
/// the batches so far are released, and no others.
pub fn a_record_stands_after_each_batch()
    ensures there { (p : Plan) (script : Items Step) (number : ℕ) (batch : Batch) → IsRecord p script
        → slice_get p.batches number ≡ Some batch → StandsAfterBatch p script number batch.time }
    ensures one { (p : Plan) (script : Items Step) (number time : ℕ)
        → (a : StandsAfterBatch p script number time) → (b : StandsAfterBatch p script number time)
        → a.front ≡ b.front }
{}
