// What the releaser's part and a task's part say of a step without the rest of the state, and what each keeps by itself.

ghost use Rattle.std.specs.Prelude.{◌≡◌, ◌<◌, ℕ, ℤ, List as Items, Some, None, length, slice_get};
ghost use Rattle.dbp_plan.specs.declared.plan.Plan.{Plan};
ghost use Rattle.dbp_slots.specs.FreeSlot.{IsLeastFree};
ghost use Rattle.release_list.specs.declared.release.Release.TheVariants.{Aim as AimOf};
ghost use Rattle.dbp_rules.specs.PartyRules.{Loaded, claimed_in, releaser_after, releaser_refusal, kept_after_aim, task_after, task_refusal};
ghost use Rattle.dbp_rules.specs.PartyShapes.{IsNamedIn, ReleaserLoads, ReleaserShape, TaskLoads, TaskPartShape};
ghost use Rattle.dbp_rules.specs.Lookups.{entry_in, task, wired_task};
ghost use Rattle.dbp_rules.specs.Promises.{HasFreeSlotIn, IsLeastAimIn};
ghost use Rattle.dbp_rules.specs.Rules.{IsNamed, loaded_value, next, refusal};
ghost use Rattle.dbp_rules.specs.SharedWords.{made_by};
ghost use Rattle.dbp_rules.specs.Sound.{Sound};
ghost use Rattle.dbp_rules.specs.Start.{start_of};
ghost use Rattle.dbp_rules.specs.Wired.{wiring_of};
ghost use Rattle.dbp_rules.specs.declared.parts.ReleaserPart.{ReleaserPart};
ghost use Rattle.dbp_rules.specs.declared.parts.TaskPart.{TaskPart};
ghost use Rattle.dbp_rules.specs.declared.state.State.{State};
ghost use Rattle.dbp_rules.specs.declared.step.Count.{Count};
ghost use Rattle.dbp_rules.specs.declared.step.Count.TheVariants.{All};
ghost use Rattle.dbp_rules.specs.declared.step.Step.{Step};
ghost use Rattle.dbp_rules.specs.declared.wiring.Wiring.{Wiring};

/// Why a step isn't allowed is said by the part of the party that makes it: by the releaser's under both counts, by a
/// task's if tasks step in any order. If they step by their ranks, an allowed step is one that the task's part allows.
pub fn a_step_is_refused_by_its_party()
    ensures releaser { (w : Wiring) (s : State) (e : Step) → made_by e ≡ None → refusal w s e ≡ releaser_refusal w s.releaser e }
    ensures task { (w : Wiring) (s : State) (e : Step) (i : ℕ) → w.count ≡ All → made_by e ≡ Some i → refusal w s e ≡ task_refusal (wired_task w i) (task s i).part e }
    ensures allowed { (w : Wiring) (s : State) (e : Step) (i : ℕ) → made_by e ≡ Some i → refusal w s e ≡ None → task_refusal (wired_task w i) (task s i).part e ≡ None }
{}

/// What an allowed step makes of the part of its party is said by that part and what the step loads.
pub fn a_step_moves_its_party()
    ensures releaser { (p : Plan) (w : Wiring) (s : State) (e : Step) → made_by e ≡ None → (next p w s e).releaser ≡ releaser_after w s.releaser e (loaded_value w s e) }
    ensures task { (p : Plan) (w : Wiring) (s : State) (e : Step) (i : ℕ) → i < length s.tasks → made_by e ≡ Some i → (task (next p w s e) i).part ≡ task_after (wired_task w i) (task s i).part e (loaded_value w s e) }
{}

/// The places, numbers and slots of a part stay in range (`ReleaserShape`, `TaskPartShape`) after each step that it
/// allows, if what the step loads is in range.
pub fn a_party_keeps_its_part()
    ensures releaser { (p : Plan) (count : Count) (r : ReleaserPart) (e : Step) (l : Loaded) → ReleaserShape p (wiring_of p count) r → IsNamed p.diagram e
        → releaser_refusal (wiring_of p count) r e ≡ None → ReleaserLoads r e l → ReleaserShape p (wiring_of p count) (releaser_after (wiring_of p count) r e l) }
    ensures task { (p : Plan) (count : Count) (i : ℕ) (t : TaskPart) (e : Step) (l : Loaded) → i < length p.diagram.tasks → TaskPartShape (wiring_of p count) i t
        → task_refusal (wired_task (wiring_of p count) i) t e ≡ None → TaskLoads (wiring_of p count) i t e l → TaskPartShape (wiring_of p count) i (task_after (wired_task (wiring_of p count) i) t e l) }
{}

/// Before the first step the places, numbers and slots of each part are in range.
pub fn the_first_parts_are_in_shape()
    ensures releaser { (p : Plan) (count : Count) → ReleaserShape p (wiring_of p count) (start_of p (wiring_of p count)).releaser }
    ensures task { (p : Plan) (count : Count) (i : ℕ) → i < length p.diagram.tasks → TaskPartShape (wiring_of p count) i (task (start_of p (wiring_of p count)) i).part }
{}

/// In a sound state the places, numbers and slots of each part are in range, and so is what an allowed step loads.
pub fn sound_parts_are_in_shape()
    ensures releaser { (p : Plan) (count : Count) (rows : ℕ → ℕ → Items ℤ) (s : State) → Sound p (wiring_of p count) rows s → ReleaserShape p (wiring_of p count) s.releaser }
    ensures task { (p : Plan) (count : Count) (rows : ℕ → ℕ → Items ℤ) (s : State) (i : ℕ) → Sound p (wiring_of p count) rows s → i < length p.diagram.tasks → TaskPartShape (wiring_of p count) i (task s i).part }
    ensures releaser_loads { (p : Plan) (count : Count) (rows : ℕ → ℕ → Items ℤ) (s : State) (e : Step) → Sound p (wiring_of p count) rows s → IsNamed p.diagram e → ReleaserLoads s.releaser e (loaded_value (wiring_of p count) s e) }
    ensures task_loads { (p : Plan) (count : Count) (rows : ℕ → ℕ → Items ℤ) (s : State) (e : Step) (i : ℕ) → Sound p (wiring_of p count) rows s → i < length p.diagram.tasks → made_by e ≡ Some i
        → refusal (wiring_of p count) s e ≡ None → TaskLoads (wiring_of p count) i (task s i).part e (loaded_value (wiring_of p count) s e) }
{}

/// A least slot for each aim, from the releaser's part alone: the claimed slots and those that stay kept are fewer than a
/// task's slots, so if a task's aim comes next, and its last instance is known to have ended, the least slot that is in
/// neither may be aimed at.
pub fn a_releaser_has_a_free_slot()
    ensures few { (p : Plan) (count : Count) (r : ReleaserPart) (i : ℕ) → i < length p.diagram.tasks → length (entry_in r i).kept ≡ (wired_task (wiring_of p count) i).kept → HasFreeSlotIn (wiring_of p count) r i }
    ensures least { (p : Plan) (count : Count) (r : ReleaserPart) (i : ℕ) → length (entry_in r i).kept ≡ (wired_task (wiring_of p count) i).kept
        → slice_get (wiring_of p count).releases r.place ≡ Some (AimOf i) → (entry_in r i).aimed ≡ (entry_in r i).known → (slot : ℕ) × IsLeastAimIn (wiring_of p count) r i slot }
    ensures exact { (p : Plan) (count : Count) (r : ReleaserPart) (i slot : ℕ) → slice_get (wiring_of p count).releases r.place ≡ Some (AimOf i) → (entry_in r i).aimed ≡ (entry_in r i).known
        → IsLeastFree (claimed_in (wiring_of p count) r i) (kept_after_aim (entry_in r i)) (wired_task (wiring_of p count) i).slots slot → IsLeastAimIn (wiring_of p count) r i slot }
{}
