// What holds of every sound state, and of each step that is allowed in one. If a law speaks of values, the rows are
// those of a table that meets the meaning's equations.

ghost use Rattle.std.specs.Prelude.{◌≡◌, ◌<◌, ℕ, ℤ, List as Items, Some, None, length, slice_get, slice_index_or};
ghost use Rattle.dbp_plan.specs.declared.plan.Plan.{Plan};
ghost use Rattle.dbp_plan.specs.declared.table.Table.{Table};
ghost use Rattle.dbp_plan.specs.Lookups.{declared_task, no_read};
ghost use Rattle.dbp_slots.specs.FreeSlot.{IsLeastFree};
ghost use Rattle.release_list.specs.declared.release.Release.TheVariants.{Aim as AimOf};
ghost use Rattle.sync_meaning.specs.Meaning.{IsMeaning};
ghost use Rattle.dbp_plan.specs.Table.{table_row};
ghost use Rattle.dbp_rules.specs.Lookups.{link, task_entry, wired_task};
ghost use Rattle.dbp_rules.specs.Promises.{HasFreeSlot, IsClaimFilled, IsLeastAim, IsUnclaimed, SparesClaims, TakesTheMeaning, claimed_of};
ghost use Rattle.dbp_rules.specs.Rules.{IsNamed, hears, next, refusal, kept_after_aim};
ghost use Rattle.dbp_rules.specs.SharedWords.{KeepsOtherParts, KeepsOtherWords, made_by, stored_by};
ghost use Rattle.dbp_rules.specs.Sound.{Sound};
ghost use Rattle.dbp_rules.specs.Start.{start_of};
ghost use Rattle.dbp_rules.specs.TenParts.{HoldsInTenParts};
ghost use Rattle.dbp_rules.specs.Wired.{wiring_of};
ghost use Rattle.dbp_rules.specs.declared.state.State.{State};
ghost use Rattle.dbp_rules.specs.declared.step.Count.{Count};
ghost use Rattle.dbp_rules.specs.declared.step.Count.TheVariants.{All, Ranked};
ghost use Rattle.dbp_rules.specs.declared.step.Heard.TheVariants.{Ready};
ghost use Rattle.dbp_rules.specs.declared.step.Step.{Step};
ghost use Rattle.dbp_rules.specs.declared.step.Step.TheVariants.{Aim, Look, Take};

/// The ten parts of docs/PROTOCOL.md (`HoldsInTenParts`) hold of exactly the states that are sound (`Sound`).
pub fn soundness_has_ten_parts()
    ensures parts { (p : Plan) (count : Count) (rows : ℕ → ℕ → Items ℤ) (s : State) → Sound p (wiring_of p count) rows s → HoldsInTenParts p (wiring_of p count) rows s }
    ensures records { (p : Plan) (count : Count) (rows : ℕ → ℕ → Items ℤ) (s : State) → HoldsInTenParts p (wiring_of p count) rows s → Sound p (wiring_of p count) rows s }
{}

/// The state before the first step is sound.
pub fn the_start_is_sound()
    ensures { (p : Plan) (count : Count) (table : Table) → IsMeaning p.diagram p.samples p.batches table → Sound p (wiring_of p count) (table_row table) (start_of p (wiring_of p count)) }
{}

/// Each allowed step keeps a state sound, under both counts.
pub fn a_step_keeps_a_state_sound()
    ensures { (p : Plan) (count : Count) (table : Table) (s : State) (e : Step) → IsMeaning p.diagram p.samples p.batches table → Sound p (wiring_of p count) (table_row table) s
        → IsNamed p.diagram e → refusal (wiring_of p count) s e ≡ None → Sound p (wiring_of p count) (table_row table) (next p (wiring_of p count) s e) }
{}

/// Each allowed step changes no word but the one that it stores, and no other party's part.
pub fn a_step_stores_one_word()
    ensures words { (p : Plan) (count : Count) (rows : ℕ → ℕ → Items ℤ) (s : State) (e : Step) → Sound p (wiring_of p count) rows s → IsNamed p.diagram e → refusal (wiring_of p count) s e ≡ None
        → KeepsOtherWords (stored_by s e) s (next p (wiring_of p count) s e) }
    ensures parts { (p : Plan) (count : Count) (rows : ℕ → ℕ → Items ℤ) (s : State) (e : Step) → Sound p (wiring_of p count) rows s → IsNamed p.diagram e
        → KeepsOtherParts (made_by e) s (next p (wiring_of p count) s e) }
{}

/// Under `All` no allowed aim names a slot that a standing claim names, in any state.
pub fn an_aim_spares_claimed_slots()
    ensures { (p : Plan) (s : State) (i slot : ℕ) → refusal (wiring_of p All) s (Aim i slot) ≡ None → IsUnclaimed (wiring_of p All) s i slot }
{}

/// In a sound state no allowed step changes a slot that a claim of an instance which hasn't ended names, except the steps
/// by which the claimed instance itself fills it; under both counts.
pub fn a_step_spares_claimed_rows()
    ensures { (p : Plan) (count : Count) (rows : ℕ → ℕ → Items ℤ) (s : State) (e : Step) → Sound p (wiring_of p count) rows s → IsNamed p.diagram e → refusal (wiring_of p count) s e ≡ None
        → SparesClaims p (wiring_of p count) s e }
{}

/// The claimed slots and those that stay kept are fewer than a task's slots. So if a task's aim comes next, and its
/// last instance is known to have ended, there is a least slot that may be aimed at: the least that is in neither.
pub fn a_slot_is_free_for_each_aim()
    ensures few { (p : Plan) (count : Count) (rows : ℕ → ℕ → Items ℤ) (s : State) (i : ℕ) → Sound p (wiring_of p count) rows s → i < length p.diagram.tasks → HasFreeSlot (wiring_of p count) s i }
    ensures least { (p : Plan) (count : Count) (rows : ℕ → ℕ → Items ℤ) (s : State) (i : ℕ) → Sound p (wiring_of p count) rows s
        → slice_get (wiring_of p count).releases s.releaser.place ≡ Some (AimOf i) → (task_entry s i).aimed ≡ (task_entry s i).known → (slot : ℕ) × IsLeastAim (wiring_of p count) s i slot }
    ensures exact { (p : Plan) (count : Count) (s : State) (i slot : ℕ) → slice_get (wiring_of p count).releases s.releaser.place ≡ Some (AimOf i) → (task_entry s i).aimed ≡ (task_entry s i).known
        → IsLeastFree (claimed_of (wiring_of p count) s i) (kept_after_aim (task_entry s i)) (wired_task (wiring_of p count) i).slots slot → IsLeastAim (wiring_of p count) s i slot }
{}

/// In a sound state an allowed take hears the word that the meaning gives the read in the running instance.
pub fn a_sound_take_hears_the_meaning()
    ensures { (p : Plan) (count : Count) (table : Table) (s : State) (i r : ℕ) → IsMeaning p.diagram p.samples p.batches table → Sound p (wiring_of p count) (table_row table) s
        → i < length p.diagram.tasks → refusal (wiring_of p count) s (Take i r) ≡ None → TakesTheMeaning p (wiring_of p count) table s i r }
{}

/// In a sound state an allowed look finds its row if the writer has filled it, and only then.
pub fn a_sound_look_for_a_filled_row_is_ready()
    ensures ready { (p : Plan) (count : Count) (rows : ℕ → ℕ → Items ℤ) (s : State) (i r : ℕ) → Sound p (wiring_of p count) rows s → i < length p.diagram.tasks → refusal (wiring_of p count) s (Look i r) ≡ None
        → IsClaimFilled (wiring_of p count) s (slice_index_or (declared_task p i).reads r no_read).link → hears (wiring_of p count) s (Look i r) ≡ Ready }
    ensures filled { (p : Plan) (count : Count) (rows : ℕ → ℕ → Items ℤ) (s : State) (i r : ℕ) → Sound p (wiring_of p count) rows s → i < length p.diagram.tasks → refusal (wiring_of p count) s (Look i r) ≡ None
        → hears (wiring_of p count) s (Look i r) ≡ Ready → IsClaimFilled (wiring_of p count) s (slice_index_or (declared_task p i).reads r no_read).link }
{}

/// In a sound state an allowed look over a delayed link finds its row.
pub fn a_sound_delayed_look_is_ready()
    ensures { (p : Plan) (count : Count) (rows : ℕ → ℕ → Items ℤ) (s : State) (i r : ℕ) → Sound p (wiring_of p count) rows s → i < length p.diagram.tasks → refusal (wiring_of p count) s (Look i r) ≡ None
        → 0 < (link (wiring_of p count) (slice_index_or (declared_task p i).reads r no_read).link).delay → hears (wiring_of p count) s (Look i r) ≡ Ready }
{}

/// Under `Ranked` each allowed look finds its row, in each sound state.
pub fn a_sound_ranked_look_is_ready()
    ensures { (p : Plan) (rows : ℕ → ℕ → Items ℤ) (s : State) (i r : ℕ) → Sound p (wiring_of p Ranked) rows s → i < length p.diagram.tasks → refusal (wiring_of p Ranked) s (Look i r) ≡ None
        → hears (wiring_of p Ranked) s (Look i r) ≡ Ready }
{}
