// What holds of every list of steps, each of which is allowed where it is made: of every order in which the releaser and
// the tasks may step.

ghost use Rattle.std.specs.Prelude.{◌≡◌, ◌<◌, ℕ, List as Items, None, length, slice_index_or};
ghost use Rattle.dbp_plan.specs.declared.plan.Plan.{Plan};
ghost use Rattle.dbp_plan.specs.declared.table.Table.{Table};
ghost use Rattle.dbp_plan.specs.Lookups.{declared_task, no_read};
ghost use Rattle.sync_meaning.specs.Meaning.{IsMeaning};
ghost use Rattle.dbp_plan.specs.Table.{table_row};
ghost use Rattle.dbp_rules.specs.Lawful.{Leads};
ghost use Rattle.dbp_rules.specs.Lookups.{link};
ghost use Rattle.dbp_rules.specs.Promises.{IsUnclaimed, SparesClaims, TakesTheMeaning};
ghost use Rattle.dbp_rules.specs.Rules.{IsNamed, hears, refusal};
ghost use Rattle.dbp_rules.specs.Sound.{Sound};
ghost use Rattle.dbp_rules.specs.Start.{start_of};
ghost use Rattle.dbp_rules.specs.Wired.{wiring_of};
ghost use Rattle.dbp_rules.specs.declared.state.State.{State};
ghost use Rattle.dbp_rules.specs.declared.step.Count.{Count};
ghost use Rattle.dbp_rules.specs.declared.step.Count.TheVariants.{All, Ranked};
ghost use Rattle.dbp_rules.specs.declared.step.Heard.TheVariants.{Ready};
ghost use Rattle.dbp_rules.specs.declared.step.Step.{Step};
ghost use Rattle.dbp_rules.specs.declared.step.Step.TheVariants.{Aim, Look, Take};

/// Whatever steps were made, the state is sound.
pub fn allowed_steps_lead_to_sound_states()
    ensures { (p : Plan) (count : Count) (table : Table) (steps : Items Step) (s : State) → IsMeaning p.diagram p.samples p.batches table
        → Leads p (wiring_of p count) (start_of p (wiring_of p count)) steps s → Sound p (wiring_of p count) (table_row table) s }
{}

/// Whatever steps were made, an allowed take hears the word that the meaning gives the read in the running instance.
pub fn a_take_hears_the_meaning()
    ensures { (p : Plan) (count : Count) (table : Table) (steps : Items Step) (s : State) (i r : ℕ) → IsMeaning p.diagram p.samples p.batches table
        → Leads p (wiring_of p count) (start_of p (wiring_of p count)) steps s
        → i < length p.diagram.tasks → refusal (wiring_of p count) s (Take i r) ≡ None → TakesTheMeaning p (wiring_of p count) table s i r }
{}

/// Whatever steps were made, an allowed look over a delayed link finds its row.
pub fn a_delayed_look_is_ready()
    ensures { (p : Plan) (count : Count) (steps : Items Step) (s : State) (i r : ℕ) → Leads p (wiring_of p count) (start_of p (wiring_of p count)) steps s
        → i < length p.diagram.tasks → refusal (wiring_of p count) s (Look i r) ≡ None
        → 0 < (link (wiring_of p count) (slice_index_or (declared_task p i).reads r no_read).link).delay → hears (wiring_of p count) s (Look i r) ≡ Ready }
{}

/// If tasks step by their ranks, every allowed look finds its row.
pub fn a_ranked_look_is_ready()
    ensures { (p : Plan) (steps : Items Step) (s : State) (i r : ℕ) → Leads p (wiring_of p Ranked) (start_of p (wiring_of p Ranked)) steps s
        → i < length p.diagram.tasks → refusal (wiring_of p Ranked) s (Look i r) ≡ None → hears (wiring_of p Ranked) s (Look i r) ≡ Ready }
{}

/// Whatever steps were made, if all links are counted an allowed aim names no slot that a standing claim names.
pub fn an_aim_names_no_claimed_slot()
    ensures { (p : Plan) (steps : Items Step) (s : State) (i slot : ℕ) → Leads p (wiring_of p All) (start_of p (wiring_of p All)) steps s
        → refusal (wiring_of p All) s (Aim i slot) ≡ None → IsUnclaimed (wiring_of p All) s i slot }
{}

/// Whatever steps were made, no allowed step changes a slot that a claim of an instance which hasn't ended names, but
/// for the steps by which the claimed instance itself fills it.
pub fn a_step_changes_no_claimed_row()
    ensures { (p : Plan) (count : Count) (steps : Items Step) (s : State) (e : Step) → Leads p (wiring_of p count) (start_of p (wiring_of p count)) steps s
        → IsNamed p.diagram e → refusal (wiring_of p count) s e ≡ None → SparesClaims p (wiring_of p count) s e }
{}
