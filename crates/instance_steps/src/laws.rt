// Laws of the pieces: how they go together, and what a whole record says.

ghost use Rattle.std.specs.Prelude.{◌≡◌, ◌<◌, ◌++◌, ℕ, List as Items, length};
ghost use Rattle.dbp_plan.specs.Occurrences.{times_of};
ghost use Rattle.dbp_plan.specs.declared.plan.Plan.{Plan};
ghost use Rattle.dbp_plan.specs.declared.table.Table.{Table};
ghost use Rattle.sync_meaning.specs.SomeMeaning.{meaning_of};
ghost use Rattle.dbp_rules.specs.Lawful.{Leads};
ghost use Rattle.dbp_rules.specs.Lookups.{task as state_of};
ghost use Rattle.dbp_rules.specs.declared.state.State.{State};
ghost use Rattle.dbp_rules.specs.declared.step.Step.{Step};
ghost use Rattle.dbp_rules.specs.declared.wiring.Wiring.{Wiring};
ghost use Rattle.instance_steps.specs.EndedRows.{HasEndedRows};
ghost use Rattle.instance_steps.specs.Events.{Event};
ghost use Rattle.instance_steps.specs.Plays.{Plays};

/// Steps that play events are allowed, one after another, and are as many.
pub fn played_steps_are_allowed()
    ensures leads { (p : Plan) (w : Wiring) (events : Items Event) (steps : Items Step) (s t : State)
        → Plays p w s events steps t → Leads p w s steps t }
    ensures as_many { (p : Plan) (w : Wiring) (events : Items Event) (steps : Items Step) (s t : State)
        → Plays p w s events steps t → length steps ≡ length events }
{}

/// Steps that play events, and from where they lead steps that play more, play both lists together. Steps that play both
/// lists are such steps, one after another.
pub fn pieces_go_together()
    ensures together { (p : Plan) (w : Wiring) (first then_ : Items Event) (steps more : Items Step)
        (s t u : State) → Plays p w s first steps t → Plays p w t then_ more u
        → Plays p w s (first ++ then_) (steps ++ more) u }
    ensures apart { (p : Plan) (w : Wiring) (first then_ : Items Event) (both : Items Step)
        (s u : State) → Plays p w s (first ++ then_) both u
        → (steps : Items Step) × (more : Items Step) × (t : State) × (both ≡ steps ++ more)
        × Plays p w s first steps t × Plays p w t then_ more u }
{}

/// The rows of ended instances are those of any state in which as many have ended, and if all have, the meaning's table.
pub fn rows_of_ended_instances()
    ensures stay { (p : Plan) (s new : State) (table : Table) → ((i : ℕ) → (state_of new i).part.ended ≡ (state_of s i).part.ended)
        → HasEndedRows p s table → HasEndedRows p new table }
    ensures all { (p : Plan) (s : State) (table : Table) → HasEndedRows p s table
        → ((i : ℕ) → i < length p.diagram.tasks → (state_of s i).part.ended ≡ length (times_of p.batches i)) → table ≡ meaning_of p }
{}
