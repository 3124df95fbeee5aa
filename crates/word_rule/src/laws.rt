// What the rule of the table says, and that each step of a party keeps it.

ghost use Rattle.std.specs.Prelude.{◌≡◌, ℕ, [], None, Some, slice_index};
ghost use mathlib.Core.Option.{some};
ghost use lib.ListN.{get_elem?};
ghost use Rattle.atomic_table.specs.Table.{keeps, stepped};
ghost use Rattle.dbp_plan.specs.declared.plan.Plan.{Plan};
ghost use Rattle.dbp_slots.specs.TableWords.{TableWord, address_of, sizes_of};
ghost use Rattle.dbp_rules.specs.LoadedWords.{loaded_of};
ghost use Rattle.dbp_rules.specs.PartyRules.{no_word};
ghost use Rattle.dbp_rules.specs.declared.step.Step.{Step};
ghost use Rattle.word_rule.specs.OwnSteps.{IsOwnStep, KeepsNext, view_after};
ghost use Rattle.word_rule.specs.Roles.{number_stored, run_wiring, word_loaded, word_stored};
ghost use Rattle.word_rule.specs.Showing.{Keeps, ShowsTenParts, TableState};
ghost use Rattle.word_rule.specs.declared.views.View.{View};

/// The rule in a reader's words: there is a state that the words and the views of all seats show, and the ten parts of
/// docs/PROTOCOL.md hold of it, with all links counted and the rows of the meaning of the table's plan. If no seat has made
/// a step, the words are those of the start state. By the table's type the rule holds between any two atomic steps of any
/// parties.
pub fn the_rule_has_ten_parts()
    ensures { (p : Plan) (t : TableState) → Keeps p t → ShowsTenParts p t }
{}

/// A step that loads a word keeps the rule: its seat's view is the next one, by what stands in the word. Whichever sound state
/// the words and views showed, they show the next one.
pub fn a_step_that_loads_keeps_the_rule()
    ensures { (p : Plan) (t : TableState) (h : Keeps p t) (id : ℕ) (v : View) (e : Step) (q : TableWord) → get_elem? t.views id ≡ some v → IsOwnStep p v e → word_loaded (run_wiring p) v.role e ≡ Some q
        → KeepsNext p h.split h.state e (stepped t (address_of (sizes_of p.diagram) q) (slice_index t.words (address_of (sizes_of p.diagram) q)) id [] (view_after p v e (loaded_of e (slice_index t.words (address_of (sizes_of p.diagram) q)))) keeps) }
{}

/// A step that stores a number into a word keeps the rule: its seat's view is the next one, and all other words and views
/// stay. Whichever sound state they showed, they show the next one.
pub fn a_step_that_stores_keeps_the_rule()
    ensures { (p : Plan) (t : TableState) (h : Keeps p t) (id : ℕ) (v : View) (e : Step) (q : TableWord) → get_elem? t.views id ≡ some v → IsOwnStep p v e → word_stored v.role e ≡ Some q
        → KeepsNext p h.split h.state e (stepped t (address_of (sizes_of p.diagram) q) (number_stored p v.role e) id [] (view_after p v e no_word) keeps) }
{}
