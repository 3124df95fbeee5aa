// What each step loads and stores, word by word of the table that the parties of a run share.

ghost use Rattle.std.specs.Prelude.{◌≡◌, ◌<◌, ◌^◌, ℕ, ℤ, FitsSigned, List as Items, None, Some, length};
ghost use Rattle.std.specs.Int.{w64};
ghost use Rattle.dbp_plan.specs.declared.plan.Plan.{Plan};
ghost use Rattle.dbp_slots.specs.TableWords.{IsWord, TableWord, sizes_of};
ghost use Rattle.dbp_rules.specs.LoadedWords.{heard_of, loaded_by, loaded_of, number_to_load, order_of, sizes_of_wiring, start_number, stored_number, value_of_word};
ghost use Rattle.dbp_rules.specs.Lookups.{wired_task};
ghost use Rattle.dbp_rules.specs.Rules.{IsNamed, hears, loaded_value, next, refusal};
ghost use Rattle.dbp_rules.specs.Shapes.{OrderFits};
ghost use Rattle.dbp_rules.specs.SharedWords.{maker_part, order_value, signed_value, stored_by, value_in};
ghost use Rattle.dbp_rules.specs.Sound.{Sound};
ghost use Rattle.dbp_rules.specs.Start.{start_of};
ghost use Rattle.dbp_rules.specs.WordRanges.{FirstValuesFit, PutWordFits, SlotWordsFit};
ghost use Rattle.dbp_rules.specs.Wired.{wiring_of};
ghost use Rattle.dbp_rules.specs.declared.parts.Order.{Order};
ghost use Rattle.dbp_rules.specs.declared.state.State.{State};
ghost use Rattle.dbp_rules.specs.declared.step.Count.{Count};
ghost use Rattle.dbp_rules.specs.declared.step.Count.TheVariants.{All};
ghost use Rattle.dbp_rules.specs.declared.step.Step.{Step};
ghost use Rattle.dbp_rules.specs.declared.wiring.Wiring.{Wiring};

/// An order with 32 bits for its slot is read back from its number, and so is a value of 64 bits. So no two of them have
/// the same number. With 32 bits for its number too, the order's number is below 2^64; a value's is.
pub fn a_number_is_read_back()
    ensures order { (o : Order) → o.slot < 2 ^ 32 → order_of (order_value o) ≡ o }
    ensures order_number { (x : ℕ) → order_value (order_of x) ≡ x }
    ensures order_below { (o : Order) → o.slot < 2 ^ 32 → o.number < 2 ^ 32 → order_value o < 2 ^ 64 }
    ensures one_order { (o r : Order) → o.slot < 2 ^ 32 → r.slot < 2 ^ 32 → order_value o ≡ order_value r → o ≡ r }
    ensures value { (z : ℤ) → FitsSigned w64 z → value_of_word (signed_value z) ≡ z }
    ensures value_number { (x : ℕ) → x < 2 ^ 64 → signed_value (value_of_word x) ≡ x }
    ensures value_below { (z : ℤ) → FitsSigned w64 z → signed_value z < 2 ^ 64 }
{}

/// A slot of a plan's task has a number of 32 bits, and so has an instance. So orders of its slots are read back.
pub fn an_order_has_small_numbers()
    ensures slots { (p : Plan) (count : Count) (i : ℕ) → i < length p.diagram.tasks → (wired_task (wiring_of p count) i).slots < 2 ^ 32 }
    ensures order { (p : Plan) (count : Count) (i : ℕ) (o : Order) → i < length p.diagram.tasks → OrderFits (wired_task (wiring_of p count) i) o → (o.slot < 2 ^ 32) × (o.number < 2 ^ 32) }
{}

/// The table of a run of the diagram has the sizes that the plan's wiring has under `All`.
pub fn the_table_has_the_sizes_of_the_wiring()
    ensures { (p : Plan) → sizes_of_wiring (wiring_of p All) ≡ sizes_of p.diagram }
{}

/// An allowed step loads a word of the table, if it loads one; what it loads is read off the number there. What it hears
/// is said by what it loads and the part of the task that makes it.
pub fn a_step_hears_one_word()
    ensures word { (p : Plan) (rows : ℕ → ℕ → Items ℤ) (s : State) (e : Step) (q : TableWord) → Sound p (wiring_of p All) rows s → IsNamed p.diagram e → refusal (wiring_of p All) s e ≡ None
        → loaded_by (wiring_of p All) s e ≡ Some q → IsWord (sizes_of p.diagram) q }
    ensures loaded { (p : Plan) (count : Count) (rows : ℕ → ℕ → Items ℤ) (s : State) (e : Step) → Sound p (wiring_of p count) rows s → SlotWordsFit s → IsNamed p.diagram e → refusal (wiring_of p count) s e ≡ None
        → loaded_value (wiring_of p count) s e ≡ loaded_of e (number_to_load (wiring_of p count) s e) }
    ensures heard { (w : Wiring) (s : State) (e : Step) → hears w s e ≡ heard_of w (maker_part s e) e (loaded_value w s e) }
{}

/// An allowed step stores into a word of the table, if it stores into one; the number there is then the step's, which is
/// below 2^64.
pub fn a_step_stores_its_number()
    ensures word { (p : Plan) (rows : ℕ → ℕ → Items ℤ) (s : State) (e : Step) (q : TableWord) → Sound p (wiring_of p All) rows s → IsNamed p.diagram e → refusal (wiring_of p All) s e ≡ None
        → stored_by s e ≡ Some q → IsWord (sizes_of p.diagram) q }
    ensures number { (p : Plan) (count : Count) (rows : ℕ → ℕ → Items ℤ) (s : State) (e : Step) (q : TableWord) → Sound p (wiring_of p count) rows s → IsNamed p.diagram e → refusal (wiring_of p count) s e ≡ None
        → stored_by s e ≡ Some q → value_in (next p (wiring_of p count) s e) q ≡ stored_number (wiring_of p count) s e }
    ensures below { (p : Plan) (count : Count) (rows : ℕ → ℕ → Items ℤ) (s : State) (e : Step) → Sound p (wiring_of p count) rows s → PutWordFits s e → IsNamed p.diagram e → refusal (wiring_of p count) s e ≡ None
        → stored_number (wiring_of p count) s e < 2 ^ 64 }
{}

/// Before the first step each word of the table has the number that `start_number` gives it.
pub fn a_word_has_its_number_at_the_start()
    ensures { (p : Plan) (count : Count) (q : TableWord) → IsWord (sizes_of p.diagram) q → value_in (start_of p (wiring_of p count)) q ≡ start_number p q }
{}

/// The words of slots are values of 64 bits: at the start if the first values of outs are, and after each step if the
/// word of a put is.
pub fn slot_words_have_64_bits()
    ensures start { (p : Plan) (count : Count) → FirstValuesFit p.diagram → SlotWordsFit (start_of p (wiring_of p count)) }
    ensures step { (p : Plan) (count : Count) (s : State) (e : Step) → SlotWordsFit s → PutWordFits s e → SlotWordsFit (next p (wiring_of p count) s e) }
{}
