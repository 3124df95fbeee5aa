// What holds of the releaser's next step.

ghost use Rattle.std.specs.Prelude.{◌≡◌, ℕ, ℤ, List as Items, None, Some};
ghost use Rattle.dbp_plan.specs.declared.plan.Plan.{Plan};
ghost use Rattle.dbp_rules.specs.PartyRules.{loaded_number, releaser_refusal};
ghost use Rattle.dbp_rules.specs.PartyShapes.{ReleaserShape};
ghost use Rattle.dbp_rules.specs.Promises.{IsLeastAim};
ghost use Rattle.dbp_rules.specs.Rules.{IsNamed, loaded_value, next, refusal};
ghost use Rattle.dbp_rules.specs.Sound.{Sound};
ghost use Rattle.dbp_rules.specs.Wired.{wiring_of};
ghost use Rattle.dbp_rules.specs.declared.parts.ReleaserPart.{ReleaserPart};
ghost use Rattle.dbp_rules.specs.declared.state.State.{State};
ghost use Rattle.dbp_rules.specs.declared.step.Count.TheVariants.{All};
ghost use Rattle.dbp_rules.specs.declared.step.Step.{Step};
ghost use Rattle.release_book.specs.NextStep.{IsNextStep, MayHear, part_after, step_of};
ghost use Rattle.release_book.specs.declared.release_step.ReleaseStep.{ReleaseStep};
ghost use Rattle.release_book.specs.declared.release_step.ReleaseStep.TheVariants.{Aim};

/// A releaser's part has a next step, and only one.
pub fn a_part_has_one_next_step()
    ensures some { (p : Plan) (r : ReleaserPart) → ReleaserShape p (wiring_of p All) r → (e : ReleaseStep) × IsNextStep (wiring_of p All) r e }
    ensures one { (p : Plan) (r : ReleaserPart) (e f : ReleaseStep) → ReleaserShape p (wiring_of p All) r
        → IsNextStep (wiring_of p All) r e → IsNextStep (wiring_of p All) r f → e ≡ f }
{}

/// Wherever the part is the releaser's of a sound state, its next step is allowed there if all links are counted, and an
/// aim is at the least slot that is.
pub fn a_next_step_is_allowed()
    ensures named { (p : Plan) (rows : ℕ → ℕ → Items ℤ) (s : State) (e : ReleaseStep) (step : Step) → Sound p (wiring_of p All) rows s
        → IsNextStep (wiring_of p All) s.releaser e → step_of e ≡ Some step → IsNamed p.diagram step }
    ensures allowed { (p : Plan) (rows : ℕ → ℕ → Items ℤ) (s : State) (e : ReleaseStep) (step : Step) → Sound p (wiring_of p All) rows s
        → IsNextStep (wiring_of p All) s.releaser e → step_of e ≡ Some step → refusal (wiring_of p All) s step ≡ None }
    ensures slot { (p : Plan) (rows : ℕ → ℕ → Items ℤ) (s : State) (i slot : ℕ) → Sound p (wiring_of p All) rows s
        → IsNextStep (wiring_of p All) s.releaser (Aim i slot) → IsLeastAim (wiring_of p All) s i slot }
{}

/// Wherever the part is the releaser's of a sound state, the state's part after its next step is what the step makes of
/// the part, from a number that it may hear.
pub fn a_book_follows_its_state()
    ensures heard { (p : Plan) (rows : ℕ → ℕ → Items ℤ) (s : State) (e : ReleaseStep) (step : Step) → Sound p (wiring_of p All) rows s
        → IsNextStep (wiring_of p All) s.releaser e → step_of e ≡ Some step → MayHear s.releaser e (loaded_number (loaded_value (wiring_of p All) s step)) }
    ensures part { (p : Plan) (s : State) (e : ReleaseStep) (step : Step) → step_of e ≡ Some step
        → (next p (wiring_of p All) s step).releaser ≡ part_after (wiring_of p All) s.releaser e (loaded_number (loaded_value (wiring_of p All) s step)) }
{}
