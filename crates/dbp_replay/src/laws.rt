// Laws of the definitions.

ghost use Rattle.std.specs.Prelude.{◌≡◌, ℕ, All, List as Items, Some};
ghost use Rattle.dbp_rules.specs.Lawful.{Leads};
ghost use Rattle.dbp_rules.specs.Wired.{wiring_of};
ghost use Rattle.dbp_rules.specs.declared.state.State.{State as AnyState};
ghost use Rattle.dbp_rules.specs.declared.step.Count.{Count as AnyCount};
ghost use Rattle.dbp_rules.specs.declared.step.Illegal.{Illegal as Refusal};
ghost use Rattle.dbp_rules.specs.declared.step.Step.{Step as AnyStep};
ghost use Rattle.dbp_plan.specs.declared.diagram.Diagram.{Diagram as AnyDiagram};
ghost use Rattle.dbp_plan.specs.declared.plan.Plan.{Plan as AnyPlan};
ghost use Rattle.dia_check.specs.Checks.{IsCheckedOf};
ghost use Rattle.dia_read.specs.declared.document.Doc.{Doc as AnyDoc};
ghost use Rattle.dia_read.specs.Printable.{HasItemLines, IsPrintable};
ghost use Rattle.dbp_replay.specs.declared.fail.ScriptCode.{ScriptCode as AnyCode};
ghost use Rattle.dbp_replay.specs.Names.{HasNames, HasSlotNumber};
ghost use Rattle.dbp_replay.specs.NamedItems.{IsThere};
ghost use Rattle.dbp_replay.specs.Replays.{IsReplay, IsIllegal, first};
ghost use Rattle.dbp_replay.specs.Scripts.{IsScript, IsScriptFault};
ghost use Rattle.dbp_replay.specs.Texts.{script_text};

/// A document has one script at most in a diagram, and none if the script has a fault; it has one first fault at
/// most.
pub fn one_script()
    ensures one { (d : AnyDiagram) (doc : AnyDoc) (a b : Items AnyStep) → IsScript d doc a
        → IsScript d doc b → a ≡ b }
    ensures none { (d : AnyDiagram) (doc : AnyDoc) (steps : Items AnyStep) (line : ℕ)
        (code : AnyCode) → IsScript d doc steps → IsScriptFault d doc line code → ⊥ }
    ensures one_fault { (d : AnyDiagram) (doc : AnyDoc) (line other : ℕ) (code another : AnyCode)
        → IsScriptFault d doc line code → IsScriptFault d doc other another
        → (line ≡ other) × (code ≡ another) }
{}

/// Steps have one replay at most, and none if a step is refused; one step at most is the first that is refused.
pub fn one_replay()
    ensures one { (p : AnyPlan) (count : AnyCount) (steps : Items AnyStep) (a b : Items ℕ)
        → IsReplay p count steps a → IsReplay p count steps b → a ≡ b }
    ensures none { (p : AnyPlan) (count : AnyCount) (steps : Items AnyStep) (text : Items ℕ)
        (number : ℕ) (why : Refusal) → IsReplay p count steps text
        → IsIllegal p count steps number why → ⊥ }
    ensures one_refusal { (p : AnyPlan) (count : AnyCount) (steps : Items AnyStep)
        (number other : ℕ) (why another : Refusal) → IsIllegal p count steps number why
        → IsIllegal p count steps other another → (number ≡ other) × (why ≡ another) }
{}

/// A printed script is read as the steps that were printed, if names tell apart what a step can name. In the diagram
/// of a checked document they do; the script may stand in another document.
pub fn printed_script_again()
    ensures named { (d : AnyDiagram) (doc : AnyDoc) (steps : Items AnyStep) → HasNames d
        → All (IsThere d) steps → All HasSlotNumber steps
        → doc.body.script ≡ Some (script_text d steps) → IsScript d doc steps }
    ensures checked { (source doc : AnyDoc) (d : AnyDiagram) (steps : Items AnyStep)
        → IsPrintable source.body → HasItemLines source → IsCheckedOf source d
        → All (IsThere d) steps → All HasSlotNumber steps
        → doc.body.script ≡ Some (script_text d steps) → IsScript d doc steps }
{}

/// Steps that are allowed one after another from the start name only what the diagram has, and each aim's slot has 32
/// bits: they may be printed, and are read again.
pub fn allowed_steps_are_printable()
    ensures there { (p : AnyPlan) (count : AnyCount) (steps : Items AnyStep) (s : AnyState)
        → Leads p (wiring_of p count) (first p count) steps s → All (IsThere p.diagram) steps }
    ensures slots { (p : AnyPlan) (count : AnyCount) (steps : Items AnyStep) (s : AnyState)
        → Leads p (wiring_of p count) (first p count) steps s → All HasSlotNumber steps }
{}
