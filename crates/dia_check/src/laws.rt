// Laws of checking.

ghost use Rattle.std.specs.Prelude.{◌≡◌, ℕ};
ghost use Rattle.dia_read.specs.declared.document.Doc.{Doc};
ghost use Rattle.dia_check.specs.declared.fail.CheckCode.{CheckCode};
ghost use Rattle.dia_check.specs.declared.shaped.Shaped.{Shaped};
ghost use Rattle.dbp_plan.specs.BareDiagrams.{bare_diagram};
ghost use Rattle.dbp_plan.specs.declared.diagram.Diagram.{Diagram};
ghost use Rattle.dia_check.specs.BareBodies.{HaveSameBareBody, StandOnSameLines};
ghost use Rattle.dia_check.specs.Checks.{IsCheckedOf, IsCheckFault};
ghost use Rattle.dia_check.specs.Faults.{IsShapeFault, IsSameCode, HasNoShapeFault, line_faults};
ghost use Rattle.dia_check.specs.Shapes.{IsShapeOf};

use expr_eval::one_front_order;

/// A document says one diagram at most.
pub fn one_shape()
    ensures { (doc : Doc) (s t : Shaped) → IsShapeOf doc s → IsShapeOf doc t → s ≡ t }
{
    one_front_order();
}

/// A document that says a diagram has no fault of names and shape, and there is one first fault at most, except for the
/// names of a cycle.
pub fn one_shape_fault()
    ensures none { (doc : Doc) (s : Shaped) (line : ℕ) (code : CheckCode) → IsShapeOf doc s
        → IsShapeFault doc line code → ⊥ }
    ensures one { (doc : Doc) (line other : ℕ) (code another : CheckCode)
        → IsShapeFault doc line code → IsShapeFault doc other another
        → (line ≡ other) × IsSameCode code another }
{}

/// A shape depends on the declarations and on the names, clocks, costs and parts of tasks alone. So documents that differ
/// in policy, end, prios, deadlines, trace, script and lines have the same diagram except for the first four of these; a
/// shape has no ranks yet. If their items stand on the same lines, their lines have the same faults, and one has a fault of
/// names and shape exactly if the other has one.
pub fn bare_bodies_decide_shapes()
    ensures diagram { (a b : Doc) (s t : Shaped) → HaveSameBareBody a b
        → IsShapeOf a s → IsShapeOf b t → bare_diagram s.diagram ≡ bare_diagram t.diagram }
    ensures faults { (a b : Doc) → HaveSameBareBody a b → StandOnSameLines a b
        → line_faults a ≡ line_faults b }
    ensures none { (a b : Doc) → HaveSameBareBody a b → StandOnSameLines a b
        → HasNoShapeFault a → HasNoShapeFault b }
{
    one_front_order();
}

/// A document has one checked diagram at most, and none if it has a fault; it has one first fault at most, except for
/// the names of a cycle.
pub fn one_check()
    ensures one { (doc : Doc) (d e : Diagram) → IsCheckedOf doc d → IsCheckedOf doc e → d ≡ e }
    ensures none { (doc : Doc) (d : Diagram) (line : ℕ) (code : CheckCode) → IsCheckedOf doc d
        → IsCheckFault doc line code → ⊥ }
    ensures one_fault { (doc : Doc) (line other : ℕ) (code another : CheckCode)
        → IsCheckFault doc line code → IsCheckFault doc other another
        → (line ≡ other) × IsSameCode code another }
{
    one_shape();
    one_shape_fault();
}
