// Laws of what a diagram depends on, and of the names that it declares.

ghost use Rattle.std.specs.Prelude.{◌≡◌};
ghost use Rattle.dbp_plan.specs.declared.diagram.Diagram.{Diagram};
ghost use Rattle.dia_read.specs.declared.document.Doc.{Doc};
ghost use Rattle.dia_read.specs.Printable.{HasItemLines, IsPrintable};
ghost use Rattle.dia_check.specs.declared.shaped.Shaped.{Shaped};
ghost use Rattle.dia_check.specs.Checks.{IsCheckedOf};
ghost use Rattle.dia_check.specs.ItemNames.{AreNamed, input_and_event_names};
ghost use Rattle.dia_check.specs.SameTasks.{HaveSameTasks};
ghost use Rattle.dia_check.specs.Shapes.{IsShapeOf};

/// Documents with the same policy, declarations and tasks have the same shape except for its end and its lines, if each
/// item of the first has a line. So a body that has a shape has it on other lines too.
pub fn tasks_decide_the_shape()
    ensures { (doc other : Doc) (s : Shaped) → HaveSameTasks doc.body other.body
        → HasItemLines doc → IsShapeOf doc s
        → (t : Shaped) × IsShapeOf other t × (t.diagram ≡ record s.diagram { until = other.body.until }) }
{}

/// Documents with the same policy, declarations and tasks have the same checked diagram except for its end, if each item
/// of both has a line. So nothing else that a document says is checked, nor where its lines are. `dia_read` says that
/// each document that a text spells has a line of each item.
pub fn tasks_decide_the_diagram()
    ensures { (doc other : Doc) (d : Diagram) → HaveSameTasks doc.body other.body
        → HasItemLines doc → HasItemLines other → IsCheckedOf doc d
        → IsCheckedOf other (record d { until = other.body.until }) }
{}

/// The inputs and events of a checked diagram have names of the language, all different.
pub fn inputs_and_events_have_names()
    ensures { (doc : Doc) (d : Diagram) → IsPrintable doc.body → HasItemLines doc → IsCheckedOf doc d
        → AreNamed (λ n. n) (input_and_event_names d) }
{}
