// Where a line may stand, and in documents of which version, by its form.

ghost use Rattle.std.specs.Prelude.{◌≡◌, ◌&&◌};
ghost use Rattle.std.specs.Option.{is_some};
ghost use Rattle.dia_lines.specs.declared.place.Place.TheVariants.{Declarations, Body};
ghost use Rattle.dia_lines.specs.Places.{leads, is_of_version};
ghost use Rattle.dia_lines.specs.Forms.{example_of};
ghost use Rattle.dia_lines.specs.FormShapes.{shape_of};

use crate::form::Form;
use crate::place::Place;

fn stands_in_declarations(form: &Form) -> bool
    ensures { result ≡ is_some (leads Declarations (example_of (shape_of form.now))) }
{
    matches!(
        form,
        Form::Nothing
            | Form::Input(_, _)
            | Form::Event(_)
            | Form::Task(_)
            | Form::Trace
            | Form::Script
            | Form::Done
    )
}

fn stands_in_body(form: &Form) -> bool
    ensures { result ≡ is_some (leads Body (example_of (shape_of form.now))) }
{
    matches!(
        form,
        Form::Nothing
            | Form::State(_, _)
            | Form::Sense(_, _)
            | Form::Read(_)
            | Form::Let(_, _)
            | Form::Next(_, _)
            | Form::Out(_, _, _)
            | Form::Task(_)
            | Form::Trace
            | Form::Script
            | Form::Done
    )
}

// Whether a line of the form may stand at the place, in documents of whatever version.
fn stands(place: Place, form: &Form) -> bool
    ensures { result ≡ is_some (leads place (example_of (shape_of form.now))) }
{
    match place {
        Place::Header => matches!(form, Form::Nothing | Form::Header(_)),
        Place::Policy => matches!(form, Form::Nothing | Form::Policy(_)),
        Place::Until => matches!(form, Form::Nothing | Form::Until(_)),
        Place::Declarations => stands_in_declarations(form),
        Place::Body => stands_in_body(form),
        Place::Trace => matches!(form, Form::Nothing | Form::Script | Form::Done),
        Place::Script => matches!(form, Form::Nothing | Form::Done),
        Place::Ended => matches!(form, Form::Nothing),
    }
}

// Whether documents of the version have lines of the form.
fn is_of_version(version: u32, form: &Form) -> bool
    ensures { result ≡ is_of_version version (example_of (shape_of form.now)) }
{
    match form {
        Form::Task(task) => version == 2 || task.when.is_none() && task.cpu.is_none(),
        _ => true,
    }
}

// Whether a line of the form may stand at the place in a document of the version.
pub(crate) fn may_stand(version: u32, place: Place, form: &Form) -> bool
    ensures { result
        ≡ (is_some (leads place (example_of (shape_of form.now)))
        && is_of_version version (example_of (shape_of form.now))) }
{
    stands(place, form) && is_of_version(version, form)
}
