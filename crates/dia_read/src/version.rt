// The version of a body.

ghost use Rattle.std.specs.Prelude.{◌≡◌};
ghost use Rattle.dia_read.specs.Documents.{upgraded};

use crate::Body;

/// The body in version 2 of the language, and all else as it was. Printed, it names each task's processor.
pub fn upgrade(mut body: Body) -> Body
    ensures { result ≡ upgraded body }
{
    body.version = 2;
    body
}
