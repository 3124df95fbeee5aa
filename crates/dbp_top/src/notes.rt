// What a user reads of a call's end.

ghost use Rattle.std.specs.Prelude.{◌≡◌};
ghost use Rattle.dbp_top.specs.Notes.{note_text};

use dbp_answers::Status;

/// The line that standard error gets for a status.
pub fn note(status: Status) -> &'static str
    ensures { result.now ≡ note_text status }
{
    match status {
        Status::Ok => "done",
        Status::Refused => "the document was refused",
        Status::Overrun => "a release meets an unfinished instance",
        Status::Usage => "usage: dbp COMMAND < DOCUMENT, where COMMAND is one of:",
        Status::ReadFault => "a read of the input failed; nothing was written",
        Status::WriteFault => "a write of the output failed; not all of it was written",
        Status::NoMemory => "memory ran out; nothing was written",
        Status::TooLarge => "the document has more than 1048576 bytes; nothing was written",
    }
}
