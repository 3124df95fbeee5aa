//! Scripts: lists of steps of the protocol as text. They are read from a document, printed, and replayed on a plan.
//!
//! The forms of a script's lines are one table (`form_of`): the word that begins a line, and what stands after the
//! task. The reader looks words up in it, and the printer writes them from it. A line's tokens have a form or none, and
//! a form names a step of a diagram or has a name that isn't there (`named_step`). A replay is a walk by the rules of
//! `dbp_rules`, so their laws speak of each text that `replay` returns: the word after a `take` is the meaning's. The
//! printer keeps the lines that it has made, and copies a line whose step comes again. A printed script is read back in
//! a diagram whose names are names of the language and differ, and whose delays can be written; the diagram of each
//! checked document is such a one.
#![tactic(auto)]

mod fail;
mod form;
mod kept_lines;
mod kind;
mod laws;
mod look_up;
mod naming;
mod printed;
mod replaying;
mod script;
mod walk;

pub use fail::{ReplayFail, ScriptCode, ScriptFail};
pub use laws::{allowed_steps_are_printable, one_replay, one_script, printed_script_again};
pub use naming::task_named;
pub use printed::print_script;
pub use replaying::{replay, replay_in, replay_owned};
pub use script::read_script;
