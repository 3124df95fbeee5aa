//! The top call: what the program does with its arguments, its source and its sink.
//!
//! What a command answers to an input is `dbp_answers`' (`Answers`). Here stand the arguments that name a command, the
//! streams, and the crews that run tasks. How a call ends is said three times, for three readers: `Ends` goes by the
//! status, `Answered` by what holds if no read and no write failed, and `Crews` says how both crews stand. The arguments are
//! one table, `command_table`: that no two rows fit the same arguments is computed from it, and the list for a faulty
//! command line is made of it. Room is made before bytes are asked for, so a text that is too large is known before
//! memory runs out.
#![tactic(auto)]

mod laws;
mod notes;
mod operands;
mod outside;
mod pattern;
mod run;
mod soak;
mod table;
mod top;

pub use dbp_answers::{
    Command, Status, a_printed_text_is_printed_again, a_recorded_script_is_replayed,
    an_upgraded_text_has_its_plan, one_answer,
};
pub use laws::one_command;
pub use notes::note;
pub use table::{command_lines, command_of};
pub use top::{MAX_DOCUMENT, dbp_main, plain_main};
