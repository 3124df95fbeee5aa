//! The scenario of a task, in which all its slots are in use at once.
//!
//! The task fires again and again, each time as its last instance ends. Its readers that are ranked below it fire once
//! each, the first at the end of a first group of firings, the next at the end of the next, and are never served before
//! the last firing. A group has a firing more than the longest delay of the task's links, so the rows that matter to two
//! readers lie in different groups, and those that the next instances of any reader need lie in the group after them.
//!
//! `Scenarios` says who fires when, `Bodies` the document that says so, and `need` writes it into the body of the
//! document that it is given: another end, another trace, no script, and all else as it was. The text of that body is
//! accepted, since names, shape and ranks depend on neither; its plan has each task occur as the scenario says
//! (`IsScenario`).
//!
//! `Live` says which rows of a task matter after a batch, by occurrences, delays and the ends of service, and knows no slot:
//! at the last firing they are as many as the task has slots in a simulation (`NeedsAllSlots`). `SlotsInUse` says it of
//! the slots themselves, in each recorded list of the plan (`all_slots_are_in_use`). The task runs through, since it is
//! served before its readers; so the claims of all of them still stand, on rows of different groups.
#![tactic(auto)]

mod column;
mod document;
mod fail;
mod fault;
mod firings;
mod laws;
mod text;

pub use document::need;
pub use fail::NeedFail;
pub use laws::all_slots_are_in_use;
