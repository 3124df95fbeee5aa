//! The checking of a document: the diagram that it says, with ranks, or its first fault.
//!
//! `IsDiagramOf` says the diagram field by field: a name is its first index in its list, an expression the same tree
//! over indexes, the links are those of the `read` lines, each once, and lets are ordered from the front. So a document
//! determines its diagram. The faults of its lines are a list, each line tried after those before it (`line_faults`),
//! of which the first counts; faults of whole tasks (`HasTaskFault`) and of ranks (`rank_faults`) come after all of
//! them. The lists mean what they should if each item has a line (`HasItemLines`), which `read_doc` ensures. That the
//! diagram of a document without fault is closed follows from this and from the limits that reading tried. A fault that
//! is found before memory is taken is returned whatever memory there is.
//!
//! Of a document its policy, declarations and tasks are checked, and nothing else (`tasks_decide_the_diagram`): not its
//! end, not its sections, and not where its lines are. Its shape needs less of its tasks (`bare_bodies_decide_shapes`).
#![tactic(auto)]

mod fail;
mod first_line;
mod item_laws;
mod laws;
mod line_faults;
mod links;
mod names;
mod outs;
mod parts;
mod placing;
mod ports;
mod rank_faults;
mod ranking;
mod reads;
mod scope;
mod shaped;
mod shaping;
mod tasks;

pub use fail::{CheckCode, CheckFail};
pub use item_laws::{
    inputs_and_events_have_names, tasks_decide_the_diagram, tasks_decide_the_shape,
};
pub use laws::{bare_bodies_decide_shapes, one_check, one_shape, one_shape_fault};
pub use rank_faults::ranked;
pub use ranking::{ranks, ranks_are_distinct};
pub use shaped::{ReadLine, Shaped};
pub use shaping::shape;
