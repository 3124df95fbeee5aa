//! The slots of tasks: how many each needs, which is free, and where their words stand in the table of a run.
//!
//! `counts_of` says how many slots a task needs: one for each link to a reader ranked below, one for itself, as many as
//! its longest delay, and in a run one for each link to a reader ranked above. `IsLeastFree` is the least slot that is
//! neither claimed nor kept. `address_of` gives each shared word of a run its address, from the sizes of a diagram
//! alone; by the laws no two words share one, and each address is a word's. The crate knows no steps.
#![tactic(auto)]

mod counting;
mod free;
mod laws;
mod layouts;
mod slot_counts;

pub use counting::counts;
pub use free::free_slot;
pub use laws::{each_address_has_its_word, no_two_words_share_an_address, words_are_in_the_table};
pub use layouts::Layout;
pub use layouts::laying::layout;
pub use slot_counts::Counts;
