//! The list of the releaser's actions, made from a plan.
//!
//! The list goes batch by batch, and in each batch has all aims, then the claims of each task, then the opens
//! (`releases_of`). The crates above use the law `releases_are_a_schedule`, which says what holds before each action:
//! which instances are aimed, claimed and opened, which number a claim has, and that a claim comes after all aims of
//! its time.
#![tactic(auto)]

mod laws;
mod release;

pub use laws::{a_batch_stands_together, releases_are_a_schedule};
pub use release::{Release, releases};
