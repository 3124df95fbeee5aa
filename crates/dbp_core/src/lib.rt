//! The core of the protocol, as a machine: what the steps look up in a plan, the state before the first step, and each
//! step, exactly by the rules of `dbp_rules`.
//!
//! A `Core` holds a plan, its wiring and a state. Its type keeps that the state is sound, that what is named is there,
//! and that numbers fit (`IsShape`), so no step tests for it. `conditions` tries the tasks that are ranked above,
//! `releaser` and `steps` load, move the part and store, `making` makes a step of an allowed kind by them, and `dispatch`
//! joins all, step by step. The ranks that have an
//! unfinished instance are bits of one number (`HasUnfinished`), so a step under `Ranked` looks over the tasks only if
//! a higher rank is among them. Scripts use a core, which tries each step; simulations use a `Stepper`, which makes
//! steps that are known to be allowed. A run has no whole state (`word_rule`). The crate hands on the types and laws of
//! `dbp_rules`.
#![tactic(auto)]

mod conditions;
mod dispatch;
mod look_up;
mod machine;
mod making;
mod rank_mask;
mod releaser;
mod stepper;
mod steps;

pub use dbp_rules::{
    Broken, Count, Heard, Illegal, LinkEntry, MAX_ORDERS, Order, Place, ReadWiring, ReleaserPart,
    Slot, State, Step, StepKind, TaskEntry, TaskPart, TaskState, TaskWiring, TaskWords, Wiring,
    Work, a_delayed_look_is_ready, a_ranked_look_is_ready, a_slot_is_free_for_each_aim,
    a_sound_delayed_look_is_ready, a_sound_look_for_a_filled_row_is_ready,
    a_sound_ranked_look_is_ready, a_sound_take_hears_the_meaning, a_step_changes_no_claimed_row,
    a_step_keeps_a_state_sound, a_step_spares_claimed_rows, a_step_stores_one_word,
    a_take_hears_the_meaning, allowed_steps_lead_to_sound_states, an_aim_names_no_claimed_slot,
    an_aim_spares_claimed_slots, soundness_has_ten_parts, the_start_is_sound,
};
pub use machine::Core;
pub use stepper::Stepper;
