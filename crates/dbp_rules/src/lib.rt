//! The rules of the protocol: its state of shared words and of the parts of the releaser and the tasks, what each step
//! hears and makes of it, and what holds of every state that steps lead to.
//!
//! What the steps look up in a plan is made once, a `Wiring`. A `State` has the releaser's part, and for each task its
//! shared words, its part and what it computes with. The rules are written party by party: `PartyRules` says, from one
//! party's part alone, why the party may not make a step and what its part becomes. `Rules` makes of this the rules on
//! whole states: the condition of a step (`refusal`), what it hears (`hears`), the next state (`next`), and all three
//! together (`IsStep`). The calls in `releaser_steps` and `task_steps` return exactly this. Every step keeps the state
//! sound: `Sound` speaks of the releaser's numbers, of each task, and of each link with its ends, and `HoldsInTenParts`
//! is the same in the words of docs/PROTOCOL.md. Both compare rows with those of a table that meets `IsMeaning`. The
//! laws say what holds after every list of allowed steps (`laws`), in every sound state (`soundness`), of one party's
//! part alone (`party_laws`), and of the words of a run's table (`word_laws`).
#![tactic(auto)]

mod aiming;
mod kind;
mod laws;
mod make_wiring;
mod next_steps;
mod parts;
mod party_laws;
mod releaser_steps;
mod sensing;
mod soundness;
mod start;
mod state;
mod step;
mod task_steps;
mod wiring;
mod word;
mod word_laws;
mod work;

pub use kind::StepKind;
pub use laws::{
    a_delayed_look_is_ready, a_ranked_look_is_ready, a_step_changes_no_claimed_row,
    a_take_hears_the_meaning, allowed_steps_lead_to_sound_states, an_aim_names_no_claimed_slot,
};
pub use make_wiring::{wire_plan, wire_steps};
pub use parts::{LinkEntry, MAX_ORDERS, Order, Place, ReleaserPart, TaskEntry, TaskPart};
pub use party_laws::{
    a_party_keeps_its_part, a_releaser_has_a_free_slot, a_step_is_refused_by_its_party,
    a_step_moves_its_party, sound_parts_are_in_shape, the_first_parts_are_in_shape,
};
pub use soundness::{
    a_slot_is_free_for_each_aim, a_sound_delayed_look_is_ready,
    a_sound_look_for_a_filled_row_is_ready, a_sound_ranked_look_is_ready,
    a_sound_take_hears_the_meaning, a_step_keeps_a_state_sound, a_step_spares_claimed_rows,
    a_step_stores_one_word, an_aim_spares_claimed_slots, soundness_has_ten_parts,
    the_start_is_sound,
};
pub use start::start_state;
pub use state::{Slot, State, TaskState, TaskWords};
pub use step::{Broken, Count, Heard, Illegal, Step};
pub use wiring::{LinkEnd, ReadWiring, TaskWiring, Wiring};
pub use word::{first_values_have_64_bits, value_from_word, value_to_word};
pub use word_laws::{
    a_number_is_read_back, a_step_hears_one_word, a_step_stores_its_number,
    a_word_has_its_number_at_the_start, an_order_has_small_numbers, slot_words_have_64_bits,
    the_table_has_the_sizes_of_the_wiring,
};
pub use work::Work;
