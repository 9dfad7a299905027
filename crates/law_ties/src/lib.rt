//! What each event of the exchange over bytes does to its values, and what keeps the two ends of a connection tied. It
//! is a room because it is the step from bytes to values, event by event. The laws on dialogs, nonces and runs, and the
//! code of a connection, stand on it.
#![tactic(auto)]

pub mod channel_numbers;
pub mod events;
pub mod frame_counts;
mod lone_server;
pub mod requests;
pub mod wire_facts;

pub use channel_numbers::{accepted_kept_law, channel_numbers_rise_law, channels_are_numbered_law};
pub use events::{
    fronts_served_law, fronts_taken_law, in_step_law, own_events_law, takes_law, ties_law,
    tree_takes_law,
};
pub use frame_counts::{lists_law, refusals_law};
pub use lone_server::{nothing_befell_law, own_step_law, single_events_law};
pub use requests::{line_crashes_law, line_sends_law, line_serves_law, opens_law, pushes_law};
pub use wire_facts::{
    answered_law, ciphers_law, commands_law, file_ids_carried_law, greeting_law, headers_law,
    setups_law, trees_law,
};
