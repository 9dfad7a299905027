//! Laws on a network that repeats, reorders and redirects what both ends ever sent: what stands so far of the statement on such
//! runs. It is a room because nothing on the network that only loses stands on it. Nothing stands on it.
//!
//! Each law is the contract of a public function that does nothing.
#![tactic(auto)]

mod acts;
mod dialogs;
mod empties;
mod ended;
mod finals;
mod greeted;
mod ids;
mod loosely;
mod meant;
mod negotiating;
mod placed;
mod premises;
mod puts;
mod replied;
mod sends;
mod setups;
mod sifting;
mod taken_ids;
mod unforged;

pub use acts::{acts_are_guarded_law, faulty_acts_not_law};
pub use dialogs::{channels_are_counted_law, dialogs_come_first_law};
pub use empties::lists_are_empty_law;
pub use ended::{
    accepted_once_law, accepted_sessions_law, dialogs_name_sessions_law, servers_stand_law,
};
pub use finals::{accepted_was_made_law, made_was_signed_law, signed_was_made_law};
pub use greeted::ends_greet_client_law;
pub use ids::{own_frames_law, own_ids_rise_law};
pub use loosely::{loose_newer_law, loose_once_law, loose_sessions_law, loose_steps_example};
pub use meant::{heard_is_meant_law, own_requests_law, requests_are_heard_law};
pub use negotiating::repeat_negotiation_law;
pub use placed::{heard_is_own_law, signed_for_opening_law};
pub use premises::short_runs_law;
pub use puts::{put_stays_law, signed_reply_was_put_law, signed_was_put_law};
pub use replied::{
    signed_replies_law, signed_replies_tell_law, taken_replies_are_awaited_law, taken_replies_law,
};
pub use sends::{
    acts_are_sends_law, heard_was_sent_law, own_lines_fit_law, own_sends_law,
    taken_answers_send_law, taken_trees_answer_law,
};
pub use setups::setups_are_own_law;
pub use sifting::lists_may_sift_law;
pub use taken_ids::{frames_take_once_law, opening_takes_once_law, signed_takes_once_law};
pub use unforged::forged_or_signed_law;
