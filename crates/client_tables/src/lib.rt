//! The client's tables of operations and opens: what a push, a cut, a settling and the end of a session do to them. It
//! is a room because a table and its opens change together. The client's steps stand on it.
#![tactic(auto)]

pub mod attached_opens;
mod choice;
mod costs;
mod cuts;
pub mod opens;
mod outstanding;
pub mod pushes;
mod session_ends;
pub mod settling;
mod submits;
pub mod whole_table;

pub use attached_opens::Opened;
pub use choice::{Attached, Found, find};
pub use costs::{attach, price_one, price_open};
pub use cuts::{lose_channel, lose_session};
pub use opens::{Open, opens_law, take_on};
pub use outstanding::{lose_all, lose_on_channel};
pub use pushes::{goes_itself, pick, send_again, send_first, send_lock, send_lock_again};
pub use session_ends::end_from;
pub use settling::{first_left, give_up_from, settle_as};
pub use submits::add_one;
pub use whole_table::Table;
