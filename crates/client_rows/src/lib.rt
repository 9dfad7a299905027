//! Rows of the client's operations, its session and channels, what an open keeps of its operations, and its lock slots
//! (MS-SMB2 3.2.1). It is a room because each row is tied to the model's client here. The client's tables stand on it.
//!
//! The rows of a client's operations, tied to the model's client: its choice at a push, and the steps of one operation.
#![tactic(auto)]

mod choosing;
mod lock_slots;
mod losing;
pub mod open_marks;
pub mod operation_rows;
mod session_state;
mod steps;

pub use choosing::choose_from;
pub use lock_slots::{fill_slot, free_slot, slots_law, take_unused, take_used, try_again};
pub use losing::lose;
pub use open_marks::{Marks, list_holders, new_law};
pub use operation_rows::{
    Chain, Row, Slot, add, begin, change, find_from, first_unsettled, holder_of, least_free,
    make_room, settle, take,
};
pub use session_state::{CHANNELS, Cut, Session};
pub use steps::{answer, ask, put_row, settle_one};
