//! The client's lock slots of an open (MS-SMB2 3.2.1.4.1), equal to the model's: which one is taken next, and under which number.

mod using;

pub use using::{fill_slot, free_slot, slots_law, take_unused, take_used, try_again};
