//! The records of opens that leave (MS-FSA 2.1.5.5), told before the first of them does.

mod connections;
mod expired;
mod leaving;
mod records;
mod step;

pub use connections::all_end_records;
pub use expired::{expire_records, fate_with};
pub use leaving::Leaving;
pub use records::{end_in, leave_each, leave_in};
