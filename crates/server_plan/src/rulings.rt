//! What an event comes to before anything changes: the verdict on a message, or what becomes of connections
//! (MS-SMB2 3.3.5.1, 3.3.7.1), and the records that lost connections owe.

mod lost;
mod ruling;

pub use lost::{all_lost_records, lost_records};
pub use ruling::{Ruling, at_connection, rule, ruling_law, without_records};
