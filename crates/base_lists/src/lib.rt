//! Lists of owned elements, sets of numbers, prices by index, ranges and watchers, in memory. It is a room because its
//! lists and indexes know nothing of SMB. The journal, the opens and the client's tables stand on it.
#![tactic(auto)]

pub mod number_set;
mod owned_list;
pub mod price_table;
mod range_index;
pub mod watch_lists;

pub use number_set::Members;
pub use owned_list::ListOf;
pub use price_table::{NEVER, Prices};
pub use range_index::RangeIndex;
pub use watch_lists::{Link, Watchers};
