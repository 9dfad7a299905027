//! What opens of one file allow each other: their access and sharing (MS-FSA 2.1.5.1.2.2), and the byte ranges that
//! they lock (MS-FSA 2.1.4.10).

mod counts;
mod law;
mod lists;
mod owners;
mod ranges;
mod sharing;
mod walk;

pub use counts::ShareCounts;
pub use law::ranges_law;
pub use lists::{Open, OpenList, Range, RangeList};
pub use ranges::{RangeError, Ranges};
pub use sharing::{Violation, admits};
