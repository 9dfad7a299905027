//! The records that the answer to a message owes (MS-SMB2 3.3.5; the journal is this project's), told before it is carried out.

mod change;
mod create;
mod laws;
mod lock;
mod records;
mod verdict;

pub use change::{bytes_of, path_of};
pub use create::timeout_of;
pub use laws::owing_law;
pub use records::origin_of;
pub use verdict::owed;
