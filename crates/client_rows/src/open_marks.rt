//! What an open keeps of its operations, so that a new one finds what it waits for.

mod law;
mod listing;
mod marks;

pub use law::new_law;
pub use listing::list_holders;
pub use marks::Marks;
