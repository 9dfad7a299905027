//! What a client keeps of an open for the operations to come, and how it takes one more.

mod covering;
mod law;
mod noting;
mod opening;
mod submitting;

pub use law::opens_law;
pub use opening::Open;
pub use submitting::take_on;
