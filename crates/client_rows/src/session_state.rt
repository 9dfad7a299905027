//! A client's session and its channels, equal to the model's: which channels are ready, what they share, and what ends it.

mod session;

pub use session::{CHANNELS, Cut, Session};
