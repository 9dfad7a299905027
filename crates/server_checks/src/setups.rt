//! What a server's core and its connections share: a SESSION_SETUP as it is heard, and why an event has no answer.

mod error;
mod laws;
mod setup;

pub use error::EventError;
pub use laws::{absent_law, unmade_law};
pub use setup::SetupHeard;
