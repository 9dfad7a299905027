//! What a channel that is cut takes of what a client has outstanding, and what the end of a session does.

mod cutting;

pub use cutting::{lose_channel, lose_session};
