//! What the journal's records stand for: behind an event, an expiry, and all of them behind a restart. It is a room
//! because it is what recovery and the journal's code lean on. The laws on acts, and the server's code, stand on it.
#![tactic(auto)]

mod deadlines;
mod effects;
mod expiry;
pub mod fold;
mod journal;
pub mod leaving_opens;
pub mod recovery;
mod tables;

pub use deadlines::dated_law;
pub use effects::{carried_law, making_law};
pub use expiry::expiring_law;
pub use fold::{created_law, form_law, ordered_law, shut_law, swept_law};
pub use journal::stands_law;
pub use leaving_opens::{alone_law, begun_law, empty_law, ended_law, left_law, next_law, out_law};
pub use recovery::recovery_law;
pub use tables::keeps_law;
