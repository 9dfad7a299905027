//! The client's dialog hears the front of what comes down: it goes on, its session is accepted, its channel becomes ready, or it is
//! refused.

mod ending;
mod fronting;
mod going;
mod hearing;
mod joining;
mod refusing;
mod turning;

pub use crate::opening::open;
pub use turning::take_talk;
