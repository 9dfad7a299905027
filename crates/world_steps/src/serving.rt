//! The steps of a world in which its server hears a frame: it answers it, or crashes in its event.

mod crashing;
mod drawing;
mod fronts;
mod hearing;
mod noting;
mod parting;
mod saying;
mod serving;

pub use crate::{
    Change, Played, cut, drop_server, finish, is_coming, is_open, is_ready, is_served, restart,
    submit, taken_by, tamper, wait,
};
pub use crashing::crash;
pub use serving::serve;
