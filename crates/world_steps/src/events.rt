//! One event of a world in code, from a match over all of them: a step is the one that the definitions of the exchange over bytes have.

mod going;
mod stepping;

pub use crate::beginning::begin;
pub use crate::notes::{
    Channel, ClientSide, Happened, Notes, Step, World, WorldError, WorldEvent, finished,
    is_watched, watch,
};
pub use crate::serving::Played;
pub use crate::{finish, is_coming, is_open, is_ready, is_served, taken_by};
pub use going::go;
pub use stepping::{note, step, take};
