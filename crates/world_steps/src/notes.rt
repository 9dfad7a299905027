//! What each step of a world comes to, where the run is watched. No clause says what a step's note tells: they say that a note leaves all
//! else of the world as it is.

mod fronts;
mod keeping;

pub use crate::beginning::{
    Channel, ClientSide, Happened, Notes, Step, World, WorldError, WorldEvent, begin,
};
pub use keeping::{begin_step, finished, is_watched, keep_step, watch};
