//! A ready channel of a world's client sends: the lowest operation that may go out and is paid for.

mod asking;
mod choosing;
mod pushing;
mod saying;

pub use crate::{
    Act, Channel, ClientSide, Down, Event, Marks, Places, Played, World, WorldError, close_clients,
    closes_all, cut_end, happen, later,
};
pub use pushing::push;
