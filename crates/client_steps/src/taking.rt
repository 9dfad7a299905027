//! An operation comes onto a client's table: whether it may, room for it, and its row among those of its open. The lists of opens are the
//! caller's. What a script may submit is this project's.

mod allowing;
mod rooms;
mod taking;

pub use allowing::may_take;
pub use rooms::{make_first, make_room};
pub use taking::take_row;
