//! What a client keeps of each operation, and by which links it finds what holds up another.

mod chains;
mod choosing;
mod holders;
mod listed;
mod moves;
mod row;
mod slots;
mod taking;

pub use chains::{Chain, first_unsettled};
pub use choosing::find_from;
pub use holders::holder_of;
pub use moves::{change, settle};
pub use row::Row;
pub use slots::{Slot, least_free};
pub use taking::{add, begin, make_room, take};
