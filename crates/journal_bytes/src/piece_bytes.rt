//! The pieces of a snapshot as bytes, both ways: seven kinds, which no body of records has.

mod fault;
mod found;
mod laws;
mod list;
mod reading;
mod value;
mod writing;

pub use fault::PieceError;
pub use laws::{largest_law, pieces_example, pieces_law};
pub use list::Pieces;
pub use reading::read_pieces;
pub use value::{FileFront, OpenFront, Piece};
pub use writing::{put_base, put_bytes, put_file, put_guid, put_open, put_range, put_slot};
