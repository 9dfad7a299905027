//! The journal's bodies as bytes: records, and the pieces of a snapshot. It is a room because it knows no disk and no
//! table of the server. The server's records, recovery and compaction stand on it.
#![tactic(auto)]

pub mod piece_bytes;
pub mod record_bodies;
pub mod record_bytes;

pub use piece_bytes::{
    FileFront, OpenFront, Piece, PieceError, Pieces, largest_law, pieces_example, pieces_law,
    put_base, put_bytes, put_file, put_guid, put_open, put_range, put_slot, read_pieces,
};
pub use record_bodies::{body_law, elements_of, guid_of, spelled};
pub use record_bytes::{
    Basic, NewOpen, Origin, Record, RecordError, Records, can_write, is_short, read_records,
    records_law, write_records,
};
