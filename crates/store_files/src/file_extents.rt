//! The bytes of one file as pieces by the place where each begins. Where none lies the bytes are 0 and take no
//! memory. Each piece is owned: a write changes in place what it meets in part, takes away what it covers and adds
//! at most one piece.

mod cut;
mod extents;
mod parts;
mod put;
mod seek;
mod write;

pub use extents::Extents;
pub use write::Prepared;
