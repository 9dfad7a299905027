//! CRC-32C (RFC 3720 12.1), by a table of what is left of each byte.

mod laws;
mod sums;
mod table;

pub use laws::{sums_law, vectors_example};
pub use sums::{Sum, checksum_of};
