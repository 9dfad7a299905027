//! A journal on a disk that may crash at any moment. It is a room because it knows no table of the server, and of its bodies
//! only that they are bytes. The server's recovery stands on it.
#![tactic(auto)]

mod checksum;
mod disk_journal;

pub use checksum::{Sum, checksum_of, sums_law, vectors_example};
pub use disk_journal::{
    BytesList, Found, Journal, JournalError, RefusedStart, Rewrite, broken_means_nothing,
    one_break, one_form, one_meaning, prepare, repair,
};
