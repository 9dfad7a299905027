//! Connections that are lost, with the sessions that end with them (MS-SMB2 3.3.7.1).

mod connections;

pub use connections::{take_all_out, take_out};
