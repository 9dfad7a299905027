//! A push on one of a client's channels, over its table and its opens: the lowest operation that may go out and is paid for goes out, or a
//! request to attach its open does (MS-SMB2 3.2.4.1.5, 3.2.4.4).

mod pushing;

pub use client_tables::Opened;
pub use pushing::{Pushed, push};
