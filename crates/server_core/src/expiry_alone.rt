//! An open that was taken out in front of an event comes back, or its expiry stands alone (MS-SMB2 3.3.6.2).

mod lone;

pub use lone::take_back;
