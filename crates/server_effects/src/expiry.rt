//! An open that expires in front of an event (MS-SMB2 3.3.6.2): it is taken out, to see what the event comes to without it,
//! and put back where both don't fit the journal.

mod expiry;

pub use expiry::{Expired, due, give_up, put_back, take_expired};
