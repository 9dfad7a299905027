//! What a message of a frame asks of the server (MS-SMB2 3.3.5.2).

mod hearing;

pub use hearing::{Told, event, told_of};
