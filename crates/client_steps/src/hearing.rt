//! What a response does to a client's table and its opens (MS-SMB2 3.2.5): an operation settles by it, goes out again,
//! its open is attached,
//! or the session ends.

mod giving;
mod settling;

pub use crate::answer_at;
pub use crate::open_updates::join_at;
pub use crate::unsent::add_later;
pub use settling::settle_heard;
