//! What goes out of an operation at a push (MS-SMB2 3.2.4), over the client's table and its opens: the operation itself, a lock with its
//! slot, or a request to attach its open in its place.

mod locking;
mod sending;

pub use sending::send;
