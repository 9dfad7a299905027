//! What goes out of an operation (MS-SMB2 3.2.4): its own request, or the request to attach its open in its place, with what the header
//! tells of the session and of the operation. It is read from the client's table and from what is known of its opens.

mod heads;
mod requests;

pub use heads::{Head, ask_head, own_head};
pub use requests::{ask_request, own_request};
