//! What answers a NEGOTIATE at the server (MS-SMB2 3.3.5.4).

mod greeting;

pub use greeting::{Greeter, Hello, hello_to};
