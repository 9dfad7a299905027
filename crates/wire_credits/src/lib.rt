//! Message ids and credits of one connection: the server's window and the client's purse (MS-SMB2 3.3.1.1, 3.2.1.2). It
//! is a room because both ends of a connection use it and it knows no message. Both ends of a connection stand on it.
//!
//! The message ids and the credits of one connection (MS-SMB2 3.3.1.1, 3.2.1.2): the server's window and
//! the client's purse. Neither takes memory after it is made.
#![tactic(auto)]

pub mod purse;
pub mod window;

pub use purse::{NoCredit, Purse};
pub use window::{Outside, Window};
