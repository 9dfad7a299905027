//! The messages of a dialog at the client, but for its TREE_CONNECT (MS-SMB2 3.2.4.2.2.2, 3.2.4.2.3): NEGOTIATE, and
//! SESSION_SETUP with a token.

mod frame;
mod greeting;
mod setup;

pub use greeting::greeting_text;
pub use setup::{Setup, setup_frame};
