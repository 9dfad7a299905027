//! The server's sessions (MS-SMB2 3.3.1.8), their channels and trees, and what is in the making on each connection
//! (3.3.1.7).
//!
//! As in the table of opens a call that needs memory takes it first, and what it made room for can't fail.

mod ids;
mod links;
mod look;
mod row;
mod table;
mod tokens;
mod trees;

pub use row::{InMaking, Link, Purpose, SessionRow};
pub use spec_exchange::values::Tree;
pub use table::Sessions;
pub use tokens::{Begun, TokenShown, challenge_for, final_for, token_shown};
