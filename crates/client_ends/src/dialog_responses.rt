//! The responses of a dialog at the client (MS-SMB2 3.2.5.2, 3.2.5.3, 3.2.5.5): what NEGOTIATE chose and whether that was
//! offered, a SESSION_SETUP's token and flags, and whether a TREE_CONNECT response reads.

mod bits;
mod choice;
mod contexts;
mod negotiated;
mod setup;

pub use bits::{flags_fit, is_pending, is_response, seals};
pub use negotiated::greeting;
pub use setup::{SetupTold, setup_told, tree_reads};
