//! An event as the server's step looks at it (MS-SMB2 3.3.5): what its bytes, and the sessions that are live, make of it.

mod asked;
mod event;

pub use asked::{Asked, LogonPart, hear};
pub use event::ServerEvent;
