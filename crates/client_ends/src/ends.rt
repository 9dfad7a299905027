//! The client's end of a connection (MS-SMB2 3.2.1.2, 3.2.1.3): a dialog that makes a session or binds a channel to one,
//! and the line that it ends as, with the requests that wait for a response on it.

mod config;
mod dialog;
mod heard;
mod line;

pub use config::{Bound, ClientConfig, Fresh};
pub use dialog::{Dialog, Stage};
pub use heard::heard_header;
pub use line::{Line, LineError, Outstanding};
