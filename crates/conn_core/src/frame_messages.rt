//! What the server's end of a connection hears in a frame (MS-SMB2 3.3.5.2): its messages, each with the first fault that
//! the connection finds in it, or why the connection ends.

mod checked;
mod checking;

pub use checked::{Checked, CheckedFrame};
pub use checking::{check, check_own, is_probe};
