//! What a response tells of an open (MS-SMB2 3.2.5), over the client's table and its opens: that it is attached in this session, the FileId
//! that its create's success names, that it is closed, and that a lock slot of it met DISK_FULL.

mod attaching;
mod filling;
mod noting;

pub use crate::answer_at;
pub use attaching::join_at;
pub use client_tables::Opened;
pub use filling::fill_at;
pub use noting::note_ok;
