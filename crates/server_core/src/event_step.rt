//! One event of a server: an open that expires in front of it, its step (MS-SMB2 3.3.5), and its records on the disk.

mod alone;
mod back;
mod both;
mod event;
mod expiring;

pub use event::answer_event;
