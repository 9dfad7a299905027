//! The server's end of a connection: its state, a frame opened and checked, the events of its messages, their replies
//! in signed or sealed frames, and the cause of its end (MS-SMB2 3.3.1.7, 3.3.5.2, 3.3.4.1). It is a room because it
//! asks the server for answers and knows none of its tables. The server's step, serving, and both ends in one run stand
//! on it.
#![tactic(auto)]

mod conn;
mod end;
pub mod frame_events;
pub mod frame_messages;
mod logon_state;
mod lone_server;
mod message_replies;
mod negotiating;
pub mod related;
mod reply_frames;
pub mod reply_sealing;
pub mod requests;
mod served;
mod taking;

pub use conn::{Conn, Greeting, Logon, Progress};
pub use end::{ConnEnd, Ended};
pub use frame_events::{Dealt, Moment, ask, carry_out, dealt_for, goes, hand_on, refuse};
pub use frame_messages::{Checked, CheckedFrame, check, check_own, is_probe};
pub use logon_state::Behind;
pub use lone_server::take_own;
pub use message_replies::{Answers, has_event};
pub use negotiating::{Greeter, Hello, hello_to};
pub use related::{Carry, bare_status, inherit};
pub use reply_frames::{Answered, answer, answered_with};
pub use requests::{Told, event, told_of};
pub use served::{Replies, Reply, Serve, ServeError};
pub use taking::{StepNote, Taken, take_frame};
