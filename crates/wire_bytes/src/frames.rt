//! Messages on a stream (MS-SMB2 2.1): frames made of messages, and taken out of pieces, however the
//! stream was cut.

mod deframer;
mod frame;
mod front;
mod long;

pub use deframer::{Deframer, Frame};
pub use frame::frame_of;
pub use spec_wire::FrameError;
