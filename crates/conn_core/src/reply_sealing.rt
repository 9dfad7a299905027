//! Replies joined in frames, which are signed or sealed (MS-SMB2 3.3.4.1).

mod frames;
mod putting;
mod said;

pub use frames::{Frames, Placed};
pub use said::Said;
