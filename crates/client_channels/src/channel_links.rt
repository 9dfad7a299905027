//! Frames on a link.

mod taking;
mod writing;

pub(crate) use taking::{Came, take_frame};
pub(crate) use writing::{Said, say};
