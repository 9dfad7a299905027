//! Whole texts from a source and to a sink: what was read or written, and whose count of faults rose where it wasn't.

mod limits;
mod read_error;
mod reading;
mod writing;

pub use limits::SCRIPT_BYTES;
pub use read_error::ReadError;
pub use reading::read_script;
pub use writing::write_all;
