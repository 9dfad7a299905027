//! Names and paths of files (MS-FSCC 2.1.5, MS-SMB2 2.2.13).

mod names;
mod pattern;

pub use names::{begins_with_backslash, is_component, key_of, path_form, units};
pub use pattern::accepts;
