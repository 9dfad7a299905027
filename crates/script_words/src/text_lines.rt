//! Scripts and settings: their lines, from the text on, with the number of the first that is refused.

mod limits;
mod line;
mod lines;
mod settings;

pub use limits::{SCRIPT_BYTES, SCRIPT_LINES, SCRIPT_OPERATIONS};
pub use line::{Line, Refusal, Script};
pub use lines::script;
pub use settings::{Settings, with_defaults};
