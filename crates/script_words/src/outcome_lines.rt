//! What a run of a script prints: the dialogs that were refused, how its operations settled, the order of what its creates' opens did,
//! and the files; or, of a text that isn't a script, the line that is refused.

mod dialogs;
mod files;
mod orders;
mod outcomes;
mod refused;
mod run;
mod shown;

pub use orders::{CreateOrder, NumberList, has_order};
pub use refused::refusal_line;
pub use run::run_text;
