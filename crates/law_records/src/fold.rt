//! What a fold of records finds behind each of them: a file that was just made or emptied, files in the order of their
//! numbers, what a new epoch sweeps away, and the marks that it leaves.

mod laws;

pub use laws::{created_law, form_law, marks_law, ordered_law, shut_law, swept_law};
