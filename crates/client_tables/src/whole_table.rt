//! The client's operations, its session and what it told, without its opens: what a dialog's end, a cut, a settling
//! and the end of all do to them.

mod beginning;
mod cutting;
mod dialogs;
mod finishing;
mod parts;
mod settling;

pub use parts::Table;
