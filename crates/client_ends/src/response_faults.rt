//! What a dialog finds in each response (MS-SMB2 3.2.5.2, 3.2.5.3, 3.2.5.5): its first fault but for want of credits, or what
//! it takes of it.

mod form;
mod greeting;
mod setup;
mod tree;

pub use greeting::{Greeted, judge_greeting};
pub use setup::{Begun, Ended, judge_final, judge_interim};
pub use tree::judge_tree;
