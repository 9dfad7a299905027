//! The operations of a script as a client keeps them, each equal to the model's: what they ask, by what they wait, and what
//! they are answered.

mod kinds;
mod limits;
mod lists;
mod settling;
mod shapes;
mod values;

pub use limits::keeps_limits;
pub use lists::TextList;
pub use settling::{Verdict, judge};
pub use shapes::{Kind, Shape};
pub use values::{Op, OpKind, OpReply};
