//! What serves links by seats of one book: the clock that connections share, one link that is served, and the lines on
//! how connections ended.

mod clock;
mod ended;
mod lines;
mod serving;

pub use clock::SharedClock;
pub use ended::{ConnEnd, Ended};
pub use lines::push_lines;
pub(crate) use lines::word_of;
pub use serving::{Roll, Service, entered, serve_briefly};
