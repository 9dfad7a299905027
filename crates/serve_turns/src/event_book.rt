//! The server as the book that its connections share: a turn takes one event, a message of which was checked before. In front of the event
//! the server may renew its journal, in the same turn.

mod book;
mod lasting;
mod turn;

pub use book::EventBook;
pub use lasting::Lasting;
pub use turn::{Answer, Asks, Turn, What};
