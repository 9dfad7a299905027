//! The server whose journal is written anew when it is due.

mod book;
mod marks;

pub(crate) use book::LastingBook;
