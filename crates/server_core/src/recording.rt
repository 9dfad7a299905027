//! The body of an event's records goes onto a server's disk. Where that fails the server stops.

mod recording;

pub use recording::write;
