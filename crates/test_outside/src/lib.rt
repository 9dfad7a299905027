//! Tests of this machine's files, sockets, clock and threads under the program's traits. It is a room because a crate
//! with tests is proved twice, and nothing here needs a second proof of what it tests. Nothing stands on it.
//!
//! Tests of what is outside of the proofs: this machine's files, sockets, clock and threads. They stand in a crate of their own, so that
//! the crates that they call aren't proved a second time for them.
#![tactic(auto)]

#[cfg(test)]
mod adapters;
#[cfg(test)]
mod book;
#[cfg(test)]
mod files;
#[cfg(test)]
mod logons;
#[cfg(test)]
mod net;
#[cfg(test)]
mod onlookers;
#[cfg(test)]
mod turns;
