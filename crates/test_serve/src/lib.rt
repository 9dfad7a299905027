//! Tests of the command that serves: its endings, its words, and links that are served at the same time. It is a room
//! because a crate with tests is proved twice. Nothing stands on it.
//!
//! Tests of the command that serves: how it ends, what its words say, that a file outlives its server, what becomes of it where each call
//! of a device fails, that its journal is written anew, and that links are served at the same time. They stand in a crate of their own, so that the crates that they call
//! aren't proved a second time for them.
#![tactic(auto)]

#[cfg(test)]
mod calls;
#[cfg(test)]
mod devices;
#[cfg(test)]
mod endings;
#[cfg(test)]
mod files;
#[cfg(test)]
mod full_disk;
#[cfg(test)]
mod links;
#[cfg(test)]
mod meeting;
#[cfg(test)]
mod renewal;
#[cfg(test)]
mod words;
