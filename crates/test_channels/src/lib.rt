//! Tests of the client's channels, and of the command `run`, against the command that serves, over links in memory. It is a room because
//! a crate with tests is proved twice. Nothing stands on it.
#![tactic(auto)]

#[cfg(test)]
mod calls;
#[cfg(test)]
mod channels;
#[cfg(test)]
mod commands;
#[cfg(test)]
mod devices;
