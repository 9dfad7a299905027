//! Definitions alone: the two forms of a journal on a disk, and the checksum of the second one. It is a room of its own because the
//! journal and the laws of a journal that is written anew stand on it, and no other room does.
#![tactic(auto)]

mod form;

pub use form::Form;
