//! The files of a share: their bytes, names, listings and renames (MS-FSCC 2.1.5). It is a room because files are found
//! by number and by path without any open. The server's tables and recovery stand on it.
#![tactic(auto)]

mod file_extents;
mod file_tree;
mod names;

pub use file_extents::{Extents, Prepared};
pub use file_tree::{
    Entry, Gone, Info, Listed, Move, NewBytes, NewFile, NewName, PlacedFile, Space, StoreError,
    StoredFile, Tree,
};
pub use names::{accepts, key_of, path_form, units};
