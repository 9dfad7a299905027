//! The files of a share by number and by path: names, kinds, times, delete pending and bytes. The root is 0.
//!
//! Rows stand by number in a hash map, and paths in upper case in an ordered map. A call that needs memory takes it
//! first, so that what it does then can't fail.
//!
//! A number names a file or directory that is there; on any other, and for bytes on a directory, a call returns but
//! promises nothing.

mod by_path;
mod bytes;
mod error;
mod files;
mod find;
mod gone;
mod index;
mod list;
mod make;
mod new_name;
mod parts;
mod placing;
mod rename;
mod row;
mod tree;

pub use bytes::NewBytes;
pub use error::StoreError;
pub use files::StoredFile;
pub use gone::Gone;
pub use list::{Entry, Listed};
pub use make::NewFile;
pub use new_name::NewName;
pub use placing::PlacedFile;
pub use rename::Move;
pub use row::Info;
pub use tree::{Space, Tree};
