//! What a drill prints of the world behind its script's last line: a function of the world of the definitions that this one shows, but for
//! how the files are listed, which that world decides as well.

mod creates;
mod printing;

pub use printing::text_of;
pub use world_ends::results::end;
pub use world_ends::{EndedWorld, files};
