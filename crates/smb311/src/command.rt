//! What the program does: the server's command where the first of its words is `serve`, and else `drill` or `gen`.

mod running;
mod serving;
mod top;
mod words;

pub use serving::Ran;
pub use top::smb311;
