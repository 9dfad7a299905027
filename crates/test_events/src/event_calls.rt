//! A client of a server whose journal stands on a disk in memory: what it logs on with, and its requests as events. The server's
//! users are `User` with the password `Password` and `other` with `word`, and its share is `data`.

mod counting;
mod envelope;
mod fault;
mod logon;
mod server;
mod tokens;

pub use counting::CountingDisk;
pub use envelope::Envelope;
pub use fault::{Fault, kept};
pub use logon::{keys_behind, setup_heard, setup_message};
pub use server::{config, disk_of};
pub use tokens::{check_last, first_token, second_token};
