//! Operations and their outcomes as values, what they ask of a server, and what its replies tell of them. It is a room
//! because scripts and the client's tables share it. Scripts, the client's tables and its end of a connection stand on
//! it.
#![tactic(auto)]

mod commands;
pub mod operations;
mod outcomes;

pub use commands::{Ids, id_in, reconnect_of, request_of, value_in};
pub use operations::{Kind, Op, OpKind, OpReply, Shape, TextList, Verdict, judge, keeps_limits};
pub use outcomes::{Asked, Hearing, Outcome, RefusedDialog, Why, heard_law, is_gone, weigh};
