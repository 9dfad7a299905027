//! Each call of the client over its tables: submit, push, hear, cut and the end of a session. It is a room because each
//! call is one step of the model's client. The client event by event stands on it.
//!
//! The steps of one operation over the client's table: a request to attach goes out in its place, it goes out itself, and it is answered.
//! The set of what is outstanding goes with them.
#![tactic(auto)]

mod choosing;
mod creating;
mod cutting;
mod first_row;
pub mod free_columns;
mod hearing;
mod open_updates;
mod pushing;
mod refreshing;
pub mod responses;
mod sending;
mod sent_requests;
mod stepping;
mod submits_on_opens;
mod submitting;
mod taking;
mod unsent;
pub mod whole_client;

pub use choosing::choose;
pub use creating::take_first;
pub use cutting::{Opened, cut, end_table};
pub use first_row::start_rows;
pub use free_columns::free_columns_law;
pub use hearing::settle_heard;
pub use open_updates::{fill_at, join_at, note_ok};
pub use pushing::{Pushed, push};
pub use refreshing::refresh;
pub use responses::{Response, hear, is_awaited};
pub use sending::send;
pub use sent_requests::{Head, ask_head, ask_request, own_head, own_request};
pub use stepping::{answer_at, ask_at, send_lock_again_at, send_lock_at, send_plain_at};
pub use submits_on_opens::{Table, new_row, take_onto};
pub use submitting::take_more;
pub use taking::{make_first, make_room, may_take, take_row};
pub use unsent::{add_later, give_up_opened};
pub use whole_client::Client;
