//! The client's end of a connection: the dialog that makes a session or binds a channel to it, and the line that it
//! ends as (MS-SMB2 3.2.4, 3.2.5). It is a room because it knows no operation's table. The client event by event, and
//! both ends in one run, stand on it.
#![tactic(auto)]

pub mod dialog_calls;
mod dialog_requests;
mod dialog_responses;
mod ends;
pub mod line_calls;
mod operation_requests;
mod response_faults;
mod tokens;

pub use dialog_calls::{Heard, start, start_bind};
pub use dialog_requests::{Setup, greeting_text, setup_frame};
pub use dialog_responses::{
    SetupTold, flags_fit, greeting, is_response, seals, setup_told, tree_reads,
};
pub use ends::{
    Bound, ClientConfig, Dialog, Fresh, Line, LineError, Outstanding, Stage, heard_header,
};
pub use line_calls::{Answer, has_cipher, send};
pub use operation_requests::{Heading, number_of, request_of};
pub use response_faults::{
    Begun, Ended, Greeted, judge_final, judge_greeting, judge_interim, judge_tree,
};
pub use tokens::{answer_token, first_token, is_final, is_hint};
