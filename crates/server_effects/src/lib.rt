//! What a verdict, a lost connection or an expiry changes in the server's tables (MS-SMB2 3.3.5, 3.3.6.2, 3.3.7.1). It
//! is a room because none of it takes memory and none of it can fail. The server's recovery, plan and step stand on it.
//!
//! What a verdict does to the server's tables (MS-SMB2 3.3.5), and its answer. None of it takes memory, and none of it can fail.
#![tactic(auto)]

mod answering;
mod changing;
mod closing;
mod creates;
mod event_effects;
mod expiry;
mod fates;
mod laws;
mod leaving_opens;
mod locks;
mod logons;
mod lost_connections;
mod making;
mod prepared_event;
mod reached;
mod recovered_deadlines;
mod reserved;
mod session_ends;
mod trees;
mod verdict_effects;

pub use answering::{Answer, acting, answer_with, quiet, reply};
pub use changing::{ChangeReady, alter, bytes_of};
pub use closing::{close_one, close_open, mark_behind, part};
pub use creates::{Asks, attach, create_reply, keep_refusal, repeat};
pub use event_effects::carry_event;
pub use expiry::{Expired, due, give_up, put_back, take_expired};
pub use fates::Fate;
pub use laws::able_law;
pub use leaving_opens::{
    Leaving, all_end_records, end_in, expire_records, fate_with, leave_each, leave_in,
};
pub use locks::{keep_slot, put_ranges};
pub use logons::{begin, challenge, challenge_binding, join};
pub use lost_connections::{take_all_out, take_out};
pub use making::{FileReady, make};
pub use prepared_event::Prepared;
pub use reached::{reach, seek, show, tell, turn_down};
pub use recovered_deadlines::dated_effects_law;
pub use reserved::{Ready, SetupReady};
pub use session_ends::{end_if_named, end_session, leave_all, leave_one, leave_open};
pub use trees::{add_tree, drop_tree};
pub use verdict_effects::{carry_out, end_by_message, set_up};
