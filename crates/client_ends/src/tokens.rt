//! The tokens of a logon at the client (MS-SMB2 3.2.4.2.3, RFC 4178 4.2, MS-NLMP 3.1.5.1): its first one, the answer to the
//! server's challenge, and whether the server's last one ends the logon.

mod answering;
mod beginning;
mod ending;

pub use answering::answer_token;
pub use beginning::{first_token, is_hint};
pub use ending::is_final;
