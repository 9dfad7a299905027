//! NTLM's messages as they are spelled read back (MS-NLMP 2.2.1), and a logon between a client and a server of this
//! project's own succeeds with the client's key (3.1.5.1.2, 3.2.5.1.2).

mod messages;
mod own;

pub use messages::{type1_law, type2_law, type3_law};
pub use own::{answer_law, challenge_law, own_logon_law};
