//! NTLMv2 (MS-NLMP): the three messages, read and written; its formulas; the server's side, which makes a challenge and
//! checks the answer; and the client's side, which makes the first message and the answer.

mod acceptor;
mod answer;
mod formulas;
mod messages;
mod pairs;
mod text;
mod users;

pub use acceptor::{Acceptor, Logon};
pub use answer::{Credentials, answer_to, first_message};
pub use formulas::{base_key, mic, ntowf, proof, sign_mech_list};
pub use messages::{
    Type2, Type3, can_write_type2, can_write_type3, read_type1, read_type2, read_type3,
    write_type1, write_type2, write_type3,
};
pub use spec_crypto::{LogonError, NtlmError, NtlmField, Type1};
pub use users::Users;
