//! Logon tokens (RFC 4178, MS-NLMP), the preauthentication hash, and a session's keys, signatures and sealing (MS-SMB2
//! 3.1.4). It is a room because both ends of a connection need just this to make a session and to keep it safe. The
//! server's tables and both ends of a connection stand on it.
#![tactic(auto)]

mod ntlmv2;
mod preauth_hash;
mod session_keys;
mod spnego;

pub use ntlmv2::{
    Acceptor, Credentials, Logon, LogonError, NtlmError, NtlmField, Type1, Type2, Type3, Users,
    answer_to, base_key, can_write_type2, can_write_type3, first_message, mic, ntowf, proof,
    read_type1, read_type2, read_type3, sign_mech_list, write_type1, write_type2, write_type3,
};
pub use preauth_hash::{Chain, chain_law};
pub use session_keys::{
    Chosen, Keys, Nonces, SealError, Signer, Spent, bind, derive, nonces_once_law, seal,
    seal_in_place, sign, unseal, unseal_in_place, verify,
};
pub use spnego::{
    DerError, InitToken, NTLM_LIST, RespToken, can_write_init, can_write_resp, init_law, read_init,
    read_resp, resp_law, write_init, write_resp,
};
