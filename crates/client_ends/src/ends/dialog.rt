use crate::ends::config::{Bound, ClientConfig};
use crate::ends::line::Line;
use crypto_sessions::Chain;
use spec_crypto::Chosen;
use wire_bytes::Refusal;

/// How far a dialog has come: the message that it said last, or what it ended as.
#[derive(Clone, Copy)]
pub enum Stage {
    SaidNegotiate,
    SaidFirst,
    SaidSecond,
    AskedTree,
    /// Its channel is bound to a session, and ready.
    Joined,
    Refused(Refusal),
    /// It gave its line away.
    Over,
}

/// A dialog: NEGOTIATE, two SESSION_SETUPs, and TREE_CONNECT where it makes a session (MS-SMB2 3.2.4.2).
#[derive(Drop)]
pub struct Dialog {
    pub stage: Stage,
    pub line: Line,
    pub config: ClientConfig,
    /// The exported key of its logon.
    pub base: [u8; 16],
    pub challenge: [u8; 8],
    pub chosen: Chosen,
    /// The chain behind the messages that are hashed.
    pub chain: Chain,
    /// The session that its channel is bound to, where it makes none.
    pub bound: Option<Bound>,
    /// The last session that was accepted, which a new one names as its previous one.
    pub previous: u64,
    /// The session in the making, once the interim response told it.
    pub session: u64,
}
