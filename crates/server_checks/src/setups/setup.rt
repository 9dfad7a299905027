use spec_crypto::Chosen;
use wire_commands::SetupForm;

/// A SESSION_SETUP (MS-SMB2 2.2.5) with what its connection tells of it.
#[derive(Clone, Copy)]
pub struct SetupHeard<'a> {
    pub connection: u32,
    /// The ClientGuid, its first byte the lowest.
    pub client_guid: u128,
    pub session_id: u64,
    pub tree_id: u32,
    pub message_id: u64,
    pub channel_sequence: u16,
    pub replay: bool,
    /// ACCESS_DENIED, where it stands behind another one in its frame.
    pub fault: Option<u32>,
    pub form: SetupForm<'a>,
    /// The whole message as it was heard, from its header on, of which a signature is.
    pub bytes: &'a [u8],
    /// What NEGOTIATE chose on its connection.
    pub chosen: Chosen,
    /// The value of the preauthentication chain behind it (MS-SMB2 3.3.5.5).
    pub chain: [u8; 64],
    /// Random bytes for a challenge.
    pub fresh: [u8; 8],
}
