use server_checks::ServerEvent;
use wire_commands::{Command, Message};

/// What stands around a request: whence it comes, and what its header says. The last six are of a SESSION_SETUP alone.
#[derive(Clone, Copy)]
pub struct Envelope {
    pub connection: u32,
    /// The ClientGuid.
    pub client: u128,
    pub session: u64,
    pub tree: u32,
    pub message: u64,
    pub sequence: u16,
    pub replay: bool,
    pub fault: Option<u32>,
    pub binding: bool,
    pub previous: u64,
    /// What NEGOTIATE chose on the connection.
    pub cipher: u16,
    pub signing: u16,
    /// It is signed with the signing key that the logon on this connection gave.
    pub signed_by: Option<u32>,
    /// Its token is NTLM's message alone.
    pub alone: bool,
}

impl Envelope {
    /// An unsigned request of client 1 on connection 1, in tree 1 of a session.
    pub fn of(session: u64) -> Envelope {
        Envelope {
            connection: 1,
            client: 1,
            session,
            tree: 1,
            message: 9,
            sequence: 0,
            replay: false,
            fault: None,
            binding: false,
            previous: 0,
            cipher: 2,
            signing: 1,
            signed_by: None,
            alone: false,
        }
    }

    /// A request in it.
    pub fn event<'a>(&self, command: Command<'a>) -> ServerEvent<'a> {
        ServerEvent::Message {
            message: Message {
                connection: self.connection,
                client_guid: self.client,
                session_id: self.session,
                tree_id: self.tree,
                message_id: self.message,
                channel_sequence: self.sequence,
                replay: self.replay,
                fault: self.fault,
                command,
            },
        }
    }
}
