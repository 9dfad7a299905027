use crate::values::command::Command;
use crate::values::setup::SetupForm;

/// What a message asks by its bytes alone, where its command isn't CANCEL.
#[derive(Drop, Debug)]
pub enum Request<'a> {
    /// NEGOTIATE, whose status its dialog finds.
    Negotiate,
    /// ECHO; `form` is the status of a body that doesn't read.
    Echo { form: Option<u32> },
    /// SESSION_SETUP, whose command the connection's keys and choices make whole.
    Setup(SetupForm<'a>),
    /// Any other: its command.
    Command(Command<'a>),
}

/// A message that the server hears (MS-SMB2 2.2.1.2).
#[derive(Drop, Debug)]
pub struct Message<'a> {
    pub connection: u32,
    /// The ClientGuid, its first byte the lowest.
    pub client_guid: u128,
    pub session_id: u64,
    pub tree_id: u32,
    pub message_id: u64,
    pub channel_sequence: u16,
    pub replay: bool,
    /// ACCESS_DENIED, where the request isn't signed or sealed as owed.
    pub fault: Option<u32>,
    pub command: Command<'a>,
}
