use crate::setups::SetupHeard;
use wire_commands::Message;

/// What the server hears: a connection made or lost (MS-SMB2 3.3.5.1, 3.3.7.1), a request (3.3.5.2), or that it is to stop.
/// A SESSION_SETUP is heard as `Setup`; one in a `Message` counts as one whose token doesn't read
/// and whose signature doesn't verify.
#[derive(Drop)]
pub enum ServerEvent<'a> {
    Accept { connection: u32 },
    Message { message: Message<'a> },
    Setup { setup: SetupHeard<'a> },
    End { connection: u32 },
    Stop,
}
