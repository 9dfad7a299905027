//! What a served link, and a net that accepts, are told of the server. No contract looks at any of it: an adapter over the machine's
//! sockets makes time-outs and lines of a log of it.

/// A user's name as it came in a logon token: UTF-16, the low byte first; of a longer name its first 32 units.
#[derive(Clone, Copy)]
pub struct SentName {
    pub units: [u8; 64],
    /// How many bytes of `units` the name has.
    pub length: u8,
}

/// What a connection's last frame brought.
#[derive(Clone, Copy)]
pub enum News {
    Nothing,
    /// A session was made on the connection (MS-SMB2 3.3.5.5.3).
    LoggedOn(SentName),
    /// The connection became a channel of a session that stands (3.3.5.5.2).
    Bound(SentName),
    /// A SESSION_SETUP was refused.
    Refused(SentName),
    /// The connection has ended, for a cause that this word tells.
    Ended(&'static str),
}

/// What a connection has at the server behind its last frame.
#[derive(Clone, Copy)]
pub struct Standing {
    /// The session's id (MS-SMB2 3.3.1.8), where there is one.
    pub session: Option<u64>,
    /// An open of that session stands, made over whichever of its channels.
    pub has_opens: bool,
    /// The sum of all files' lengths, and how many bytes it may come to.
    pub used: u64,
    pub room: u64,
}

impl Standing {
    /// That of a connection that was just accepted, or has ended.
    pub fn nothing() -> Standing {
        Standing {
            session: None,
            has_opens: false,
            used: 0,
            room: 0,
        }
    }
}

/// Which lines are printed while a server serves.
#[derive(Clone, Copy, PartialEq, Eq, Debug)]
pub enum Printed {
    Nothing,
    Errors,
    Warnings,
    All,
}

/// How a net is to watch over the links that it accepts.
#[derive(Clone, Copy, PartialEq, Eq, Debug)]
pub struct Watch {
    pub printed: Printed,
    /// How long after its accept a connection may have no session, in seconds.
    pub logon: u32,
    /// How long a connection may send nothing that has a session and no open, in seconds.
    pub idle: u32,
    /// How many connections there may be from one address.
    pub peers: u32,
}
