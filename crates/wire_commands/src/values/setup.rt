use wire_bytes::Text;

/// SESSION_SETUP (MS-SMB2 2.2.5) with what its connection and its token tell: the model's `SetupRequest`.
#[derive(Drop, Debug)]
pub struct SetupRequest {
    /// Its body reads.
    pub readable: bool,
    pub binding: bool,
    /// It carries a signature.
    pub signed: bool,
    /// The signature is the session's own.
    pub verified: bool,
    /// PreviousSessionId.
    pub previous: u64,
    /// The cipher that was chosen on its connection, 0 for none.
    pub cipher: u16,
    pub signing: u16,
    pub shows: Shows,
}

/// What a token shows.
#[derive(Drop, Debug)]
pub enum Shows {
    /// A first token that names NTLM.
    Begins,
    /// A token that doesn't read as the due one.
    Bad,
    /// A logon that is refused.
    Refused,
    Logon { user: Text },
}

/// What the bytes of a SESSION_SETUP request tell by themselves, with the flag of the header that says it is
/// signed. The token is that of the frame.
#[derive(Clone, Copy, Debug, PartialEq, Eq)]
pub struct SetupForm<'a> {
    pub readable: bool,
    pub binding: bool,
    pub signed: bool,
    pub previous: u64,
    pub token: &'a [u8],
}
