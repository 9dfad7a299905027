use spec_crypto::Keys;
use std::alloc::{AllocError, Global};
use wire_bytes::{Numbers, Text};

/// What a client is configured with (MS-SMB2 3.2.1.1): its user, the share that it connects to, the ciphers and the
/// signing algorithms that it offers, in its order, and its ClientGuid, its first byte the lowest.
#[derive(Drop)]
pub struct ClientConfig {
    pub user: Text,
    pub password: Text,
    pub share: Text,
    pub ciphers: Numbers,
    pub signings: Numbers,
    pub guid: [u8; 16],
}

/// The random bytes of one dialog: the salt of its NEGOTIATE, and the challenge and the exchanged key of its logon.
#[derive(Clone, Copy)]
pub struct Fresh {
    pub salt: [u8; 32],
    pub challenge: [u8; 8],
    pub key: [u8; 16],
}

/// The session that a channel is bound to: its ids and its keys.
#[derive(Clone, Copy)]
pub struct Bound {
    pub session: u64,
    pub tree: u32,
    pub keys: Keys,
}

impl ClientConfig {
    ghost use Rattle.std.specs.Prelude.{◌≡◌, IfOk};

    /// A copy.
    pub fn copy(&self, alloc: Global) -> Result<ClientConfig, AllocError>
        ensures { IfOk result (λ c. c ≡ self.now) }
    {
        Ok(ClientConfig {
            user: self.user.copy()?,
            password: self.password.copy()?,
            share: self.share.copy()?,
            ciphers: Numbers::from_slice(alloc, self.ciphers.as_slice())?,
            signings: Numbers::from_slice(alloc, self.signings.as_slice())?,
            guid: self.guid,
        })
    }
}
