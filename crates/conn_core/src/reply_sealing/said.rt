//! A reply before it has its place in a frame (MS-SMB2 3.3.4.1).
ghost use Rattle.std.specs.Prelude.{◌≡◌, ◌+◌, length};

use crate::conn::Progress;
use spec_crypto::Signer;
use wire_bytes::Header;

/// A reply to the message at a place of its frame.
#[derive(Clone, Copy)]
pub struct Said<'a> {
    pub at: usize,
    pub header: Header,
    pub body: &'a [u8],
    pub signer: Option<Signer>,
    pub progress: Progress,
}

impl Said<'_> {
    pub fn size(&self) -> usize
        ensures { result ≡ 64 + length self.now.body.now }
    {
        64 + self.body.len()
    }
}
