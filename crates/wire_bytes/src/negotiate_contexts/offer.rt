use crate::negotiate_contexts::numbers::Numbers;

/// What the contexts of a NEGOTIATE offer, or what its response chose: whether there is a
/// preauthentication context, whether it names SHA-512, the ciphers and the signing algorithms in their
/// order (MS-SMB2 2.2.3.1.1, 2.2.3.1.2, 2.2.3.1.7).
#[derive(Drop, Debug)]
pub struct Offer {
    pub sha512: bool,
    pub preauth: bool,
    pub ciphers: Numbers,
    pub signings: Numbers,
}
