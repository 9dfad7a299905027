/// A key to sign with, and the algorithm: AES-CMAC 1 or AES-GMAC 2 (MS-SMB2 2.2.3.1.7).
#[derive(Clone, Copy, Debug, PartialEq, Eq)]
pub struct Signer {
    pub key: [u8; 16],
    pub algorithm: u16,
}

/// The keys of a session on one of its channels (MS-SMB2 3.1.4.2). Its ciphers are AES-128-CCM 1, AES-128-GCM 2,
/// AES-256-CCM 3, AES-256-GCM 4, and 0 for none. A cipher of 128 bits uses the first 16 bytes of its key.
#[derive(Clone, Copy, Debug, PartialEq, Eq)]
pub struct Keys {
    pub signing: Signer,
    pub to_server: [u8; 32],
    pub to_client: [u8; 32],
    pub cipher: u16,
    pub session: u64,
}
