use thiserror::Error;

/// What a server chose from a client's offer (MS-SMB2 2.2.4).
#[derive(Clone, Copy, Debug, PartialEq, Eq)]
pub struct Chosen {
    /// AES-128-CCM 1, AES-128-GCM 2, AES-256-CCM 3, AES-256-GCM 4, or 0 for none.
    pub cipher: u16,
    /// AES-CMAC 1 or AES-GMAC 2.
    pub signing: u16,
    /// Whether the algorithm was offered, and so is told.
    pub signing_told: bool,
}

/// Why an offer leaves nothing to choose (MS-SMB2 3.3.5.4).
#[derive(Clone, Copy, Debug, PartialEq, Eq, Error)]
pub enum ChooseError {
    #[error("the offer has no preauthentication context")]
    NoPreauth,
    #[error("the preauthentication context does not name SHA-512")]
    NoHash,
}
