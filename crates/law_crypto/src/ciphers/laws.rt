//! What is sealed opens to its text, and nothing else opens.
ghost use Rattle.std.specs.Prelude.{◌≡◌, ℕ, List, Some};
ghost use Rattle.spec_crypto.specs.ciphers.Gcm;
ghost use Rattle.spec_crypto.specs.ciphers.Ccm;

/// GCM: sealed bytes open to their text, and whatever opens to a text is that text, sealed.
pub fn gcm_law()
    ensures again { (ws : List (List ℕ)) (nonce added text : List ℕ) → Gcm.Opens ws nonce added (Gcm.sealed ws nonce
        added text) (Some text) }
    ensures only { (ws : List (List ℕ)) (nonce added s text : List ℕ) → Gcm.Opens ws nonce added s (Some text) → s ≡
        Gcm.sealed ws nonce added text }
{}

/// CCM: sealed bytes open to their text, and whatever opens to a text is that text, sealed.
pub fn ccm_law()
    ensures again { (ws : List (List ℕ)) (nonce added text : List ℕ) (tag : ℕ) → Ccm.Opens ws nonce added (Ccm.sealed ws
        nonce added text tag) tag (Some text) }
    ensures only { (ws : List (List ℕ)) (nonce added s text : List ℕ) (tag : ℕ) → Ccm.Opens ws nonce added s tag (Some
        text) → s ≡ Ccm.sealed ws nonce added text tag }
{}
