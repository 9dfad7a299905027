//! What holds of every message, key and nonce.
ghost use Rattle.std.specs.Prelude.{◌≡◌, ℕ, ◌≤◌, ◌<◌, ◌^◌, List, Bool, true, length, Ok};
ghost use Rattle.spec_crypto.specs.declared.sessions.material.Keys.{Keys};
ghost use Rattle.spec_crypto.specs.declared.sessions.material.Signer.{Signer};
ghost use Rattle.spec_crypto.specs.sessions.Nonces.{NonceState, nonce_of};
ghost use Rattle.spec_crypto.specs.sessions.Sealing.{sealed, unsealed};
ghost use Rattle.spec_crypto.specs.sessions.Signing.{signed, verifies};

/// What is sealed unseals to its text, under the same keys and direction.
pub fn sealed_opens_law()
    ensures { (keys : Keys) (from_client : Bool) (nonce text : List ℕ) → length nonce ≡ 16 → length text ≤ 1114060 →
        keys.session < 2 ^ 64 → unsealed keys from_client (sealed keys from_client nonce text) ≡ Ok text }
{}

/// What is signed verifies.
pub fn signed_verifies_law()
    ensures { (signer : Signer) (message : List ℕ) → 64 ≤ length message → verifies signer (signed signer message) ≡ true }
{}

/// Two different counters, or two channels, never give one nonce.
pub fn distinct_nonces_law()
    ensures { (a b : NonceState) → a.counter < 2 ^ 64 → b.counter < 2 ^ 64 → a.channel < 2 ^ 16 → b.channel < 2 ^ 16 →
        nonce_of a ≡ nonce_of b → a ≡ b }
{}
