//! What holds of a channel's nonces.
ghost use Rattle.std.specs.Prelude.{◌≢◌, ℕ, ◌<◌, ◌^◌, List, Ok};
ghost use Rattle.spec_crypto.specs.sessions.Nonces.{NonceState};
ghost use Rattle.crypto_sessions.specs.session_keys.Giving.{GivesNonce, NonceCalls};

/// Two calls of `next` on the nonces of a channel never give one nonce, whatever calls come between them.
pub fn nonces_once_law()
    ensures { (old behind later last : NonceState) (first second : List ℕ) → old.channel < 2 ^ 16 → GivesNonce old
        behind (Ok first) → NonceCalls behind later → GivesNonce later last (Ok second) → first ≢ second }
{}
