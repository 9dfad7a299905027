//! The preauthentication integrity hash: a chain of SHA-512 over whole messages (MS-SMB2 3.3.5.4, 3.3.5.5).

ghost use Rattle.std.specs.Prelude.{◌≡◌, ℕ, List, [], ◌∷◌, ◌++◌};
ghost use Rattle.spec_crypto.specs.sessions.Chain.{chain, value_behind};

use sha2::{Digest, Sha512};
use std::marker::Model;

/// The chain's value behind the messages that it took. A contract sees the value's 64 bytes. It takes no memory.
#[derive(Clone, Copy, Debug, PartialEq, Eq)]
pub struct Chain {
    value: [u8; 64],
}

impl Model for Chain {
    ghost use Rattle.std.specs.Prelude.{List, ℕ};

    ghost Value = { List ℕ };

    ghost view = { λ c. c.value };

    ghost inverse = { λ v. record { value = v } };
}

impl Chain {
    /// No message was taken: the value is 64 zeros.
    pub fn start() -> Chain
        ensures { result ≡ chain [] }
    {
        Chain { value: [0; 64] }
    }

    /// Takes a message, from its header on: the value becomes the SHA-512 of the value and the message.
    #[tactic(auto, unfolding(spec_crypto::specs::sessions::Chain::hash))]
    pub fn take(&mut self, message: &[u8])
        ensures behind { self.new ≡ value_behind self.old message.now }
    {
        let mut hasher = Sha512::new();
        hasher.update(self.value.as_slice());
        hasher.update(message);
        self.value = hasher.finalize();
    }

    /// The value, 64 bytes.
    pub fn value(&self) -> [u8; 64]
        ensures { result ≡ self.now }
    {
        self.value
    }
}

/// One more message at the end of a list is one more step of its chain.
pub fn chain_law()
    ensures { (messages : List (List ℕ)) (message : List ℕ) → chain (messages ++ message ∷ []) ≡ value_behind (chain messages) message }
{}
