//! The nonces of one end of a channel.
ghost use Rattle.std.specs.Prelude.{◌≡◌};
ghost use Rattle.spec_crypto.specs.sessions.Nonces.{nonce_of};
ghost use Rattle.crypto_sessions.specs.session_keys.Giving.{GivesNonce};

use std::marker::Model;
use wire_bytes::FixedOut;

/// A channel's number, and how many nonces were given. It takes no memory.
#[derive(Drop, Debug)]
pub struct Nonces {
    // A part of each nonce, because all channels of a session seal under the same keys.
    channel: u16,
    counter: u64,
}

/// All nonces of the channel are given.
#[derive(Clone, Copy, Debug, PartialEq, Eq)]
pub struct Spent;

impl Model for Nonces {
    ghost use Rattle.spec_crypto.specs.sessions.Nonces.{NonceState};

    ghost Value = { NonceState };

    ghost view = { λ n. record { channel = n.channel; counter = n.counter } };
}

#[tactic(auto, unfolding(spec_crypto::specs::sessions::Nonces::nonce_of))]
fn nonce_from(channel: u16, counter: u64) -> [u8; 16]
    ensures { result ≡ nonce_of (record { channel = channel; counter = counter }) }
{
    let mut out = FixedOut::<16>::new();
    out.put_u64(counter);
    out.put_u16(channel);
    out.put_slice(&[0; 6]);
    out.finish()
}

impl Nonces {
    /// The nonces of the channel of this number, from the counter 0 on.
    pub fn new(channel: u16) -> Nonces
        ensures { result ≡ record { channel = channel; counter = 0 } }
    {
        Nonces {
            channel,
            counter: 0,
        }
    }

    /// The next nonce: the counter, the channel's number and zeros. `Spent`, exactly where the counter stands at
    /// 2^64 - 1, leaves it there.
    pub fn next(&mut self) -> Result<[u8; 16], Spent>
        ensures { GivesNonce self.old self.new result }
    {
        if self.counter == u64::MAX {
            return Err(Spent);
        }
        let nonce = nonce_from(self.channel, self.counter);
        self.counter += 1;
        Ok(nonce)
    }
}
