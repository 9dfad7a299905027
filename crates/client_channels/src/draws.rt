//! The bytes that a channel draws: the n-th draw is one SHA-256 of the seed, the channel's number and n.
ghost use Rattle.std.specs.Prelude.{◌≡◌, take};
ghost use Rattle.client_channels.specs.Draws.{channel_draw};

use sha2::{Digest, Sha256};

/// The number under which the client itself draws.
pub(crate) const OF_THE_CLIENT: u32 = u32::MAX;

/// The n-th draw of a channel, n from 0: the SHA-256 of the seed, of the channel in 4 bytes and of n in 8, the lowest first.
#[tactic(auto, unfolding(crate::specs::Draws::channel_draw), using(crate::proofs::Drawing::numbers_drawn))]
pub(crate) fn draw(seed: &[u8; 32], channel: u32, n: u64) -> [u8; 32]
    ensures { result ≡ channel_draw seed.now channel n }
{
    let mut hasher = Sha256::new();
    hasher.update(seed.as_slice());
    hasher.update(channel.to_le_bytes().as_slice());
    hasher.update(n.to_le_bytes().as_slice());
    hasher.finalize()
}

fn front_8(whole: &[u8; 32]) -> [u8; 8]
    ensures { result ≡ take 8 whole.now }
{
    let mut front = [0; 8];
    front.copy_from_slice(&whole[..8]);
    front
}

fn front_16(whole: &[u8; 32]) -> [u8; 16]
    ensures { result ≡ take 16 whole.now }
{
    let mut front = [0; 16];
    front.copy_from_slice(&whole[..16]);
    front
}

/// The first 8 bytes of the n-th draw.
pub(crate) fn draw_8(seed: &[u8; 32], channel: u32, n: u64) -> [u8; 8]
    ensures { result ≡ take 8 (channel_draw seed.now channel n) }
{
    front_8(&draw(seed, channel, n))
}

/// The first 16 bytes of the n-th draw.
pub(crate) fn draw_16(seed: &[u8; 32], channel: u32, n: u64) -> [u8; 16]
    ensures { result ≡ take 16 (channel_draw seed.now channel n) }
{
    front_16(&draw(seed, channel, n))
}
