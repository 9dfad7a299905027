//! The bytes that a run draws: the n-th draw of a seed is one SHA-256 of the seed and n.

ghost use Rattle.std.specs.Prelude.{◌≡◌, take};
ghost use Rattle.spec_world.specs.Settings.{draw as drawn};

use sha2::{Digest, Sha256};

/// The n-th draw of a seed, n from 0: the SHA-256 of the seed and of n in 8 bytes, the lowest first.
#[tactic(auto, unfolding(spec_world::specs::Settings::draw), using(wire_bytes::proofs::byte_lists::Endian::wide_8))]
pub fn draw(seed: &[u8; 32], n: u64) -> [u8; 32]
    ensures { result ≡ drawn seed.now n }
{
    let mut hasher = Sha256::new();
    hasher.update(seed.as_slice());
    hasher.update(n.to_le_bytes().as_slice());
    hasher.finalize()
}

fn front_8(whole: &[u8; 32]) -> [u8; 8]
    ensures { result ≡ take 8 whole.now }
{
    let mut front = [0; 8];
    front.copy_from_slice(&whole[..8]);
    front
}

fn front_16(whole: &[u8; 32]) -> [u8; 16]
    ensures { result ≡ take 16 whole.now }
{
    let mut front = [0; 16];
    front.copy_from_slice(&whole[..16]);
    front
}

/// The first 8 bytes of the n-th draw.
pub fn draw_8(seed: &[u8; 32], n: u64) -> [u8; 8]
    ensures { result ≡ take 8 (drawn seed.now n) }
{
    front_8(&draw(seed, n))
}

/// The first 16 bytes of the n-th draw.
pub fn draw_16(seed: &[u8; 32], n: u64) -> [u8; 16]
    ensures { result ≡ take 16 (drawn seed.now n) }
{
    front_16(&draw(seed, n))
}
