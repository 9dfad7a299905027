//! What a run draws: the n-th draw, n from 0, is the SHA-256 of a seed and of n in 8 bytes.
use sha2::{Digest, Sha256};

/// `worked logon`.
const SEED: [u8; 12] = [
    b'w', b'o', b'r', b'k', b'e', b'd', b' ', b'l', b'o', b'g', b'o', b'n',
];

pub fn draw(number: u8) -> [u8; 32] {
    let mut hasher = Sha256::new();
    hasher.update(SEED.as_slice());
    hasher.update([number, 0, 0, 0, 0, 0, 0, 0].as_slice());
    hasher.finalize()
}

/// The first 8 bytes of a draw.
pub fn draw_8(number: u8) -> [u8; 8] {
    let mut front = [0; 8];
    front.copy_from_slice(&draw(number)[..8]);
    front
}

/// The key that the client exports: the draw behind its CreateGuids' random half, its salt and its challenge.
pub fn key() -> [u8; 16] {
    let mut front = [0; 16];
    front.copy_from_slice(&draw(3)[..16]);
    front
}

/// The CreateGuid of the first operation: its number, and the random half of all.
pub fn create_guid() -> [u8; 16] {
    let half = draw_8(0);
    [
        1, 0, 0, 0, 0, 0, 0, 0, half[0], half[1], half[2], half[3], half[4], half[5], half[6],
        half[7],
    ]
}
