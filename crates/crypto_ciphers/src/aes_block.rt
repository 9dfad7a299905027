//! AES with keys of 128 and 256 bits (FIPS 197), by tables of 256 words, and eight blocks at a time by planes of their bits.

mod cipher;
mod circuit;
mod columns;
mod eight;
mod front;
mod gates;
mod key;
mod planes;
mod sbox;
mod state;
mod tables;
mod turning;

pub use cipher::Aes;
pub use front::Front;
pub use state::block_sum_of;
