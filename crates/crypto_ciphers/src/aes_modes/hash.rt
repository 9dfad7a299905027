//! The product in GF(2^128) and GHASH (SP 800-38D, 6.3 and 6.4), four bits at a time, each four by a row of sums that is made for the key.
ghost use Rattle.std.specs.Prelude.{◌≡◌, ◌<◌, ◌≤◌, ◌-◌, ◌*◌, ◌^◌, ◌++◌, [], ℕ, length, if◌then◌else◌};
ghost use Rattle.spec_crypto.specs.ciphers.Ghash.{shifted, product, bits_of, sum_at, hashed_all, ghash};
ghost use Rattle.crypto_ciphers.specs.aes_modes.Sums.{raised, IsProductRow, AreProductRows};

use crate::aes_modes::blocks::{block_count_of, block_of};

/// What the four lowest bits become when they leave.
static LOW: [u128; 16] = [
    0x0,
    0x1c200000000000000000000000000000,
    0x38400000000000000000000000000000,
    0x24600000000000000000000000000000,
    0x70800000000000000000000000000000,
    0x6ca00000000000000000000000000000,
    0x48c00000000000000000000000000000,
    0x54e00000000000000000000000000000,
    0xe1000000000000000000000000000000,
    0xfd200000000000000000000000000000,
    0xd9400000000000000000000000000000,
    0xc5600000000000000000000000000000,
    0x91800000000000000000000000000000,
    0x8da00000000000000000000000000000,
    0xa9c00000000000000000000000000000,
    0xb5e00000000000000000000000000000,
];

#[inline(always)]
fn masked(bit: bool, v: u128) -> u128
    ensures { result ≡ (if bit then v else 0) }
{
    if bit { v } else { 0 }
}

/// x times an element.
#[inline(always)]
#[tactic(auto, unfolding(spec_crypto::specs::ciphers::Ghash::shifted))]
fn shifted_of(v: u128) -> u128
    ensures { result ≡ shifted v }
{
    (v >> 1) ^ masked(v % 2 == 1, 225 << 120)
}

#[inline(always)]
fn shifted_by_four(z: u128) -> u128
    ensures { result ≡ shifted (shifted (shifted (shifted z))) }
{
    (z >> 4) ^ LOW[(z % 16) as usize]
}

/// The sums of an element and its next three multiples, for each choice of these: bit 3 takes the element itself.
#[inline(always)]
fn row_of(v: u128) -> [u128; 16]
    ensures { IsProductRow result v }
{
    // Written out, because the rows are made anew for each tag: so one costs three doublings and eleven sums.
    let eight = v;
    let four = shifted_of(eight);
    let two = shifted_of(four);
    let one = shifted_of(two);
    let three = two ^ one;
    let five = four ^ one;
    let six = four ^ two;
    let seven = four ^ three;
    [
        0,
        one,
        two,
        three,
        four,
        five,
        six,
        seven,
        eight,
        eight ^ one,
        eight ^ two,
        eight ^ three,
        eight ^ four,
        eight ^ five,
        eight ^ six,
        eight ^ seven,
    ]
}

#[inline(always)]
fn rows_of(h: u128) -> [[u128; 16]; 32]
    ensures { AreProductRows result h }
{
    let mut rows = [[0; 16]; 32];
    let mut v = h;
    for j in 0..32 {
        rows[j] = row_of(v);
        v = shifted_by_four(v);
    }
    rows
}

/// A hash key, and the sums of its multiples for each four bits of a factor: row 0 for the highest four.
#[derive(Drop)]
pub(crate) struct Table {
    h: u128,
    // A row for each four bits of a factor, 8 KiB: one row for all places waits at each step, and rows for eight bits
    // would take 64 KiB and longer to make.
    rows: [[u128; 16]; 32],
    ghost rows_are: { AreProductRows rows h },
}

impl Table {
    #[inline(always)]
    pub(crate) fn new(h: u128) -> Table
        ensures { result.h ≡ h }
    {
        Table {
            h,
            rows: rows_of(h),
        }
    }

    /// The sum at the bits of a half of a factor, whose lowest four bits have the row `last`.
    #[inline(always)]
    fn half_of(&self, half: u64, last: usize) -> u128
        requires low { 15 ≤ last }
        requires high { last ≤ 31 }
        ensures { result ≡ sum_at (bits_of 64 half) (raised (4 * (last - 15)) self.now.h) }
    {
        let mut z = 0;
        for i in 0..16 {
            let bits = (half >> (4 * i as u32)) % 16;
            z ^= self.rows[last - i][bits as usize];
        }
        z
    }

    #[inline(always)]
    pub(crate) fn product_of(&self, x: u128) -> u128
        ensures { result ≡ product x self.now.h }
    {
        let high = (x >> 64) as u64;
        let low = (x % 0x1_0000_0000_0000_0000) as u64;
        self.half_of(high, 15) ^ self.half_of(low, 31)
    }

    /// The hash from y over all blocks, the last filled with zeros.
    fn hashed_of(&self, y: u128, m: &[u8]) -> u128
        ensures { result ≡ hashed_all self.now.h y m.now }
    {
        let mut z = y;
        for i in 0..block_count_of(m) {
            z = self.product_of(z ^ u128::from_be_bytes(block_of(m, i)));
        }
        z
    }

    /// The hash of additional data, of a ciphertext and of their lengths.
    #[tactic(auto, unfolding(spec_crypto::specs::ciphers::Ghash::ghash))]
    pub(crate) fn ghash_of(&self, added: &[u8], sealed: &[u8]) -> u128
        requires added { length added.now < 2 ^ 61 }
        requires sealed { length sealed.now < 2 ^ 61 }
        ensures { result ≡ ghash self.now.h added.now sealed.now }
    {
        let behind_added = self.hashed_of(0, added);
        let behind_sealed = self.hashed_of(behind_added, sealed);
        let lengths = 8 * added.len() as u128 * 0x1_0000_0000_0000_0000 + 8 * sealed.len() as u128;
        self.product_of(behind_sealed ^ lengths)
    }

    /// The hash of additional data in two pieces, the first of 64 bytes, and of no ciphertext.
    #[tactic(auto, using(crate::proofs::aes_modes::Joined::ghash_parts))]
    pub(crate) fn ghash_joined(&self, front: &[u8; 64], rest: &[u8]) -> u128
        requires { length rest.now < 2 ^ 60 }
        ensures { result ≡ ghash self.now.h (front.now ++ rest.now) [] }
    {
        let behind_front = self.hashed_of(0, front);
        let behind_added = self.hashed_of(behind_front, rest);
        let behind_sealed = self.hashed_of(behind_added, &[]);
        let length = 8 * (64 + rest.len() as u128) * 0x1_0000_0000_0000_0000;
        self.product_of(behind_sealed ^ length)
    }
}
