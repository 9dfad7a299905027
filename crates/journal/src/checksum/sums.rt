// The checksum of bytes that come part by part.
ghost use Rattle.std.specs.Prelude.{◌≡◌, ℕ, ◌+◌, ◌*◌, ◌<◌, length};
ghost use Rattle.std.specs.Int.Bits.{bit_xor};
ghost use Rattle.spec_journal.specs.Castagnoli.{behind_byte, behind_bytes, crc32c, times_power};

use crate::checksum::table::TABLE;
use std::marker::Model;

// What is left of a byte behind so many bytes more than itself.
fn left_of(byte: u8, more: usize) -> u32
    requires { more < 8 }
    ensures { result ≡ times_power (8 * (more + 1)) byte }
{
    TABLE[256 * more + byte as usize]
}

// What is left behind eight bytes more. Four of them meet what was left before.
fn behind_eight(left: u32, eight: &[u8]) -> u32
    requires { length eight.now ≡ 8 }
    ensures { result ≡ behind_bytes left eight.now }
{
    let a = (left % 256) as u8 ^ eight[0];
    let b = (left / 256 % 256) as u8 ^ eight[1];
    let c = (left / 256 / 256 % 256) as u8 ^ eight[2];
    let d = (left / 256 / 256 / 256) as u8 ^ eight[3];
    let last = left_of(eight[6], 1) ^ left_of(eight[7], 0);
    let back = left_of(eight[4], 3) ^ (left_of(eight[5], 2) ^ last);
    left_of(a, 7) ^ (left_of(b, 6) ^ (left_of(c, 5) ^ (left_of(d, 4) ^ back)))
}

// What is left behind one byte more.
fn behind(left: u32, byte: u8) -> u32
    ensures { result ≡ behind_byte left byte }
{
    let low = (left % 256) as u8 ^ byte;
    (left >> 8) ^ left_of(low, 0)
}

// What is left behind a few bytes more.
#[tactic(auto, unfolding(spec_journal::specs::Castagnoli::behind_bytes))]
fn behind_few(first: u32, bytes: &[u8]) -> u32
    ensures { result ≡ behind_bytes first bytes.now }
{
    let mut left = first;
    let mut rest = bytes;
    while let Some((byte, more)) = rest.split_first() {
        left = behind(left, *byte);
        rest = more;
    }
    left
}

/// A checksum that goes on. A contract sees what is left of the division (RFC 3720 12.1).
#[derive(Drop)]
pub struct Sum {
    left: u32,
}

impl Model for Sum {
    ghost use Rattle.std.specs.Prelude.{ℕ};

    ghost Value = { ℕ };

    ghost view = { λ s. s.left };
}

impl Sum {
    /// Of no bytes yet.
    pub fn new() -> Self
        ensures { result ≡ 0xffff_ffff }
    {
        Sum { left: u32::MAX }
    }

    /// Goes on by these bytes.
    pub fn add(&mut self, bytes: &[u8])
        ensures { self.new ≡ behind_bytes self.old bytes.now }
    {
        let mut left = self.left;
        let mut rest = bytes;
        while rest.len() >= 8 {
            let (eight, more) = rest.split_at(8);
            left = behind_eight(left, eight);
            rest = more;
        }
        self.left = behind_few(left, rest);
    }

    /// The checksum of all bytes by which it went on.
    pub fn value(&self) -> u32
        ensures { result ≡ bit_xor self.now 0xffff_ffff }
    {
        self.left ^ u32::MAX
    }
}

/// The checksum of these bytes.
#[tactic(auto, unfolding(spec_journal::specs::Castagnoli::crc32c))]
pub fn checksum_of(bytes: &[u8]) -> u32
    ensures { result ≡ crc32c bytes.now }
{
    let mut sum = Sum::new();
    sum.add(bytes);
    sum.value()
}
