//! Fields at places of bytes. Numbers are little-endian.
ghost use Rattle.std.specs.Prelude.{◌≡◌, ◌+◌, ◌≤◌, ◌++◌, length, take};
ghost use Rattle.spec_wire.specs.messages.Places.{le, number, bytes_at};

use crate::byte_lists::numbers::{u8_of, u16_of, u32_of, u64_of};

/// The number of the byte at a place.
#[tactic(auto, unfolding(spec_wire::specs::messages::Places::bytes_at))]
pub fn u8_at(bytes: &[u8], at: usize) -> u8
    requires { at + 1 ≤ length bytes.now }
    ensures { result ≡ number 1 bytes.now at }
{
    u8_of(&bytes[at..at + 1])
}

/// The number of 2 bytes at a place.
#[tactic(auto, unfolding(spec_wire::specs::messages::Places::bytes_at))]
pub fn u16_at(bytes: &[u8], at: usize) -> u16
    requires { at + 2 ≤ length bytes.now }
    ensures value { result ≡ number 2 bytes.now at }
    ensures spelled { take (at + 2) bytes.now ≡ take at bytes.now ++ le 2 result }
{
    u16_of(&bytes[at..at + 2])
}

/// The number of 4 bytes at a place.
#[tactic(auto, unfolding(spec_wire::specs::messages::Places::bytes_at))]
pub fn u32_at(bytes: &[u8], at: usize) -> u32
    requires { at + 4 ≤ length bytes.now }
    ensures { result ≡ number 4 bytes.now at }
{
    u32_of(&bytes[at..at + 4])
}

/// The number of 8 bytes at a place.
#[tactic(auto, unfolding(spec_wire::specs::messages::Places::bytes_at))]
pub fn u64_at(bytes: &[u8], at: usize) -> u64
    requires { at + 8 ≤ length bytes.now }
    ensures { result ≡ number 8 bytes.now at }
{
    u64_of(&bytes[at..at + 8])
}

/// The `N` bytes at a place.
#[tactic(auto, unfolding(spec_wire::specs::messages::Places::bytes_at))]
pub fn array_at<const N: usize>(bytes: &[u8], at: usize) -> [u8; N]
    requires { at + N ≤ length bytes.now }
    ensures { result ≡ bytes_at N bytes.now at }
{
    let mut found = [0; N];
    found.copy_from_slice(&bytes[at..at + N]);
    found
}
