ghost use Rattle.std.specs.Prelude.{◌≡◌, ◌+◌, ◌≤◌, ◌++◌, length, take};

use crate::byte_lists::numbers::{bytes_of_u16, bytes_of_u32, bytes_of_u64};
use std::marker::Model;

#[tactic(auto, using(crate::proofs::byte_lists::Filling::front_grown))]
fn copy_at(bytes: &mut [u8], at: usize, v: &[u8])
    requires { at + length v.now ≤ length bytes.old }
    ensures { take (at + length v.now) bytes.new ≡ take at bytes.old ++ v.now }
{
    bytes[at..at + v.len()].copy_from_slice(v);
}

// Beside `Out`, whose puts may find no memory: a fixed part is filled here without a `?`, and then put into an `Out`
// by one call. Each `?` costs the proof of what it leaves.
/// `N` bytes that are filled from the front, field by field, without memory. Numbers are little-endian.
#[derive(Drop)]
pub struct FixedOut<const N: usize> {
    bytes: [u8; N],
    at: usize,
}

impl<const N: usize> Model for FixedOut<N> {
    ghost use Rattle.std.specs.Prelude.{List, ℕ, ◌≡◌, ◌≤◌, length, take};

    ghost Value = { List ℕ };

    ghost view = { λ o. take o.at o.bytes };

    ghost invariant = { λ o. (o.at ≤ N) × (length o.bytes ≡ N) };
}

impl<const N: usize> FixedOut<N> {
    ghost use Rattle.std.specs.Prelude.{◌≡◌, ◌+◌, ◌≤◌, ◌++◌, [], length};
    ghost use Rattle.spec_wire.specs.messages.Places.{le};

    pub fn new() -> FixedOut<N>
        ensures { result ≡ [] }
    {
        FixedOut {
            bytes: [0; N],
            at: 0,
        }
    }

    pub fn put_slice(&mut self, v: &[u8])
        requires { length self.old + length v.now ≤ N }
        ensures grown { self.new ≡ self.old ++ v.now }
        ensures len { length self.new ≡ length self.old + length v.now }
    {
        copy_at(&mut self.bytes, self.at, v);
        self.at += v.len();
    }

    #[tactic(auto, using(crate::proofs::byte_lists::Endian::le_1))]
    pub fn put_u8(&mut self, v: u8)
        requires { length self.old + 1 ≤ N }
        ensures grown { self.new ≡ self.old ++ le 1 v }
        ensures len { length self.new ≡ length self.old + 1 }
    {
        self.put_slice(&[v]);
    }

    pub fn put_u16(&mut self, v: u16)
        requires { length self.old + 2 ≤ N }
        ensures grown { self.new ≡ self.old ++ le 2 v }
        ensures len { length self.new ≡ length self.old + 2 }
    {
        self.put_slice(&bytes_of_u16(v));
    }

    pub fn put_u32(&mut self, v: u32)
        requires { length self.old + 4 ≤ N }
        ensures grown { self.new ≡ self.old ++ le 4 v }
        ensures len { length self.new ≡ length self.old + 4 }
    {
        self.put_slice(&bytes_of_u32(v));
    }

    pub fn put_u64(&mut self, v: u64)
        requires { length self.old + 8 ≤ N }
        ensures grown { self.new ≡ self.old ++ le 8 v }
        ensures len { length self.new ≡ length self.old + 8 }
    {
        self.put_slice(&bytes_of_u64(v));
    }

    /// The bytes, once all are filled.
    #[tactic(auto, using(crate::proofs::byte_lists::Filling::all_filled))]
    pub fn finish(self) -> [u8; N]
        requires { length self ≡ N }
        ensures { result ≡ self.entry }
    {
        self.bytes
    }
}
