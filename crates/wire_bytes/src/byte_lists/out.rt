ghost use Rattle.std.specs.Prelude.{◌≡◌, ◌+◌, ◌≤◌, ◌++◌, length, drop, take};
ghost use Rattle.spec_wire.specs.messages.Places.{le};

use crate::byte_lists::bytes::Bytes;
use crate::byte_lists::numbers::{bytes_of_u16, bytes_of_u32, bytes_of_u64};
use std::alloc::{AllocError, Global};
use std::marker::Model;

fn replace_u32(bytes: &mut [u8], at: usize, v: u32)
    requires { at + 4 ≤ length bytes.old }
    ensures { bytes.new ≡ take at bytes.old ++ (le 4 v ++ drop (at + 4) bytes.old) }
{
    bytes[at..at + 4].copy_from_slice(&bytes_of_u32(v));
}

/// Bytes that grow at the end, field by field. Numbers are little-endian. After a call that found no
/// memory the bytes are as before.
#[derive(Drop)]
pub struct Out {
    bytes: Vec<u8>,
}

impl Model for Out {
    ghost use Rattle.std.specs.Prelude.{List, ℕ};

    ghost Value = { List ℕ };

    ghost view = { λ o. o.bytes.items };
}

impl Out {
    ghost use Rattle.std.specs.Prelude.{◌≡◌, ◌+◌, ◌≤◌, ◌++◌, [], length, drop, take, OnOk, OnErr};
    ghost use Rattle.spec_wire.specs.messages.Places.{le, gap_to_8};

    pub fn new(alloc: Global) -> Out
        ensures { result ≡ [] }
    {
        Out {
            bytes: Vec::new(alloc),
        }
    }

    /// How many bytes were put.
    pub fn len(&self) -> usize
        ensures { result ≡ length self.now }
    {
        self.bytes.len()
    }

    pub fn put_slice(&mut self, v: &[u8]) -> Result<(), AllocError>
        ensures ok { OnOk result (self.new ≡ self.old ++ v.now) }
        ensures err { OnErr result (self.new ≡ self.old) }
    {
        self.bytes.extend_from_slice(v)
    }

    #[tactic(auto, using(crate::proofs::byte_lists::Endian::le_1))]
    pub fn put_u8(&mut self, v: u8) -> Result<(), AllocError>
        ensures ok { OnOk result (self.new ≡ self.old ++ le 1 v) }
        ensures err { OnErr result (self.new ≡ self.old) }
    {
        self.put_slice(&[v])
    }

    pub fn put_u16(&mut self, v: u16) -> Result<(), AllocError>
        ensures ok { OnOk result (self.new ≡ self.old ++ le 2 v) }
        ensures err { OnErr result (self.new ≡ self.old) }
    {
        self.put_slice(&bytes_of_u16(v))
    }

    pub fn put_u32(&mut self, v: u32) -> Result<(), AllocError>
        ensures ok { OnOk result (self.new ≡ self.old ++ le 4 v) }
        ensures err { OnErr result (self.new ≡ self.old) }
    {
        self.put_slice(&bytes_of_u32(v))
    }

    pub fn put_u64(&mut self, v: u64) -> Result<(), AllocError>
        ensures ok { OnOk result (self.new ≡ self.old ++ le 8 v) }
        ensures err { OnErr result (self.new ≡ self.old) }
    {
        self.put_slice(&bytes_of_u64(v))
    }

    /// Puts `count` zero bytes.
    #[tactic(auto, using(crate::proofs::byte_lists::Endian::zeros))]
    pub fn put_zeros(&mut self, count: u8) -> Result<(), AllocError>
        ensures ok { OnOk result (self.new ≡ self.old ++ le count 0) }
        ensures err { OnErr result (self.new ≡ self.old) }
    {
        let len = self.bytes.len();
        self.bytes.resize(len + count as usize, 0)
    }

    /// Puts zero bytes up to the next multiple of 8.
    pub fn pad8(&mut self) -> Result<(), AllocError>
        ensures ok { OnOk result (self.new ≡ self.old ++ le (gap_to_8 (length self.old)) 0) }
        ensures err { OnErr result (self.new ≡ self.old) }
    {
        let len = self.bytes.len();
        self.put_zeros(((8 - len % 8) % 8) as u8)
    }

    /// Replaces four bytes that were put before.
    pub fn patch_u32(&mut self, at: usize, v: u32)
        requires { at + 4 ≤ length self.old }
        ensures { self.new ≡ take at self.old ++ (le 4 v ++ drop (at + 4) self.old) }
    {
        replace_u32(&mut self.bytes, at, v);
    }

    pub fn finish(self) -> Bytes
        ensures { result ≡ self }
    {
        Bytes::from_vec(self.bytes)
    }
}
