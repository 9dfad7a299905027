use crate::byte_lists::numbers::{u8_of, u16_of, u32_of, u64_of};
use crate::byte_lists::short::Short;
use std::marker::Model;

/// A place in bytes, from which fields are read one after the other. Numbers are little-endian.
#[derive(Drop)]
pub struct Cursor<'a> {
    bytes: &'a [u8],
    at: usize,
}

impl<'a> Model for Cursor<'a> {
    ghost use Rattle.std.specs.Prelude.{◌≤◌, length};
    ghost use Rattle.wire_bytes.specs.byte_lists.Spot.{Spot};

    ghost Value = { Spot };

    ghost view = { λ c. record { bytes = c.bytes.now; at = c.at } };

    ghost invariant = { λ c. c.at ≤ length c.bytes.now };
}

impl<'a> Cursor<'a> {
    ghost use Rattle.std.specs.Prelude.{◌≡◌, drop, ⊤};
    ghost use Rattle.spec_wire.specs.messages.Places.{bytes_at, gap_to_8};
    ghost use Rattle.wire_bytes.specs.byte_lists.Spot.{Spot, Gets, SpotSteps};

    pub fn new(bytes: &'a [u8]) -> Cursor<'a>
        ensures { result ≡ record { bytes = bytes.now; at = 0 } }
    {
        Cursor { bytes, at: 0 }
    }

    /// The place, counted from the first byte.
    pub fn at(&self) -> usize
        ensures { result ≡ self.now.at }
    {
        self.at
    }

    /// The bytes from the place on.
    pub fn rest(&self) -> &'a [u8]
        ensures { result.now ≡ drop self.now.at self.now.bytes }
    {
        &self.bytes[self.at..]
    }

    /// The next `count` bytes.
    #[tactic(auto, unfolding(spec_wire::specs::messages::Places::bytes_at))]
    pub fn take(&mut self, count: usize) -> Result<&'a [u8], Short>
        ensures { SpotSteps (λ x. x.now ≡ bytes_at count self.old.bytes self.old.at) count self.old self.new result }
    {
        if self.bytes.len() - self.at < count {
            return Err(Short { at: self.at });
        }
        let found = &self.bytes[self.at..self.at + count];
        self.at += count;
        Ok(found)
    }

    #[tactic(auto, using(spec_wire::proofs::messages::Numbers::lengths))]
    pub fn get_u8(&mut self) -> Result<u8, Short>
        ensures { Gets 1 self.old self.new result }
    {
        let found = self.take(1)?;
        Ok(u8_of(found))
    }

    #[tactic(auto, using(spec_wire::proofs::messages::Numbers::lengths))]
    pub fn get_u16(&mut self) -> Result<u16, Short>
        ensures { Gets 2 self.old self.new result }
    {
        let found = self.take(2)?;
        Ok(u16_of(found))
    }

    #[tactic(auto, using(spec_wire::proofs::messages::Numbers::lengths))]
    pub fn get_u32(&mut self) -> Result<u32, Short>
        ensures { Gets 4 self.old self.new result }
    {
        let found = self.take(4)?;
        Ok(u32_of(found))
    }

    #[tactic(auto, using(spec_wire::proofs::messages::Numbers::lengths))]
    pub fn get_u64(&mut self) -> Result<u64, Short>
        ensures { Gets 8 self.old self.new result }
    {
        let found = self.take(8)?;
        Ok(u64_of(found))
    }

    /// The next `N` bytes as an array.
    #[tactic(auto, using(spec_wire::proofs::messages::Numbers::lengths))]
    pub fn get_array<const N: usize>(&mut self) -> Result<[u8; N], Short>
        ensures { SpotSteps (λ x. x ≡ bytes_at N self.old.bytes self.old.at) N self.old self.new result }
    {
        let found = self.take(N)?;
        let mut bytes = [0; N];
        bytes.copy_from_slice(found);
        Ok(bytes)
    }

    /// Moves on to the next multiple of 8.
    pub fn align8(&mut self) -> Result<(), Short>
        ensures { SpotSteps (λ _. ⊤) (gap_to_8 self.old.at) self.old self.new result }
    {
        let _passed = self.take((8 - self.at() % 8) % 8)?;
        Ok(())
    }
}
