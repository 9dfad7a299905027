//! Numbers as exactly so many bytes, the lowest first.
ghost use Rattle.std.specs.Prelude.{◌≡◌, length};
ghost use Rattle.spec_wire.specs.messages.Places.{le, number_of};

use byteorder::{ByteOrder, LittleEndian};

#[tactic(auto, using(crate::proofs::byte_lists::Endian::number_of_1))]
pub(crate) fn u8_of(bytes: &[u8]) -> u8
    requires { length bytes.now ≡ 1 }
    ensures { result ≡ number_of bytes.now }
{
    bytes[0]
}

#[tactic(auto, using(crate::proofs::byte_lists::Endian::number_of_2))]
pub(crate) fn u16_of(bytes: &[u8]) -> u16
    requires { length bytes.now ≡ 2 }
    ensures { result ≡ number_of bytes.now }
{
    LittleEndian::read_u16(bytes)
}

#[tactic(auto, using(crate::proofs::byte_lists::Endian::number_of_4))]
pub(crate) fn u32_of(bytes: &[u8]) -> u32
    requires { length bytes.now ≡ 4 }
    ensures { result ≡ number_of bytes.now }
{
    LittleEndian::read_u32(bytes)
}

#[tactic(auto, using(crate::proofs::byte_lists::Endian::number_of_8))]
pub(crate) fn u64_of(bytes: &[u8]) -> u64
    requires { length bytes.now ≡ 8 }
    ensures { result ≡ number_of bytes.now }
{
    LittleEndian::read_u64(bytes)
}

#[tactic(auto, using(crate::proofs::byte_lists::Endian::wide_2))]
pub(crate) fn bytes_of_u16(number: u16) -> [u8; 2]
    ensures { result ≡ le 2 number }
{
    let mut bytes = [0; 2];
    LittleEndian::write_u16(&mut bytes, number);
    bytes
}

#[tactic(auto, using(crate::proofs::byte_lists::Endian::wide_4))]
pub(crate) fn bytes_of_u32(number: u32) -> [u8; 4]
    ensures { result ≡ le 4 number }
{
    let mut bytes = [0; 4];
    LittleEndian::write_u32(&mut bytes, number);
    bytes
}

#[tactic(auto, using(crate::proofs::byte_lists::Endian::wide_8))]
pub(crate) fn bytes_of_u64(number: u64) -> [u8; 8]
    ensures { result ≡ le 8 number }
{
    let mut bytes = [0; 8];
    LittleEndian::write_u64(&mut bytes, number);
    bytes
}
