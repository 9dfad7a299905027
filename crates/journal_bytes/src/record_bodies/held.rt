//! What is made of bytes that a record holds.
ghost use Rattle.std.specs.Prelude.{◌≡◌, ◌/◌, ◌≤◌, length, drop, IfOk};
ghost use Rattle.spec_wire.specs.messages.Places.{number_of};
ghost use Rattle.journal_bytes.specs.record_bytes.Meaning.{elements_in};

use spec_exchange::values::Element;
use std::alloc::{AllocError, Global};
use wire_bytes::{halves_of, lock_element_at};

/// The number that the bytes of a GUID spell, the lowest first.
#[tactic(auto, using(crate::proofs::record_bodies::Elements::guid_cut))]
pub fn guid_of(guid: &[u8; 16]) -> u128
    ensures { result ≡ number_of guid.now }
{
    match halves_of(guid) {
        Ok(halves) => halves.low as u128 + halves.high as u128 * 0x1_0000_0000_0000_0000,
        Err(_short) => 0,
    }
}

// The bytes behind an element.
fn behind(bytes: &[u8]) -> &[u8]
    requires { 24 ≤ length bytes.now }
    ensures { result.now ≡ drop 24 bytes.now }
{
    &bytes[24..]
}

/// The elements of a Lock record, 24 bytes each (MS-SMB2 2.2.26.1); what stands behind the last whole one is left out.
#[tactic(auto, using(crate::proofs::record_bodies::Elements::elements_go_on, crate::proofs::record_bodies::Elements::elements_end))]
pub fn elements_of(alloc: Global, bytes: &[u8]) -> Result<Vec<Element>, AllocError>
    ensures { IfOk result (λ v. v.items ≡ elements_in (length bytes.now / 24) bytes.now) }
{
    let mut elements = Vec::new(alloc);
    let mut rest = bytes;
    loop {
        let Some(found) = lock_element_at(rest, 0) else {
            return Ok(elements);
        };
        elements.push(Element {
            at: found.offset,
            length: found.length,
            flags: found.flags,
        })?;
        rest = behind(rest);
    }
}
