ghost use Rattle.std.specs.Prelude.{◌≡◌, ◌+◌, ◌*◌, ◌%◌, ◌<◌, ◌≤◌, ◌^◌, ◌++◌, length, drop, IfOk, OnOk, OnErr, MatchOption, MatchResult};
ghost use Rattle.spec_wire.specs.messages.Table.{Stands};
ghost use Rattle.spec_wire.specs.messages.Fault.{Reads};
ghost use Rattle.spec_wire.specs.messages.Lock.{SpellsLockRequest, lock_request_fault, lock_request_spelling, lock_element_table};
ghost use Rattle.spec_wire.specs.messages.Lock.{lock_element_spelling};
ghost use Rattle.wire_bytes.specs.file_messages.Views.{lock_request};

use crate::byte_lists::{
    Bytes, Cursor, FixedOut, Out, Short, array_at, fields_fit, u16_at, u32_at,
};
use crate::file_messages::lock::LockRequest;
use crate::headers::{MessageError, Part, counted_at};
use spec_wire::LockElement;
use std::alloc::{AllocError, Global};

/// Reads the LOCK request that stands behind the header of `m`.
pub fn read_lock_request(m: &[u8]) -> Result<LockRequest<'_>, MessageError>
    ensures { Reads (lock_request_fault m.now) (SpellsLockRequest m.now) lock_request result }
{
    fields_fit(m, &[64, 2, 2, 4, 16])?;
    let size = u16_at(m, 64);
    let count = u16_at(m, 66);
    let lock_sequence = u32_at(m, 68);
    let file_id = array_at::<16>(m, 72);
    if size != 48 {
        return Err(MessageError::BadSize(size));
    }
    let locks = counted_at(m, 88, count, 24, Part::Locks)?;
    Ok(LockRequest {
        lock_sequence,
        file_id,
        locks,
    })
}

/// The canonical spelling of the LOCK request, which stands behind a header. Its elements must be
/// whole, at least one, and their count must fit its field of 2 bytes.
pub fn write_lock_request(alloc: Global, v: &LockRequest<'_>) -> Result<Bytes, AllocError>
    requires whole { length v.now.locks.now % 24 ≡ 0 }
    requires some { 0 < length v.now.locks.now }
    requires fits { length v.now.locks.now < 24 * 2 ^ 16 }
    ensures { IfOk result (λ b. b ≡ lock_request_spelling (lock_request v.now)) }
{
    let mut fixed = FixedOut::<24>::new();
    fixed.put_u16(48);
    fixed.put_u16((v.locks.len() / 24) as u16);
    fixed.put_u32(v.lock_sequence);
    fixed.put_slice(&v.file_id);
    let mut out = Out::new(alloc);
    out.put_slice(&fixed.finish())?;
    out.put_slice(v.locks)?;
    Ok(out.finish())
}

// The element at a place.
fn element_behind(locks: &[u8], at: usize) -> Result<LockElement, Short>
    ensures { MatchResult result (λ e. Stands locks.now at (lock_element_table e)) (λ _. length locks.now < at + 24) }
{
    let mut cursor = Cursor::new(locks);
    let _before = cursor.take(at)?;
    let offset = cursor.get_u64()?;
    let length = cursor.get_u64()?;
    let flags = cursor.get_u32()?;
    let _reserved = cursor.get_u32()?;
    Ok(LockElement {
        offset,
        length,
        flags,
    })
}

/// Element `index` of a LOCK request's elements, counted from 0; `None` where there are no more.
pub fn lock_element_at(locks: &[u8], index: usize) -> Option<LockElement>
    ensures { MatchOption result (length locks.now < 24 * index + 24) (λ e. Stands locks.now (24 * index) (lock_element_table e)) }
{
    let at = index.checked_mul(24)?;
    element_behind(locks, at).ok()
}

/// Adds an element at the end of a LOCK request's elements. Where memory runs out nothing changes.
pub fn push_lock_element(locks: &mut Bytes, element: &LockElement) -> Result<(), AllocError>
    ensures ok { OnOk result (locks.new ≡ locks.old ++ lock_element_spelling element.now) }
    ensures err { OnErr result (locks.new ≡ locks.old) }
{
    let mut out = FixedOut::<24>::new();
    out.put_u64(element.offset);
    out.put_u64(element.length);
    out.put_u32(element.flags);
    out.put_u32(0);
    locks.extend(&out.finish())
}
