ghost use Rattle.std.specs.Prelude.{◌≡◌, IfOk};
ghost use Rattle.spec_wire.specs.messages.Fault.{Reads};
ghost use Rattle.spec_wire.specs.messages.LockResponse.{SpellsLockResponse, lock_response_fault, lock_response_spelling};

use crate::byte_lists::{Bytes, Out, fields_fit, u16_at};
use crate::headers::MessageError;
use spec_wire::LockResponse;
use std::alloc::{AllocError, Global};

/// Reads the LOCK response that stands behind the header of `m`.
pub fn read_lock_response(m: &[u8]) -> Result<LockResponse, MessageError>
    ensures { Reads (lock_response_fault m.now) (SpellsLockResponse m.now) (λ v. v) result }
{
    fields_fit(m, &[64, 2, 2])?;
    let size = u16_at(m, 64);
    if size != 4 {
        return Err(MessageError::BadSize(size));
    }
    Ok(LockResponse)
}

/// The canonical spelling of the LOCK response, which stands behind a header.
pub fn write_lock_response(alloc: Global, _v: &LockResponse) -> Result<Bytes, AllocError>
    ensures { IfOk result (λ b. b ≡ lock_response_spelling _v.now) }
{
    let mut out = Out::new(alloc);
    out.put_u16(4)?;
    out.put_u16(0)?;
    Ok(out.finish())
}
