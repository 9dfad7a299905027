ghost use Rattle.std.specs.Prelude.{◌≡◌, IfOk};
ghost use Rattle.spec_wire.specs.messages.Fault.{Reads};
ghost use Rattle.spec_wire.specs.messages.SetInfo.{SpellsSetInfoResponse, set_info_response_fault, set_info_response_spelling};

use spec_wire::SetInfoResponse;
use std::alloc::{AllocError, Global};
use wire_bytes::{Bytes, MessageError, Out, fields_fit, u16_at};

/// Reads the SET_INFO response that stands behind the header of `m`.
pub fn read_set_info_response(m: &[u8]) -> Result<SetInfoResponse, MessageError>
    ensures { Reads (set_info_response_fault m.now) (SpellsSetInfoResponse m.now) (λ v. v) result }
{
    fields_fit(m, &[64, 2])?;
    let size = u16_at(m, 64);
    if size != 2 {
        return Err(MessageError::BadSize(size));
    }
    Ok(SetInfoResponse)
}

/// The canonical spelling of the SET_INFO response, which stands behind a header.
pub fn write_set_info_response(alloc: Global, _v: &SetInfoResponse) -> Result<Bytes, AllocError>
    ensures { IfOk result (λ b. b ≡ set_info_response_spelling _v.now) }
{
    let mut out = Out::new(alloc);
    out.put_u16(2)?;
    Ok(out.finish())
}
