ghost use Rattle.std.specs.Prelude.{◌≡◌, IfOk};
ghost use Rattle.spec_wire.specs.messages.Fault.{Reads};
ghost use Rattle.spec_wire.specs.messages.Error.{SpellsErrorResponse, error_response_fault, error_response_spelling};

use crate::byte_lists::{Bytes, FixedOut, fields_fit, u8_at, u16_at, u32_at};
use crate::headers::MessageError;
use spec_wire::ErrorResponse;
use std::alloc::{AllocError, Global};

/// Reads the error response (MS-SMB2 2.2.2) that stands behind the header of `m`. Its error data is
/// passed over.
pub fn read_error_response(m: &[u8]) -> Result<ErrorResponse, MessageError>
    ensures { Reads (error_response_fault m.now) (SpellsErrorResponse m.now) (λ v. v) result }
{
    fields_fit(m, &[64, 2, 1, 1, 4, 1])?;
    let size = u16_at(m, 64);
    let error_context_count = u8_at(m, 66);
    let byte_count = u32_at(m, 68);
    if size != 9 {
        return Err(MessageError::BadSize(size));
    }
    Ok(ErrorResponse {
        error_context_count,
        byte_count,
    })
}

/// The canonical spelling of the error response, which stands behind a header.
pub fn write_error_response(alloc: Global, v: &ErrorResponse) -> Result<Bytes, AllocError>
    ensures { IfOk result (λ b. b ≡ error_response_spelling v.now) }
{
    let mut fixed = FixedOut::<9>::new();
    fixed.put_u16(9);
    fixed.put_u8(v.error_context_count);
    fixed.put_u8(0);
    fixed.put_u32(v.byte_count);
    fixed.put_u8(0);
    Bytes::from_slice(alloc, &fixed.finish())
}
