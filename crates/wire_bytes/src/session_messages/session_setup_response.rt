ghost use Rattle.std.specs.Prelude.{◌≡◌, ◌<◌, ◌^◌, length, IfOk};
ghost use Rattle.spec_wire.specs.messages.Fault.{Reads};
ghost use Rattle.spec_wire.specs.messages.SessionSetup.{SpellsSessionSetupResponse, session_setup_response_fault};
ghost use Rattle.spec_wire.specs.messages.SessionSetup.{session_setup_response_spelling};
ghost use Rattle.wire_bytes.specs.session_messages.Views.{session_setup_response};

use crate::byte_lists::{Bytes, FixedOut, Out, fields_fit, u16_at};
use crate::headers::{MessageError, Part, part_of};
use crate::session_messages::session_setup::SessionSetupResponse;
use std::alloc::{AllocError, Global};

/// Reads the SESSION_SETUP response that stands behind the header of `m`.
pub fn read_session_setup_response(m: &[u8]) -> Result<SessionSetupResponse<'_>, MessageError>
    ensures { Reads (session_setup_response_fault m.now) (SpellsSessionSetupResponse m.now) session_setup_response result }
{
    fields_fit(m, &[64, 2, 2, 2, 2])?;
    let size = u16_at(m, 64);
    let session_flags = u16_at(m, 66);
    let security_at = u16_at(m, 68);
    let security_len = u16_at(m, 70);
    if size != 9 {
        return Err(MessageError::BadSize(size));
    }
    let security = part_of(
        m,
        security_at as usize,
        security_len as usize,
        72,
        Part::Security,
    )?;
    Ok(SessionSetupResponse {
        session_flags,
        security,
    })
}

/// The canonical spelling of the SESSION_SETUP response, which stands behind a header. The token's
/// length must fit its field of 2 bytes.
pub fn write_session_setup_response(
    alloc: Global,
    v: &SessionSetupResponse<'_>,
) -> Result<Bytes, AllocError>
    requires { length v.now.security.now < 2 ^ 16 }
    ensures { IfOk result (λ b. b ≡ session_setup_response_spelling (session_setup_response v.now)) }
{
    let mut fixed = FixedOut::<8>::new();
    fixed.put_u16(9);
    fixed.put_u16(v.session_flags);
    fixed.put_u16(72);
    fixed.put_u16(v.security.len() as u16);
    let mut out = Out::new(alloc);
    out.put_slice(&fixed.finish())?;
    out.put_slice(v.security)?;
    Ok(out.finish())
}
