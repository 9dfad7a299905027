ghost use Rattle.std.specs.Prelude.{◌≡◌, ◌<◌, ◌^◌, length, IfOk};
ghost use Rattle.spec_wire.specs.messages.Fault.{Reads};
ghost use Rattle.spec_wire.specs.messages.SessionSetup.{SpellsSessionSetupRequest, session_setup_request_fault};
ghost use Rattle.spec_wire.specs.messages.SessionSetup.{session_setup_request_spelling};
ghost use Rattle.wire_bytes.specs.session_messages.Views.{session_setup_request};

use crate::byte_lists::{Bytes, FixedOut, Out, fields_fit, u8_at, u16_at, u32_at, u64_at};
use crate::headers::{MessageError, Part, part_of};
use crate::session_messages::session_setup::SessionSetupRequest;
use std::alloc::{AllocError, Global};

/// Reads the SESSION_SETUP request that stands behind the header of `m`.
pub fn read_session_setup_request(m: &[u8]) -> Result<SessionSetupRequest<'_>, MessageError>
    ensures { Reads (session_setup_request_fault m.now) (SpellsSessionSetupRequest m.now) session_setup_request result }
{
    // Long by its fields alone: after this one check each of them is a line that can't fail.
    fields_fit(m, &[64, 2, 1, 1, 4, 4, 2, 2, 8])?;
    let size = u16_at(m, 64);
    let flags = u8_at(m, 66);
    let security_mode = u8_at(m, 67);
    let capabilities = u32_at(m, 68);
    let channel = u32_at(m, 72);
    let security_at = u16_at(m, 76);
    let security_len = u16_at(m, 78);
    let previous_session_id = u64_at(m, 80);
    if size != 25 {
        return Err(MessageError::BadSize(size));
    }
    let security = part_of(
        m,
        security_at as usize,
        security_len as usize,
        88,
        Part::Security,
    )?;
    Ok(SessionSetupRequest {
        flags,
        security_mode,
        capabilities,
        channel,
        previous_session_id,
        security,
    })
}

/// The canonical spelling of the SESSION_SETUP request, which stands behind a header. The token's length
/// must fit its field of 2 bytes.
pub fn write_session_setup_request(
    alloc: Global,
    v: &SessionSetupRequest<'_>,
) -> Result<Bytes, AllocError>
    requires { length v.now.security.now < 2 ^ 16 }
    ensures { IfOk result (λ b. b ≡ session_setup_request_spelling (session_setup_request v.now)) }
{
    let mut fixed = FixedOut::<24>::new();
    fixed.put_u16(25);
    fixed.put_u8(v.flags);
    fixed.put_u8(v.security_mode);
    fixed.put_u32(v.capabilities);
    fixed.put_u32(v.channel);
    fixed.put_u16(88);
    fixed.put_u16(v.security.len() as u16);
    fixed.put_u64(v.previous_session_id);
    let mut out = Out::new(alloc);
    out.put_slice(&fixed.finish())?;
    out.put_slice(v.security)?;
    Ok(out.finish())
}
