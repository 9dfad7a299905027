ghost use Rattle.std.specs.Prelude.{◌≡◌, IfOk};
ghost use Rattle.spec_wire.specs.messages.Fault.{Reads};
ghost use Rattle.spec_wire.specs.messages.TreeConnect.{SpellsTreeConnectResponse, tree_connect_response_fault};
ghost use Rattle.spec_wire.specs.messages.TreeConnect.{tree_connect_response_spelling};

use crate::byte_lists::{Bytes, FixedOut, fields_fit, u8_at, u16_at, u32_at};
use crate::headers::MessageError;
use spec_wire::TreeConnectResponse;
use std::alloc::{AllocError, Global};

/// Reads the TREE_CONNECT response that stands behind the header of `m`.
pub fn read_tree_connect_response(m: &[u8]) -> Result<TreeConnectResponse, MessageError>
    ensures { Reads (tree_connect_response_fault m.now) (SpellsTreeConnectResponse m.now) (λ v. v) result }
{
    fields_fit(m, &[64, 2, 1, 1, 4, 4, 4])?;
    let size = u16_at(m, 64);
    let share_type = u8_at(m, 66);
    let share_flags = u32_at(m, 68);
    let capabilities = u32_at(m, 72);
    let maximal_access = u32_at(m, 76);
    if size != 16 {
        return Err(MessageError::BadSize(size));
    }
    Ok(TreeConnectResponse {
        share_type,
        share_flags,
        capabilities,
        maximal_access,
    })
}

/// The canonical spelling of the TREE_CONNECT response, which stands behind a header.
pub fn write_tree_connect_response(
    alloc: Global,
    v: &TreeConnectResponse,
) -> Result<Bytes, AllocError>
    ensures { IfOk result (λ b. b ≡ tree_connect_response_spelling v.now) }
{
    let mut fixed = FixedOut::<16>::new();
    fixed.put_u16(16);
    fixed.put_u8(v.share_type);
    fixed.put_u8(0);
    fixed.put_u32(v.share_flags);
    fixed.put_u32(v.capabilities);
    fixed.put_u32(v.maximal_access);
    Bytes::from_slice(alloc, &fixed.finish())
}
