ghost use Rattle.std.specs.Prelude.{◌≡◌, ◌<◌, ◌^◌, length, IfOk};
ghost use Rattle.spec_wire.specs.messages.Fault.{Reads};
ghost use Rattle.spec_wire.specs.messages.TreeConnect.{SpellsTreeConnectRequest, tree_connect_request_fault, tree_connect_request_spelling};
ghost use Rattle.wire_bytes.specs.session_messages.Views.{tree_connect_request};

use crate::byte_lists::{Bytes, FixedOut, Out, fields_fit, u16_at};
use crate::headers::{MessageError, Part, part_of};
use crate::session_messages::tree_connect::TreeConnectRequest;
use std::alloc::{AllocError, Global};

/// Reads the TREE_CONNECT request that stands behind the header of `m`.
pub fn read_tree_connect_request(m: &[u8]) -> Result<TreeConnectRequest<'_>, MessageError>
    ensures { Reads (tree_connect_request_fault m.now) (SpellsTreeConnectRequest m.now) tree_connect_request result }
{
    fields_fit(m, &[64, 2, 2, 2, 2])?;
    let size = u16_at(m, 64);
    let flags = u16_at(m, 66);
    let path_at = u16_at(m, 68);
    let path_len = u16_at(m, 70);
    if size != 9 {
        return Err(MessageError::BadSize(size));
    }
    let path = part_of(m, path_at as usize, path_len as usize, 72, Part::Path)?;
    Ok(TreeConnectRequest { flags, path })
}

/// The canonical spelling of the TREE_CONNECT request, which stands behind a header. The path's length
/// must fit its field of 2 bytes.
pub fn write_tree_connect_request(
    alloc: Global,
    v: &TreeConnectRequest<'_>,
) -> Result<Bytes, AllocError>
    requires { length v.now.path.now < 2 ^ 16 }
    ensures { IfOk result (λ b. b ≡ tree_connect_request_spelling (tree_connect_request v.now)) }
{
    let mut fixed = FixedOut::<8>::new();
    fixed.put_u16(9);
    fixed.put_u16(v.flags);
    fixed.put_u16(72);
    fixed.put_u16(v.path.len() as u16);
    let mut out = Out::new(alloc);
    out.put_slice(&fixed.finish())?;
    out.put_slice(v.path)?;
    Ok(out.finish())
}
