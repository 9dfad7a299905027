ghost use Rattle.std.specs.Prelude.{◌≡◌, IfOk};
ghost use Rattle.spec_wire.specs.messages.Fault.{Reads};
ghost use Rattle.spec_wire.specs.messages.ObjectIds.{SpellsObjectIdBuffer, object_id_buffer_fault, object_id_buffer_spelling};

use spec_wire::ObjectIdBuffer;
use std::alloc::{AllocError, Global};
use wire_bytes::{Bytes, MessageError, Out, array_at, fields_fit};

/// Reads the object id that `m` begins with.
pub fn read_object_id_buffer(m: &[u8]) -> Result<ObjectIdBuffer, MessageError>
    ensures { Reads (object_id_buffer_fault m.now) (SpellsObjectIdBuffer m.now) (λ v. v) result }
{
    fields_fit(m, &[16, 16, 16, 16])?;
    let object_id = array_at::<16>(m, 0);
    let birth_volume_id = array_at::<16>(m, 16);
    let birth_object_id = array_at::<16>(m, 32);
    Ok(ObjectIdBuffer {
        object_id,
        birth_volume_id,
        birth_object_id,
    })
}

/// The canonical spelling of the ObjectIdBuffer.
pub fn write_object_id_buffer(alloc: Global, v: &ObjectIdBuffer) -> Result<Bytes, AllocError>
    ensures { IfOk result (λ b. b ≡ object_id_buffer_spelling v.now) }
{
    let mut out = Out::new(alloc);
    out.put_slice(&v.object_id)?;
    out.put_slice(&v.birth_volume_id)?;
    out.put_slice(&v.birth_object_id)?;
    out.put_zeros(16)?;
    Ok(out.finish())
}
