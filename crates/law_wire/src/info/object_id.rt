ghost use Rattle.std.specs.Prelude.{◌≡◌, ◌++◌, ℕ, List, None};
ghost use Rattle.spec_wire.specs.messages.ObjectIds.{SpellsObjectIdBuffer, IsWritableObjectIdBuffer};
ghost use Rattle.spec_wire.specs.messages.ObjectIds.{object_id_buffer_fault, object_id_buffer_in, object_id_buffer_spelling};
ghost use Rattle.spec_wire.specs.declared.messages.class.ObjectIdBuffer.{ObjectIdBuffer};

/// The laws of the answer that tells an object id.
pub fn object_id_buffer_law()
    ensures one { (m : List ℕ) (v w : ObjectIdBuffer) → SpellsObjectIdBuffer m v → SpellsObjectIdBuffer m w → v ≡ w }
    ensures whole { (m : List ℕ) (v : ObjectIdBuffer) → SpellsObjectIdBuffer m v → object_id_buffer_fault m ≡ None }
    ensures given { (m : List ℕ) → object_id_buffer_fault m ≡ None → SpellsObjectIdBuffer m (object_id_buffer_in m) }
    ensures again { (rest : List ℕ) (v : ObjectIdBuffer) → IsWritableObjectIdBuffer v
        → SpellsObjectIdBuffer (object_id_buffer_spelling v ++ rest) v }
{}
