ghost use Rattle.std.specs.Prelude.{◌≡◌, ◌++◌, ℕ, List, length, None};
ghost use Rattle.spec_wire.specs.messages.Write.{WriteRequestValue, SpellsWriteRequest, IsWritableWriteRequest};
ghost use Rattle.spec_wire.specs.messages.Write.{write_request_fault, write_request_in, write_request_spelling};
ghost use Rattle.spec_wire.specs.messages.Write.{SpellsWriteResponse, IsWritableWriteResponse, write_response_fault};
ghost use Rattle.spec_wire.specs.messages.Write.{write_response_in, write_response_spelling};
ghost use Rattle.spec_wire.specs.declared.messages.message.WriteResponse.{WriteResponse};

/// The laws of the WRITE request.
pub fn write_request_law()
    ensures one { (m : List ℕ) (v w : WriteRequestValue) → SpellsWriteRequest m v → SpellsWriteRequest m w → v ≡ w }
    ensures whole { (m : List ℕ) (v : WriteRequestValue) → SpellsWriteRequest m v → write_request_fault m ≡ None }
    ensures given { (m : List ℕ) → write_request_fault m ≡ None → SpellsWriteRequest m (write_request_in m) }
    ensures again { (header rest : List ℕ) (v : WriteRequestValue) → length header ≡ 64 → IsWritableWriteRequest v
        → SpellsWriteRequest (header ++ (write_request_spelling v ++ rest)) v }
{}

/// The laws of the WRITE response.
pub fn write_response_law()
    ensures one { (m : List ℕ) (v w : WriteResponse) → SpellsWriteResponse m v → SpellsWriteResponse m w → v ≡ w }
    ensures whole { (m : List ℕ) (v : WriteResponse) → SpellsWriteResponse m v → write_response_fault m ≡ None }
    ensures given { (m : List ℕ) → write_response_fault m ≡ None → SpellsWriteResponse m (write_response_in m) }
    ensures again { (header rest : List ℕ) (v : WriteResponse) → length header ≡ 64 → IsWritableWriteResponse v
        → SpellsWriteResponse (header ++ (write_response_spelling v ++ rest)) v }
{}
