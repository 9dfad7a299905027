ghost use Rattle.std.specs.Prelude.{◌≡◌, ◌++◌, ℕ, List, length, None};
ghost use Rattle.spec_wire.specs.messages.Read.{SpellsReadRequest, IsWritableReadRequest, read_request_fault, read_request_in};
ghost use Rattle.spec_wire.specs.messages.Read.{read_request_spelling};
ghost use Rattle.spec_wire.specs.declared.messages.message.ReadRequest.{ReadRequest};
ghost use Rattle.spec_wire.specs.messages.Read.{ReadResponseValue, SpellsReadResponse, IsWritableReadResponse};
ghost use Rattle.spec_wire.specs.messages.Read.{read_response_fault, read_response_in, read_response_spelling};

/// The laws of the READ request.
pub fn read_request_law()
    ensures one { (m : List ℕ) (v w : ReadRequest) → SpellsReadRequest m v → SpellsReadRequest m w → v ≡ w }
    ensures whole { (m : List ℕ) (v : ReadRequest) → SpellsReadRequest m v → read_request_fault m ≡ None }
    ensures given { (m : List ℕ) → read_request_fault m ≡ None → SpellsReadRequest m (read_request_in m) }
    ensures again { (header rest : List ℕ) (v : ReadRequest) → length header ≡ 64 → IsWritableReadRequest v
        → SpellsReadRequest (header ++ (read_request_spelling v ++ rest)) v }
{}

/// The laws of the READ response.
pub fn read_response_law()
    ensures one { (m : List ℕ) (v w : ReadResponseValue) → SpellsReadResponse m v → SpellsReadResponse m w → v ≡ w }
    ensures whole { (m : List ℕ) (v : ReadResponseValue) → SpellsReadResponse m v → read_response_fault m ≡ None }
    ensures given { (m : List ℕ) → read_response_fault m ≡ None → SpellsReadResponse m (read_response_in m) }
    ensures again { (header rest : List ℕ) (v : ReadResponseValue) → length header ≡ 64 → IsWritableReadResponse v
        → SpellsReadResponse (header ++ (read_response_spelling v ++ rest)) v }
{}
