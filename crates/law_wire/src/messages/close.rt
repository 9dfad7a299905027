ghost use Rattle.std.specs.Prelude.{◌≡◌, ◌++◌, ℕ, List, length, None};
ghost use Rattle.spec_wire.specs.messages.Close.{SpellsCloseRequest, IsWritableCloseRequest, close_request_fault};
ghost use Rattle.spec_wire.specs.messages.Close.{close_request_in, close_request_spelling};
ghost use Rattle.spec_wire.specs.declared.messages.file_message.CloseRequest.{CloseRequest};
ghost use Rattle.spec_wire.specs.messages.Close.{SpellsCloseResponse, IsWritableCloseResponse, close_response_fault};
ghost use Rattle.spec_wire.specs.messages.Close.{close_response_in, close_response_spelling};
ghost use Rattle.spec_wire.specs.declared.messages.file_message.CloseResponse.{CloseResponse};

/// The laws of the CLOSE request.
pub fn close_request_law()
    ensures one { (m : List ℕ) (v w : CloseRequest) → SpellsCloseRequest m v → SpellsCloseRequest m w → v ≡ w }
    ensures whole { (m : List ℕ) (v : CloseRequest) → SpellsCloseRequest m v → close_request_fault m ≡ None }
    ensures given { (m : List ℕ) → close_request_fault m ≡ None → SpellsCloseRequest m (close_request_in m) }
    ensures again { (header rest : List ℕ) (v : CloseRequest) → length header ≡ 64 → IsWritableCloseRequest v
        → SpellsCloseRequest (header ++ (close_request_spelling v ++ rest)) v }
{}

/// The laws of the CLOSE response.
pub fn close_response_law()
    ensures one { (m : List ℕ) (v w : CloseResponse) → SpellsCloseResponse m v → SpellsCloseResponse m w → v ≡ w }
    ensures whole { (m : List ℕ) (v : CloseResponse) → SpellsCloseResponse m v → close_response_fault m ≡ None }
    ensures given { (m : List ℕ) → close_response_fault m ≡ None → SpellsCloseResponse m (close_response_in m) }
    ensures again { (header rest : List ℕ) (v : CloseResponse) → length header ≡ 64 → IsWritableCloseResponse v
        → SpellsCloseResponse (header ++ (close_response_spelling v ++ rest)) v }
{}
