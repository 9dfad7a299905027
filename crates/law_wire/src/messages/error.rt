ghost use Rattle.std.specs.Prelude.{◌≡◌, ◌++◌, ℕ, List, length, None};
ghost use Rattle.spec_wire.specs.messages.Error.{SpellsErrorResponse, IsWritableErrorResponse, error_response_fault};
ghost use Rattle.spec_wire.specs.messages.Error.{error_response_in, error_response_spelling};
ghost use Rattle.spec_wire.specs.declared.messages.message.ErrorResponse.{ErrorResponse};

/// The laws of the error response.
pub fn error_response_law()
    ensures one { (m : List ℕ) (v w : ErrorResponse) → SpellsErrorResponse m v → SpellsErrorResponse m w → v ≡ w }
    ensures whole { (m : List ℕ) (v : ErrorResponse) → SpellsErrorResponse m v → error_response_fault m ≡ None }
    ensures given { (m : List ℕ) → error_response_fault m ≡ None → SpellsErrorResponse m (error_response_in m) }
    ensures again { (header rest : List ℕ) (v : ErrorResponse) → length header ≡ 64 → IsWritableErrorResponse v
        → SpellsErrorResponse (header ++ (error_response_spelling v ++ rest)) v }
{}
