ghost use Rattle.std.specs.Prelude.{◌≡◌, ◌++◌, ℕ, List, length, None};
ghost use Rattle.spec_wire.specs.messages.CreateResponse.{CreateResponseValue, SpellsCreateResponse, IsWritableCreateResponse};
ghost use Rattle.spec_wire.specs.messages.CreateResponse.{create_response_fault, create_response_in, create_response_spelling};

/// The laws of the CREATE response.
pub fn create_response_law()
    ensures one { (m : List ℕ) (v w : CreateResponseValue) → SpellsCreateResponse m v → SpellsCreateResponse m w → v ≡ w }
    ensures whole { (m : List ℕ) (v : CreateResponseValue) → SpellsCreateResponse m v → create_response_fault m ≡ None }
    ensures given { (m : List ℕ) → create_response_fault m ≡ None → SpellsCreateResponse m (create_response_in m) }
    ensures again { (header rest : List ℕ) (v : CreateResponseValue) → length header ≡ 64 → IsWritableCreateResponse v
        → SpellsCreateResponse (header ++ (create_response_spelling v ++ rest)) v }
{}
