ghost use Rattle.std.specs.Prelude.{◌≡◌, ◌++◌, ℕ, List, length, None};
ghost use Rattle.spec_wire.specs.messages.Create.{CreateRequestValue, SpellsCreateRequest, IsWritableCreateRequest};
ghost use Rattle.spec_wire.specs.messages.Create.{create_request_fault, create_request_in, create_request_spelling};

/// The laws of the CREATE request.
pub fn create_request_law()
    ensures one { (m : List ℕ) (v w : CreateRequestValue) → SpellsCreateRequest m v → SpellsCreateRequest m w → v ≡ w }
    ensures whole { (m : List ℕ) (v : CreateRequestValue) → SpellsCreateRequest m v → create_request_fault m ≡ None }
    ensures given { (m : List ℕ) → create_request_fault m ≡ None → SpellsCreateRequest m (create_request_in m) }
    ensures again { (header rest : List ℕ) (v : CreateRequestValue) → length header ≡ 64 → IsWritableCreateRequest v
        → SpellsCreateRequest (header ++ (create_request_spelling v ++ rest)) v }
{}
