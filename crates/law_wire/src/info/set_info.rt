ghost use Rattle.std.specs.Prelude.{◌≡◌, ◌++◌, ℕ, List, length, None};
ghost use Rattle.spec_wire.specs.messages.SetInfo.{SetInfoRequestValue, SpellsSetInfoRequest, IsWritableSetInfoRequest};
ghost use Rattle.spec_wire.specs.messages.SetInfo.{set_info_request_fault, set_info_request_in, set_info_request_spelling};
ghost use Rattle.spec_wire.specs.messages.SetInfo.{SpellsSetInfoResponse, IsWritableSetInfoResponse, set_info_response_fault};
ghost use Rattle.spec_wire.specs.messages.SetInfo.{set_info_response_in, set_info_response_spelling};
ghost use Rattle.spec_wire.specs.declared.messages.file_message.SetInfoResponse.{SetInfoResponse};

/// The laws of the SET_INFO request.
pub fn set_info_request_law()
    ensures one { (m : List ℕ) (v w : SetInfoRequestValue) → SpellsSetInfoRequest m v → SpellsSetInfoRequest m w → v ≡ w }
    ensures whole { (m : List ℕ) (v : SetInfoRequestValue) → SpellsSetInfoRequest m v → set_info_request_fault m ≡ None }
    ensures given { (m : List ℕ) → set_info_request_fault m ≡ None → SpellsSetInfoRequest m (set_info_request_in m) }
    ensures again { (header rest : List ℕ) (v : SetInfoRequestValue) → length header ≡ 64 → IsWritableSetInfoRequest v
        → SpellsSetInfoRequest (header ++ (set_info_request_spelling v ++ rest)) v }
{}

/// The laws of the SET_INFO response.
pub fn set_info_response_law()
    ensures one { (m : List ℕ) (v w : SetInfoResponse) → SpellsSetInfoResponse m v → SpellsSetInfoResponse m w → v ≡ w }
    ensures whole { (m : List ℕ) (v : SetInfoResponse) → SpellsSetInfoResponse m v → set_info_response_fault m ≡ None }
    ensures given { (m : List ℕ) → set_info_response_fault m ≡ None → SpellsSetInfoResponse m (set_info_response_in m) }
    ensures again { (header rest : List ℕ) (v : SetInfoResponse) → length header ≡ 64 → IsWritableSetInfoResponse v
        → SpellsSetInfoResponse (header ++ (set_info_response_spelling v ++ rest)) v }
{}
