ghost use Rattle.std.specs.Prelude.{◌≡◌, ◌++◌, ℕ, List, length, None};
ghost use Rattle.spec_wire.specs.messages.SessionSetup.{SessionSetupRequestValue, SpellsSessionSetupRequest};
ghost use Rattle.spec_wire.specs.messages.SessionSetup.{IsWritableSessionSetupRequest, session_setup_request_fault};
ghost use Rattle.spec_wire.specs.messages.SessionSetup.{session_setup_request_in, session_setup_request_spelling};
ghost use Rattle.spec_wire.specs.messages.SessionSetup.{SessionSetupResponseValue, SpellsSessionSetupResponse};
ghost use Rattle.spec_wire.specs.messages.SessionSetup.{IsWritableSessionSetupResponse, session_setup_response_fault};
ghost use Rattle.spec_wire.specs.messages.SessionSetup.{session_setup_response_in, session_setup_response_spelling};

/// The laws of the SESSION_SETUP request.
pub fn session_setup_request_law()
    ensures one { (m : List ℕ) (v w : SessionSetupRequestValue) → SpellsSessionSetupRequest m v → SpellsSessionSetupRequest m w → v ≡ w }
    ensures whole { (m : List ℕ) (v : SessionSetupRequestValue) → SpellsSessionSetupRequest m v → session_setup_request_fault m ≡ None }
    ensures given { (m : List ℕ) → session_setup_request_fault m ≡ None → SpellsSessionSetupRequest m (session_setup_request_in m) }
    ensures again { (header rest : List ℕ) (v : SessionSetupRequestValue) → length header ≡ 64
        → IsWritableSessionSetupRequest v → SpellsSessionSetupRequest
        (header ++ (session_setup_request_spelling v ++ rest)) v }
{}

/// The laws of the SESSION_SETUP response.
pub fn session_setup_response_law()
    ensures one { (m : List ℕ) (v w : SessionSetupResponseValue) → SpellsSessionSetupResponse m v → SpellsSessionSetupResponse m w → v ≡ w }
    ensures whole { (m : List ℕ) (v : SessionSetupResponseValue) → SpellsSessionSetupResponse m v → session_setup_response_fault m ≡ None }
    ensures given { (m : List ℕ) → session_setup_response_fault m ≡ None → SpellsSessionSetupResponse m (session_setup_response_in m) }
    ensures again { (header rest : List ℕ) (v : SessionSetupResponseValue) → length header ≡ 64
        → IsWritableSessionSetupResponse v → SpellsSessionSetupResponse
        (header ++ (session_setup_response_spelling v ++ rest)) v }
{}
