ghost use Rattle.std.specs.Prelude.{◌≡◌, ◌++◌, ℕ, List, length, None};
ghost use Rattle.spec_wire.specs.messages.Negotiate.{NegotiateRequestValue, SpellsNegotiateRequest, IsWritableNegotiateRequest};
ghost use Rattle.spec_wire.specs.messages.Negotiate.{negotiate_request_fault, negotiate_request_in, negotiate_request_spelling};
ghost use Rattle.spec_wire.specs.messages.Negotiate.{NegotiateResponseValue, SpellsNegotiateResponse};
ghost use Rattle.spec_wire.specs.messages.Negotiate.{IsWritableNegotiateResponse, negotiate_response_fault};
ghost use Rattle.spec_wire.specs.messages.Negotiate.{negotiate_response_in, negotiate_response_spelling};

/// The laws of the NEGOTIATE request.
pub fn negotiate_request_law()
    ensures one { (m : List ℕ) (v w : NegotiateRequestValue) → SpellsNegotiateRequest m v → SpellsNegotiateRequest m w → v ≡ w }
    ensures whole { (m : List ℕ) (v : NegotiateRequestValue) → SpellsNegotiateRequest m v → negotiate_request_fault m ≡ None }
    ensures given { (m : List ℕ) → negotiate_request_fault m ≡ None → SpellsNegotiateRequest m (negotiate_request_in m) }
    ensures again { (header rest : List ℕ) (v : NegotiateRequestValue) → length header ≡ 64 → IsWritableNegotiateRequest
        v → SpellsNegotiateRequest (header ++ (negotiate_request_spelling v ++ rest)) v }
{}

/// The laws of the NEGOTIATE response.
pub fn negotiate_response_law()
    ensures one { (m : List ℕ) (v w : NegotiateResponseValue) → SpellsNegotiateResponse m v → SpellsNegotiateResponse m w → v ≡ w }
    ensures whole { (m : List ℕ) (v : NegotiateResponseValue) → SpellsNegotiateResponse m v → negotiate_response_fault m ≡ None }
    ensures given { (m : List ℕ) → negotiate_response_fault m ≡ None → SpellsNegotiateResponse m (negotiate_response_in m) }
    ensures again { (header rest : List ℕ) (v : NegotiateResponseValue) → length header ≡ 64
        → IsWritableNegotiateResponse v → SpellsNegotiateResponse
        (header ++ (negotiate_response_spelling v ++ rest)) v }
{}
