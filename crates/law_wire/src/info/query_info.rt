ghost use Rattle.std.specs.Prelude.{◌≡◌, ◌++◌, ℕ, List, length, None};
ghost use Rattle.spec_wire.specs.messages.QueryInfo.{QueryInfoRequestValue, SpellsQueryInfoRequest, IsWritableQueryInfoRequest};
ghost use Rattle.spec_wire.specs.messages.QueryInfo.{query_info_request_fault, query_info_request_in};
ghost use Rattle.spec_wire.specs.messages.QueryInfo.{query_info_request_spelling};
ghost use Rattle.spec_wire.specs.messages.QueryInfo.{QueryInfoResponseValue, SpellsQueryInfoResponse};
ghost use Rattle.spec_wire.specs.messages.QueryInfo.{IsWritableQueryInfoResponse, query_info_response_fault};
ghost use Rattle.spec_wire.specs.messages.QueryInfo.{query_info_response_in, query_info_response_spelling};

/// The laws of the QUERY_INFO request.
pub fn query_info_request_law()
    ensures one { (m : List ℕ) (v w : QueryInfoRequestValue) → SpellsQueryInfoRequest m v → SpellsQueryInfoRequest m w → v ≡ w }
    ensures whole { (m : List ℕ) (v : QueryInfoRequestValue) → SpellsQueryInfoRequest m v → query_info_request_fault m ≡ None }
    ensures given { (m : List ℕ) → query_info_request_fault m ≡ None → SpellsQueryInfoRequest m (query_info_request_in m) }
    ensures again { (header rest : List ℕ) (v : QueryInfoRequestValue) → length header ≡ 64
        → IsWritableQueryInfoRequest v → SpellsQueryInfoRequest (header ++ (query_info_request_spelling v ++ rest)) v }
{}

/// The laws of the QUERY_INFO response.
pub fn query_info_response_law()
    ensures one { (m : List ℕ) (v w : QueryInfoResponseValue) → SpellsQueryInfoResponse m v → SpellsQueryInfoResponse m w → v ≡ w }
    ensures whole { (m : List ℕ) (v : QueryInfoResponseValue) → SpellsQueryInfoResponse m v → query_info_response_fault m ≡ None }
    ensures given { (m : List ℕ) → query_info_response_fault m ≡ None → SpellsQueryInfoResponse m (query_info_response_in m) }
    ensures again { (header rest : List ℕ) (v : QueryInfoResponseValue) → length header ≡ 64
        → IsWritableQueryInfoResponse v
        → SpellsQueryInfoResponse (header ++ (query_info_response_spelling v ++ rest)) v }
{}
