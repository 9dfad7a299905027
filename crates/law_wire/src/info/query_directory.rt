ghost use Rattle.std.specs.Prelude.{◌≡◌, ◌++◌, ℕ, List, length, None};
ghost use Rattle.spec_wire.specs.messages.QueryDirectory.{QueryDirectoryRequestValue, SpellsQueryDirectoryRequest};
ghost use Rattle.spec_wire.specs.messages.QueryDirectory.{IsWritableQueryDirectoryRequest, query_directory_request_fault};
ghost use Rattle.spec_wire.specs.messages.QueryDirectory.{query_directory_request_in, query_directory_request_spelling};
ghost use Rattle.spec_wire.specs.messages.QueryDirectory.{QueryDirectoryResponseValue, SpellsQueryDirectoryResponse};
ghost use Rattle.spec_wire.specs.messages.QueryDirectory.{IsWritableQueryDirectoryResponse, query_directory_response_fault};
ghost use Rattle.spec_wire.specs.messages.QueryDirectory.{query_directory_response_in, query_directory_response_spelling};

/// The laws of the QUERY_DIRECTORY request.
pub fn query_directory_request_law()
    ensures one { (m : List ℕ) (v w : QueryDirectoryRequestValue) → SpellsQueryDirectoryRequest m v
        → SpellsQueryDirectoryRequest m w → v ≡ w }
    ensures whole { (m : List ℕ) (v : QueryDirectoryRequestValue) → SpellsQueryDirectoryRequest m v
        → query_directory_request_fault m ≡ None }
    ensures given { (m : List ℕ) → query_directory_request_fault m ≡ None → SpellsQueryDirectoryRequest m (query_directory_request_in m) }
    ensures again { (header rest : List ℕ) (v : QueryDirectoryRequestValue) → length header ≡ 64
        → IsWritableQueryDirectoryRequest v
        → SpellsQueryDirectoryRequest (header ++ (query_directory_request_spelling v ++ rest)) v }
{}

/// The laws of the QUERY_DIRECTORY response.
pub fn query_directory_response_law()
    ensures one { (m : List ℕ) (v w : QueryDirectoryResponseValue) → SpellsQueryDirectoryResponse m v
        → SpellsQueryDirectoryResponse m w → v ≡ w }
    ensures whole { (m : List ℕ) (v : QueryDirectoryResponseValue) → SpellsQueryDirectoryResponse m v
        → query_directory_response_fault m ≡ None }
    ensures given { (m : List ℕ) → query_directory_response_fault m ≡ None
        → SpellsQueryDirectoryResponse m (query_directory_response_in m) }
    ensures again { (header rest : List ℕ) (v : QueryDirectoryResponseValue) → length header ≡ 64
        → IsWritableQueryDirectoryResponse v
        → SpellsQueryDirectoryResponse (header ++ (query_directory_response_spelling v ++ rest)) v }
{}
