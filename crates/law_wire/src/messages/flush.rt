ghost use Rattle.std.specs.Prelude.{◌≡◌, ◌++◌, ℕ, List, length, None};
ghost use Rattle.spec_wire.specs.messages.Flush.{SpellsFlushRequest, IsWritableFlushRequest, flush_request_fault};
ghost use Rattle.spec_wire.specs.messages.Flush.{flush_request_in, flush_request_spelling};
ghost use Rattle.spec_wire.specs.declared.messages.file_message.FlushRequest.{FlushRequest};
ghost use Rattle.spec_wire.specs.messages.Flush.{SpellsFlushResponse, IsWritableFlushResponse, flush_response_fault};
ghost use Rattle.spec_wire.specs.messages.Flush.{flush_response_in, flush_response_spelling};
ghost use Rattle.spec_wire.specs.declared.messages.file_message.FlushResponse.{FlushResponse};

/// The laws of the FLUSH request.
pub fn flush_request_law()
    ensures one { (m : List ℕ) (v w : FlushRequest) → SpellsFlushRequest m v → SpellsFlushRequest m w → v ≡ w }
    ensures whole { (m : List ℕ) (v : FlushRequest) → SpellsFlushRequest m v → flush_request_fault m ≡ None }
    ensures given { (m : List ℕ) → flush_request_fault m ≡ None → SpellsFlushRequest m (flush_request_in m) }
    ensures again { (header rest : List ℕ) (v : FlushRequest) → length header ≡ 64 → IsWritableFlushRequest v
        → SpellsFlushRequest (header ++ (flush_request_spelling v ++ rest)) v }
{}

/// The laws of the FLUSH response.
pub fn flush_response_law()
    ensures one { (m : List ℕ) (v w : FlushResponse) → SpellsFlushResponse m v → SpellsFlushResponse m w → v ≡ w }
    ensures whole { (m : List ℕ) (v : FlushResponse) → SpellsFlushResponse m v → flush_response_fault m ≡ None }
    ensures given { (m : List ℕ) → flush_response_fault m ≡ None → SpellsFlushResponse m (flush_response_in m) }
    ensures again { (header rest : List ℕ) (v : FlushResponse) → length header ≡ 64 → IsWritableFlushResponse v
        → SpellsFlushResponse (header ++ (flush_response_spelling v ++ rest)) v }
{}
