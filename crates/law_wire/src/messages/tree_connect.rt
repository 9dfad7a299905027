ghost use Rattle.std.specs.Prelude.{◌≡◌, ◌++◌, ℕ, List, length, None};
ghost use Rattle.spec_wire.specs.messages.TreeConnect.{TreeConnectRequestValue, SpellsTreeConnectRequest};
ghost use Rattle.spec_wire.specs.messages.TreeConnect.{IsWritableTreeConnectRequest, tree_connect_request_fault};
ghost use Rattle.spec_wire.specs.messages.TreeConnect.{tree_connect_request_in, tree_connect_request_spelling};
ghost use Rattle.spec_wire.specs.messages.TreeConnect.{SpellsTreeConnectResponse, IsWritableTreeConnectResponse};
ghost use Rattle.spec_wire.specs.messages.TreeConnect.{tree_connect_response_fault, tree_connect_response_in};
ghost use Rattle.spec_wire.specs.messages.TreeConnect.{tree_connect_response_spelling};
ghost use Rattle.spec_wire.specs.declared.messages.session_message.TreeConnectResponse.{TreeConnectResponse};

/// The laws of the TREE_CONNECT request.
pub fn tree_connect_request_law()
    ensures one { (m : List ℕ) (v w : TreeConnectRequestValue) → SpellsTreeConnectRequest m v → SpellsTreeConnectRequest m w → v ≡ w }
    ensures whole { (m : List ℕ) (v : TreeConnectRequestValue) → SpellsTreeConnectRequest m v → tree_connect_request_fault m ≡ None }
    ensures given { (m : List ℕ) → tree_connect_request_fault m ≡ None → SpellsTreeConnectRequest m (tree_connect_request_in m) }
    ensures again { (header rest : List ℕ) (v : TreeConnectRequestValue) → length header ≡ 64
        → IsWritableTreeConnectRequest v → SpellsTreeConnectRequest
        (header ++ (tree_connect_request_spelling v ++ rest)) v }
{}

/// The laws of the TREE_CONNECT response.
pub fn tree_connect_response_law()
    ensures one { (m : List ℕ) (v w : TreeConnectResponse) → SpellsTreeConnectResponse m v → SpellsTreeConnectResponse m w → v ≡ w }
    ensures whole { (m : List ℕ) (v : TreeConnectResponse) → SpellsTreeConnectResponse m v → tree_connect_response_fault m ≡ None }
    ensures given { (m : List ℕ) → tree_connect_response_fault m ≡ None → SpellsTreeConnectResponse m (tree_connect_response_in m) }
    ensures again { (header rest : List ℕ) (v : TreeConnectResponse) → length header ≡ 64
        → IsWritableTreeConnectResponse v → SpellsTreeConnectResponse
        (header ++ (tree_connect_response_spelling v ++ rest)) v }
{}
