ghost use Rattle.std.specs.Prelude.{◌≡◌, ◌^◌, ◌<◌, ◌++◌, ℕ, Bool, true, List, length, Some, None};
ghost use Rattle.spec_wire.specs.declared.messages.header.Header.{Header};
ghost use Rattle.spec_wire.specs.messages.Bare.{bare_spelling};
ghost use Rattle.spec_wire.specs.messages.SessionSetup.{SessionSetupRequestValue, IsWritableSessionSetupRequest};
ghost use Rattle.spec_wire.specs.messages.SessionSetup.{session_setup_request_spelling};
ghost use Rattle.spec_exchange.specs.Commands.{SetupRequest, Setup, Logoff, TreeConnect, TreeDisconnect, Aside};
ghost use Rattle.spec_exchange.specs.State.{SetUp, Connected, Empty};
ghost use Rattle.spec_commands.specs.CommandOf.{Told, command_of, setup_of, echo_status};
ghost use Rattle.spec_commands.specs.BodyOf.{body_of, host};
ghost use Rattle.spec_commands.specs.ReplyBody.{success_body};
ghost use Rattle.spec_commands.specs.ReplyOf.{body_in};
ghost use Rattle.law_commands.specs.commands.Fitting.{IsFittingName, HasNoBackslash};

use law_wire::{
    bare_law, session_setup_request_law, session_setup_response_law, tree_connect_request_law,
    tree_connect_response_law,
};

/// A TREE_CONNECT that a client writes names its share, where that has no `\`.
pub fn share_law()
    ensures { (t : Told) (h : Header) (header rest share : List ℕ) → length header ≡ 64 → IsFittingName (host ++ share)
        → HasNoBackslash share → h.command ≡ 3
        → command_of t h (header ++ (body_of (TreeConnect share) ++ rest)) ≡ Some (TreeConnect share) }
{
    tree_connect_request_law();
}

/// A SESSION_SETUP that any client writes is heard with its flags, its previous session and what its token shows; LOGOFF
/// and TREE_DISCONNECT are heard as such, and an ECHO as what the connection answers by itself.
pub fn dialog_request_law()
    ensures setup { (t : Told) (h : Header) (header rest : List ℕ) (v : SessionSetupRequestValue)
        → length header ≡ 64 → IsWritableSessionSetupRequest v → h.command ≡ 1
        → command_of t h (header ++ (session_setup_request_spelling v ++ rest)) ≡ Some (setup_of t h true v) }
    ensures logoff { (t : Told) (h : Header) (header rest : List ℕ) → length header ≡ 64 → h.command ≡ 2
        → command_of t h (header ++ (bare_spelling ++ rest)) ≡ Some Logoff }
    ensures disconnect { (t : Told) (h : Header) (header rest : List ℕ) → length header ≡ 64 → h.command ≡ 4
        → command_of t h (header ++ (bare_spelling ++ rest)) ≡ Some TreeDisconnect }
    ensures echo { (t : Told) (h : Header) (header rest : List ℕ) → length header ≡ 64 → h.command ≡ 13
        → command_of t h (header ++ (bare_spelling ++ rest)) ≡ Some (Aside (echo_status t.fault None)) }
{
    session_setup_request_law();
    bare_law();
}

/// The successes of a dialog are heard as they were written: of a SESSION_SETUP whether the session seals,
/// with a token of fewer than 2^16 bytes, of a TREE_CONNECT all that it tells, and of LOGOFF and TREE_DISCONNECT nothing.
pub fn dialog_reply_law()
    ensures setup { (header rest token : List ℕ) (request : SetupRequest) (sealed : Bool) (channel : ℕ)
        → length header ≡ 64 → length token < 256 ^ 2
        → body_in (Setup request) (header ++ (success_body token (Setup request) (SetUp sealed channel) ++ rest))
        ≡ Some (SetUp sealed 0) }
    ensures tree { (header rest token share : List ℕ) (kind capabilities access : ℕ) → length header ≡ 64
        → kind < 256 ^ 1 → capabilities < 256 ^ 4 → access < 256 ^ 4
        → body_in (TreeConnect share) (header
        ++ (success_body token (TreeConnect share) (Connected kind capabilities access) ++ rest))
        ≡ Some (Connected kind capabilities access) }
    ensures logoff { (header rest token : List ℕ) → length header ≡ 64
        → body_in Logoff (header ++ (success_body token Logoff Empty ++ rest)) ≡ Some Empty }
    ensures disconnect { (header rest token : List ℕ) → length header ≡ 64
        → body_in TreeDisconnect (header ++ (success_body token TreeDisconnect Empty ++ rest)) ≡ Some Empty }
{
    session_setup_response_law();
    tree_connect_response_law();
    bare_law();
}
