//! Which LOCK waits.

ghost use Rattle.std.specs.Prelude.{◌≡◌, ℕ, [], ◌∷◌, true, Some, is_some};
ghost use Rattle.spec_exchange.specs.Commands.{Element, Lock};
ghost use Rattle.spec_exchange.specs.Check.{check};
ghost use Rattle.spec_exchange.specs.State.{Message, Range, Server};
ghost use Rattle.law_waiting.specs.held.Exactly.{WaitsExactly};
ghost use Rattle.law_waiting.specs.held.Held.{IsHeldUp, is_not_granted, may_wait, would_wait};
ghost use Rattle.law_waiting.specs.held.Untouched.{FilesStay, UntouchedStays, WaiterStands};

/// A LOCK that would wait asks for one range, and one that stands on its open's file conflicts with it (`held`). Where the checks
/// come to LOCK_NOT_GRANTED for a LOCK of one element, which may wait, it would wait (`found`; MS-SMB2 3.3.5.14).
pub fn held_law()
    ensures held { (s : Server) (m : Message) (r : Range) → would_wait s m ≡ Some r → IsHeldUp s m }
    ensures found { (s : Server) (m : Message) (o index number : ℕ) (e : Element) → m.command ≡ Lock o index number (e ∷ [])
        → may_wait e.flags ≡ true → is_not_granted (check s m) ≡ true → is_some (would_wait s m) ≡ true }
    ensures exact { (s : Server) (m : Message) (o index number : ℕ) (e : Element) → m.command ≡ Lock o index number (e ∷ [])
        → may_wait e.flags ≡ true → WaitsExactly s m o index number e }
{}

/// A LOCK that waits for a file is held up as before, and its open's file is the same, behind a request that looks at an open or writes,
/// and behind a LOCK on another file, where as many opens stand as before, so that none expired (`held`). Behind any request that makes no open
/// and takes none away all opens are of the same files (`files`). The open of a LOCK that would wait stands (`stands`).
pub fn untouched_law()
    ensures held { UntouchedStays }
    ensures files { FilesStay }
    ensures stands { WaiterStands }
{}
