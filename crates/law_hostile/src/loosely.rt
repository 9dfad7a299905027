//! Once and newer on a network that also loses single messages and delivers them in another order, in the model of values.
//!
//! Each law is the contract of a public function that does nothing.

ghost use Rattle.std.specs.Prelude.{ℕ, ◌+◌, ◌≡◌, [], ◌∷◌, true, false};
ghost use Rattle.spec_exchange.specs.Commands.{Aside, Begins, Logoff};
ghost use Rattle.spec_exchange.specs.Network.{World};
ghost use Rattle.law_hostile.specs.loosely.LooseRows.{ups_behind, acts_there, asks_badly_for, asks_for, asks_session, places_behind};
ghost use Rattle.law_hostile.specs.loosely.LooseRows.{downs_behind, other_logon};
ghost use Rattle.law_hostile.specs.loosely.LooseRuns.{Hears, LooselyNewer, LooselyOnce, Loses, Overtakes};
ghost use Rattle.law_hostile.specs.loosely.LooseSessions.{SessionsStayOver};

/// On every run, where between its events any message or reply that waits may be lost, or be overtaken by the one behind it, or the server
/// hears from nowhere one that isn't signed or sealed as owed, or a NEGOTIATE, an ECHO or a SESSION_SETUP for the client's user: a create,
/// lock or unlock acts once at most, exactly once where it settled Ok, and hasn't acted so far where it settled Refused, NoSlot or NoOpen.
pub fn loose_once_law()
    ensures once { LooselyOnce }
{}

/// On every such run no WRITE or SET_INFO acts after a newer pair of session and channel sequence reached its open.
pub fn loose_newer_law()
    ensures newer { LooselyNewer }
{}

/// On every such run: a session whose id was given and that no connection makes isn't made again, and where it isn't there either it is
/// never there again, over restarts too.
pub fn loose_sessions_law()
    ensures over { SessionsStayOver }
{}

/// Three requests wait on a connection, and three replies. The second one may be lost, the second overtake the first, each way. A message
/// that the server hears from nowhere takes a place of its own and no other's, and its answer goes nowhere, also where it begins a session
/// (of the client's ClientGuid and user alone); one that asks for something else is none, but if it isn't signed as owed: then it takes
/// its place, and doesn't act.
pub fn loose_steps_example()
    ensures request_lost { (w : World) → ups_behind w (Loses 0 true 1) ≡ 1 ∷ 3 ∷ [] }
    ensures reply_lost { (w : World) → downs_behind w (Loses 0 false 1) ≡ 1 ∷ 3 ∷ [] }
    ensures request_ahead { (w : World) → ups_behind w (Overtakes 0 true 0) ≡ 2 ∷ 1 ∷ 3 ∷ [] }
    ensures reply_ahead { (w : World) → downs_behind w (Overtakes 0 false 0) ≡ 2 ∷ 1 ∷ 3 ∷ [] }
    ensures heard { (w : World) → places_behind w (Hears (asks_for (Aside 0) 4)) ≡ w.log.places + 1 }
    ensures unmoved { (w : World) → ups_behind w (Hears (asks_for (Aside 0) 4)) ≡ 1 ∷ 2 ∷ 3 ∷ [] }
    ensures unanswered { (w : World) → downs_behind w (Hears (asks_for (Aside 0) 4)) ≡ 1 ∷ 2 ∷ 3 ∷ [] }
    ensures refused { (w : World) → places_behind w (Hears (asks_for Logoff 4)) ≡ w.log.places }
    ensures faulty { (w : World) → places_behind w (Hears (asks_badly_for Logoff 4)) ≡ w.log.places + 1 }
    ensures begun { (w : World) → places_behind w (Hears (asks_session w.client.who.guid Begins)) ≡ w.log.places + 1 }
    ensures other { (w : World) → places_behind w (Hears (asks_session (w.client.who.guid + 1) Begins)) ≡ w.log.places }
    ensures user { (w : World) → places_behind w (Hears (asks_session w.client.who.guid (other_logon w))) ≡ w.log.places }
    ensures denied { (w : World) → acts_there w (Hears (asks_badly_for Logoff 4)) 4 ≡ false }
{}
