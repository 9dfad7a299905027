//! The invariant under the exchange model's three statements, in six sentences that hold in every world of every run of
//! one client and one server, whatever the network loses and whenever the server starts anew.
//!
//! The law is a public function with an empty body, whose contract is the statement. Nothing is proved by induction here:
//! the sentences are derived from the records of the layers below. Their definitions stand in `specs`.

ghost use Rattle.std.specs.Prelude.{List};
ghost use Rattle.spec_exchange.specs.Network.{Event, Settings, run, start};
ghost use Rattle.spec_exchange.specs.Runs.{acts};
ghost use Rattle.law_outcomes.specs.invariant.Parts.{CopiesAreOwn, GoneIsDeleted, CreatesAreKept, LocksAreKept, EditsAreShown, NoneIsNewer};

/// In every world of a run, a copy being a message of an operation itself that waits for the server, and live where its
/// session is present there:
///
/// 1. `own`: each copy is its operation's request, with its guid, or its open, slot and number; and its pair of session
///    and sequence is no newer than the client's.
/// 2. `gone`: where a session is gone from the server, a copy or a DH2C of it is answered USER_SESSION_DELETED and
///    doesn't act.
/// 3. `creates`: a create with a live copy acted once, and its guid names an open that stands, or is kept as closed in the
///    copy's session, or its guid has expired; or it didn't act, and every copy is refused in that session; or it hasn't acted, and
///    isn't settled as Refused, NoOpen or NoSlot.
/// 4. `locks`: a lock or unlock with a live copy is the last that took its slot; and its open has left, or its slot keeps
///    for its number the status on which it acted or didn't, or the slot keeps none for it and it hasn't acted.
/// 5. `edits`: no two writes or ends that went out and may still act, of an open that stands and denies writers, collide;
///    and where one acted, the file's bytes show it.
/// 6. `newest`: a live copy of a write or end, older than the sequence of its open in its session, doesn't act, and is
///    answered FILE_NOT_AVAILABLE, unless the connection is no channel of the session or the request breaks the form
///    rules; and no pair that reached an open that stands is newer than the open's own.
pub fn invariant_law()
    ensures own { (settings : Settings) (events : List Event) → CopiesAreOwn (run events (start settings)) }
    ensures gone { (settings : Settings) (events : List Event) → GoneIsDeleted (run events (start settings)) }
    ensures creates { (settings : Settings) (events : List Event)
        → CreatesAreKept (run events (start settings)) (acts events (start settings)) }
    ensures locks { (settings : Settings) (events : List Event)
        → LocksAreKept (run events (start settings)) (acts events (start settings)) }
    ensures edits { (settings : Settings) (events : List Event) → EditsAreShown (run events (start settings)) }
    ensures newest { (settings : Settings) (events : List Event) → NoneIsNewer (run events (start settings)) }
{}
