//! An event, from the message to what stands on the disk.
ghost use Rattle.std.specs.Prelude.{◌≡◌, ℕ, Err, List, None, Some, false, true};
ghost use Rattle.spec_exchange.specs.State as model;
ghost use Rattle.spec_exchange.specs.Step.{due, with_deadlines};
ghost use Rattle.spec_wire.specs.journal.Moments.{LeavesOnly};
ghost use Rattle.server_checks.specs.event_heard.Heard.{event_of, heard_event, is_setup_heard};
ghost use Rattle.server_checks.specs.declared.setups.error.EventError.TheVariants as errors;
ghost use Rattle.server_checks.specs.declared.event_heard.event.ServerEvent.{ServerEvent};
ghost use Rattle.server_checks.specs.Shown.{TablesShown};
ghost use Rattle.law_snapshots.specs.snapshots.Pieces.{SnapshotPiece};
ghost use Rattle.server_core.specs.event_step.Behind.{ExpiryAsks, MayExpire};
ghost use Rattle.server_core.specs.event_step.Early.{HasMemory, is_refused_early};
ghost use Rattle.server_core.specs.journaled_tables.Holds.{EventAnswers, EventLeavesBodies, JournaledGoesOn, HoldsOver};
ghost use Rattle.law_server.specs.tables.Fits.{Fits};
ghost use Rattle.spec_crypto.specs.tokens.Tokens.{Users};
ghost use Rattle.spec_world.specs.Ends.{Logons};

use crate::event_step::alone::event_alone;
use crate::event_step::expiring::{Behind, event_behind_expiry};
use crate::journaled_tables::ServerState;
use base_outside::Disk;
use law_records::expiring_law;
use server_checks::{Asked, EventError, ServerEvent, hear, unmade_law};
use server_effects::{Answer, due};

/// One event: in front of it an open that expires, behind it what the journal holds. All memory is taken first, then the
/// records go onto the disk as one body, and then the tables follow, so that an answer is given where its records stand.
///
/// # Errors
///
/// `Memory`: the state is as before, or is changed by the expiry of one open alone, whose records then stand in a body of
/// their own. Where no open is due, it is never the answer to a message that the checks of its session, or of signing and
/// sealing, refuse, but for a SESSION_SETUP with its bytes. `DiskFault` comes only where the disk's count of faults rose, and
/// carries it: the tables have the event's change, and each later event answers `Stopped` with that count and changes nothing.
pub fn answer_event<D: Disk>(
    server: &mut ServerState<D>,
    now: u64,
    event: ServerEvent<'_>,
) -> Result<Answer, EventError>
    ensures step { (base : List SnapshotPiece) (s : model.Server) (L : Logons) (records : List model.Record)
        → HoldsOver D.told D.seen D.may_leave base server.old s L records
        → EventAnswers D.told D.seen D.may_leave base D.faults server.old server.new server.old.tables.config.users s L records now
        event.entry result }
    ensures any_moment { D.told
        → (base : List SnapshotPiece) (s : model.Server) (L : Logons) (records : List model.Record) (bodies : List (List ℕ))
        → HoldsOver D.told D.seen D.may_leave base server.old s L records
        → JournaledGoesOn D.seen D.may_leave base server.old s records bodies
        → LeavesOnly D.moment D.left_since server.old.journal.disk server.new.journal.disk
        (EventLeavesBodies s now (heard_event server.old.tables.config.users L s event.entry) bodies) }
    ensures stopped { (count : ℕ) → server.old.stopped ≡ Some count
        → (result ≡ Err (errors.Stopped count)) × (server.new ≡ server.old) }
    ensures config { server.new.tables.config ≡ server.old.tables.config }
    ensures early { (base : List SnapshotPiece) (s : model.Server) (L : Logons) (records : List model.Record)
        → HoldsOver D.told D.seen D.may_leave base server.old s L records → is_setup_heard event.entry ≡ false
        → due (with_deadlines s now) now ≡ None
        → is_refused_early s (heard_event server.old.tables.config.users L s event.entry) ≡ true → HasMemory result }
{
    match server.stopped {
        Some(count) => Err(EventError::Stopped(count)),
        None => answer_heard(server, now, event),
    }
}

// An event of a server that goes on.
fn answer_heard<D: Disk>(
    server: &mut ServerState<D>,
    now: u64,
    event: ServerEvent<'_>,
) -> Result<Answer, EventError>
    ensures step { (base : List SnapshotPiece) (s : model.Server) (L : Logons) (records : List model.Record)
        → HoldsOver D.told D.seen D.may_leave base server.old s L records → server.old.stopped ≡ None
        → EventAnswers D.told D.seen D.may_leave base D.faults server.old server.new server.old.tables.config.users s L records now
        event.entry result }
    ensures any_moment { D.told
        → (base : List SnapshotPiece) (s : model.Server) (L : Logons) (records : List model.Record) (bodies : List (List ℕ))
        → HoldsOver D.told D.seen D.may_leave base server.old s L records
        → JournaledGoesOn D.seen D.may_leave base server.old s records bodies
        → LeavesOnly D.moment D.left_since server.old.journal.disk server.new.journal.disk
        (EventLeavesBodies s now (heard_event server.old.tables.config.users L s event.entry) bodies) }
    ensures config { server.new.tables.config ≡ server.old.tables.config }
    ensures early { (base : List SnapshotPiece) (s : model.Server) (L : Logons) (records : List model.Record)
        → HoldsOver D.told D.seen D.may_leave base server.old s L records → is_setup_heard event.entry ≡ false
        → due (with_deadlines s now) now ≡ None
        → is_refused_early s (heard_event server.old.tables.config.users L s event.entry) ≡ true → HasMemory result }
{
    unmade_law();
    let t = &server.tables;
    match hear(t.alloc, &t.config.users, &t.sessions, event) {
        Ok(asked) => answer_asked(server, &asked, now),
        Err(_) => Err(EventError::Memory),
    }
}

// An event as the server took it in: in front of it an open may expire.
fn answer_asked<D: Disk>(
    server: &mut ServerState<D>,
    asked: &Asked<'_>,
    now: u64,
) -> Result<Answer, EventError>
    ensures step { (base : List SnapshotPiece) (users : Users) (s : model.Server) (L : Logons) (records : List model.Record)
        (e : ServerEvent)
        → ExpiryAsks D.told D.seen D.may_leave base server.old users s L records now e asked.now
        → EventAnswers D.told D.seen D.may_leave base D.faults server.old server.new users s L records now e result }
    ensures any_moment { D.told
        → (base : List SnapshotPiece) (users : Users) (s : model.Server) (L : Logons) (records : List model.Record) (bodies : List
        (List ℕ)) (e : ServerEvent)
        → ExpiryAsks D.told D.seen D.may_leave base server.old users s L records now e asked.now
        → JournaledGoesOn D.seen D.may_leave base server.old s records bodies
        → LeavesOnly D.moment D.left_since server.old.journal.disk server.new.journal.disk
        (EventLeavesBodies s now (heard_event users L s e) bodies) }
    ensures config { server.new.tables.config ≡ server.old.tables.config }
    ensures early { (s : model.Server) → Fits s → TablesShown server.old.tables s → due (with_deadlines s now) now ≡ None
        → is_refused_early s (event_of asked.now) ≡ true → HasMemory result }
{
    expiring_law();
    match due(&mut server.tables.opens, now) {
        Some(id) => expire_first(server, asked, now, id),
        None => event_alone(server, asked, now),
    }
}

// An open is due, and may expire in front of the event.
fn expire_first<D: Disk>(
    server: &mut ServerState<D>,
    asked: &Asked<'_>,
    now: u64,
    id: u64,
) -> Result<Answer, EventError>
    ensures step { (base : List SnapshotPiece) (users : Users) (s : model.Server) (L : Logons) (records : List model.Record)
        (e : ServerEvent)
        → ExpiryAsks D.told D.seen D.may_leave base server.old users s L records now e asked.now → MayExpire s now id
        → EventAnswers D.told D.seen D.may_leave base D.faults server.old server.new users s L records now e result }
    ensures any_moment { D.told
        → (base : List SnapshotPiece) (users : Users) (s : model.Server) (L : Logons) (records : List model.Record) (bodies : List
        (List ℕ)) (e : ServerEvent)
        → ExpiryAsks D.told D.seen D.may_leave base server.old users s L records now e asked.now → MayExpire s now id
        → JournaledGoesOn D.seen D.may_leave base server.old s records bodies
        → LeavesOnly D.moment D.left_since server.old.journal.disk server.new.journal.disk
        (EventLeavesBodies s now (heard_event users L s e) bodies) }
    ensures config { server.new.tables.config ≡ server.old.tables.config }
{
    match event_behind_expiry(server, asked, now, id) {
        Ok(Behind::Answered { answer }) => Ok(answer),
        Ok(Behind::NoneExpires) => event_alone(server, asked, now),
        Err(error) => Err(error),
    }
}
