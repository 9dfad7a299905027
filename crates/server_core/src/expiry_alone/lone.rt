//! An open that expired in front of an event that then found no memory or no room.
ghost use Rattle.std.specs.Prelude.{◌≡◌, ◌++◌, ℕ, None, true};
ghost use Rattle.std.specs.Prelude.{List, MatchResult, OnOk, ⊤};
ghost use Rattle.spec_exchange.specs.State as model;
ghost use Rattle.spec_exchange.specs.Step.{expire};
ghost use Rattle.spec_wire.specs.journal.Moments.{LeavesOnly};
ghost use Rattle.store_opens.specs.open_table.Shown.{HasOpensRoom};
ghost use Rattle.journal.specs.disk_journal.Journal.{JournalSettled};
ghost use Rattle.journal_bytes.specs.record_bodies.Body.{bodies_of};
ghost use Rattle.server_checks.specs.Shown.{TablesShown};
ghost use Rattle.server_checks.specs.declared.setups.error.EventError.TheVariants.{Memory};
ghost use Rattle.server_effects.specs.expiry.Expired.{IsExpired};
ghost use Rattle.server_core.specs.journaled_tables.Rooms.{HasRoomToWrite};
ghost use Rattle.law_server.specs.tables.Fits.{Fits};
ghost use Rattle.server_core.specs.journaled_tables.Alone.{AloneShown, written_as};
ghost use Rattle.server_core.specs.recording.Writes.{WritesBut};
ghost use Rattle.server_core.specs.body_writing.Bodies.{LeavesOf};

use crate::body_writing::used_behind;
use crate::journaled_tables::ServerState;
use crate::recording::write;
use base_outside::Disk;
use law_records::{carried_law, dated_law};
use server_checks::EventError;
use server_effects::{Expired, put_back};
use store_opens::Taken;

/// The open comes back. Where there is no memory for it, the expiry stands alone: its body, for which there is room, goes onto
/// the disk.
///
/// # Errors
///
/// `Memory`: the expiry stands alone. `DiskFault`: so it does in the tables, but the disk failed, and the server stops.
pub fn take_back<D: Disk>(
    server: &mut ServerState<D>,
    expired: Expired,
    front: &[u8],
    now: u64,
) -> Result<(), EventError>
    requires { HasOpensRoom server.old.tables.opens × HasRoomToWrite server.old front.now }
    ensures shown { (s : model.Server) (o : ℕ) → Fits s → s.standing o ≡ true → s.session_of_open o ≡ None
        → IsExpired server.old.tables.opens expired s o → TablesShown server.old.tables (expire s o)
        → MatchResult result (λ _. TablesShown server.new.tables s) (λ x. AloneShown s now o front.now x server.new) }
    ensures back { OnOk result ((server.new.journal ≡ server.old.journal) × (server.new.stopped ≡ server.old.stopped)) }
    ensures writes { MatchResult result (λ _. ⊤) (λ x. WritesBut D.faults server.old front.now (written_as x) server.new) }
    ensures acknowledged { D.told → (bodies : List (List ℕ)) → JournalSettled D.seen D.may_leave server.old.journal bodies
        → MatchResult result (λ _. ⊤) (λ x. x ≡ Memory
        → JournalSettled D.seen D.may_leave server.new.journal (bodies ++ bodies_of front.now)) }
    ensures any_moment { D.told → (bodies : List (List ℕ)) → JournalSettled D.seen D.may_leave server.old.journal bodies
        → LeavesOnly D.moment D.left_since server.old.journal.disk server.new.journal.disk (LeavesOf bodies front.now) }
    ensures sessions { server.new.tables.sessions ≡ server.old.tables.sessions }
    ensures config { server.new.tables.config ≡ server.old.tables.config }
{
    match put_back(&mut server.tables.opens, &mut server.tables.tree, expired) {
        Ok(()) => Ok(()),
        Err(taken) => Err(expire_alone(server, taken, front, now)),
    }
}

// There is no memory for the event, nor to take the expiry back: it stands alone, in a body for which there is room.
fn expire_alone<D: Disk>(
    server: &mut ServerState<D>,
    taken: Taken,
    front: &[u8],
    now: u64,
) -> EventError
    requires { HasRoomToWrite server.old front.now }
    ensures shown { (s : model.Server) (o : ℕ) → TablesShown server.old.tables (expire s o) → s.session_of_open o ≡ None
        → taken.id ≡ o → AloneShown s now o front.now result server.new }
    ensures writes { WritesBut D.faults server.old front.now (written_as result) server.new }
    ensures acknowledged { D.told → (bodies : List (List ℕ)) → JournalSettled D.seen D.may_leave server.old.journal bodies
        → result ≡ Memory → JournalSettled D.seen D.may_leave server.new.journal (bodies ++ bodies_of front.now) }
    ensures any_moment { D.told → (bodies : List (List ℕ)) → JournalSettled D.seen D.may_leave server.old.journal bodies
        → LeavesOnly D.moment D.left_since server.old.journal.disk server.new.journal.disk (LeavesOf bodies front.now) }
    ensures sessions { server.new.tables.sessions ≡ server.old.tables.sessions }
    ensures config { server.new.tables.config ≡ server.old.tables.config }
{
    carried_law();
    dated_law();
    let used = used_behind(server.tables.journal, front.len());
    let written = write(server, front);
    server.tables.opens.give_up(taken);
    server.tables.opens.date(now);
    match written {
        Ok(()) => {
            server.tables.journal = used;
            EventError::Memory
        }
        Err(error) => error,
    }
}
