//! What is read, what is written down, and what comes of both.
ghost use Rattle.std.specs.Prelude.{◌≡◌, ℕ, List, IfErr, IfOk, None, true};
ghost use Rattle.spec_exchange.specs.Fold.{fold_from, opening_records};
ghost use Rattle.spec_exchange.specs.State as model;
ghost use Rattle.spec_journal.specs.Forms.{StandsFor};
ghost use Rattle.spec_wire.specs.journal.Moments.{LeavesOnly, Quiet};
ghost use Rattle.journal_bytes.specs.record_bytes.Meaning.{records_of};
ghost use Rattle.journal_bytes.specs.declared.record_bytes.value.Record.{Record};
ghost use Rattle.journal.specs.disk_journal.Journal.{BeforeOrAfter, JournalState, JournalSettled};
ghost use Rattle.journal_bytes.specs.record_bodies.Body.{IsBody};
ghost use Rattle.server_core.specs.durable_state.Durable.{DurableShown};
ghost use Rattle.law_server.specs.tables.Fits.{Fits};
ghost use Rattle.server_core.specs.restart_tables.Found.{Found, IsOf};
ghost use Rattle.server_core.specs.restart_tables.Restart.{BeginAnswers, RestartLeaves, ServerRestarts, StandsBegun, StartRefused};
ghost use Rattle.server_core.specs.restart_tables.Restart.{UnlessFailed};

use crate::durable_state::Durable;
use crate::epoch::{behind, epoch_records};
use crate::folding::fold_bodies;
use crate::restart_tables::tables::tables_of;
use base_outside::Disk;
use journal::{Journal, JournalError, RefusedStart, broken_means_nothing};
use journal_bytes::spelled;
use server_checks::{Config, Tables};
use std::alloc::{AllocError, Global};
use wire_bytes::Bytes;

/// A server on a disk that a crash may have left: what the journal's records stand for, under the next epoch, which goes into the
/// journal, in one of version 1 behind the record of version 2. It reads body by body, and writes where all memory is at hand.
///
/// `NotAJournal` has the place where the bytes are no journal, or the gate of the first body that no server writes: it is no list
/// of records, or one of them makes an open that deletes the root on close; `Full` what the journal would use with the epoch, and
/// its limit; `DiskFault` the count of faults, which rose; `Memory` may come before and behind each read. Where it refuses, it
/// hands back the disk, which stands for what it stood for.
pub fn restart<D: Disk>(
    alloc: Global,
    disk: D,
    config: Config,
) -> Result<(Journal<D>, Tables), RefusedStart<D>>
    ensures answers { IfOk result (λ r. ServerRestarts D.told D.seen D.may_leave D.faults config disk r.0 r.1) }
    ensures refused { IfErr result (λ r. StartRefused D.told D.seen D.may_leave D.moment D.left_since D.faults disk r.disk r.cause) }
    ensures any_moment { IfOk result (λ r. D.told → (all : List (List ℕ)) → StandsFor (D.seen disk) all
        → LeavesOnly D.moment D.left_since disk r.0.disk (RestartLeaves (D.may_leave disk) all)) }
    ensures config { IfOk result (λ r. r.1.config ≡ config) }
{
    broken_means_nothing();
    match Journal::recover(alloc, disk) {
        Ok(mut journal) => match begin(alloc, &mut journal, config) {
            Ok(tables) => Ok((journal, tables)),
            Err(cause) => Err(RefusedStart {
                cause,
                disk: journal.stop(),
            }),
        },
        Err(refused) => Err(refused),
    }
}

/// The tables of a server on a journal that was just recovered of a disk; the next epoch goes into the journal, in one of version
/// 1 behind the record of version 2. Whatever it answers, a crash at any moment of it leaves what it could leave before, or bytes
/// that stand for the bodies of the journal, or for these and the one with the epoch; and such bytes a read gives then. Where it
/// refuses with another cause than `DiskFault`, nothing was written.
///
/// Errors as those of `restart`; with `DiskFault` the journal has stopped.
pub fn begin<D: Disk>(
    alloc: Global,
    journal: &mut Journal<D>,
    config: Config,
) -> Result<Tables, JournalError>
    requires { (journal.old.stopped ≡ None) × (journal.old.taken ≡ 0) }
    ensures answers { (disk : D) → IsOf D.told D.seen D.may_leave D.faults disk journal.old
        → BeginAnswers D.told D.seen D.may_leave D.faults config disk journal.new result }
    ensures any_moment { D.told → (all : List (List ℕ)) → JournalSettled D.seen D.may_leave journal.old all
        → LeavesOnly D.moment D.left_since journal.old.disk journal.new.disk (RestartLeaves (D.may_leave journal.old.disk) all) }
    ensures stays { D.told → (all : List (List ℕ)) → JournalSettled D.seen D.may_leave journal.old all
        → StandsBegun all (D.seen journal.new.disk) }
    ensures unwritten { IfErr result (λ x. UnlessFailed x
        (Quiet D.told D.seen D.may_leave D.moment D.left_since journal.old.disk journal.new.disk)) }
    ensures config { IfOk result (λ t. t.config ≡ config) }
{
    let mut state = Durable::new(alloc);
    match fold_bodies(journal, &mut state) {
        Ok(()) => match opened(alloc, &mut state) {
            Ok(body) => write(alloc, journal, state, &body, config),
            Err(_) => Err(JournalError::Memory),
        },
        Err(error) => Err(error),
    }
}

// The body of the records that a recovery adds, which the state then follows.
fn opened(alloc: Global, state: &mut Durable) -> Result<Bytes, AllocError>
    ensures { IfOk result (λ body. (s : model.Server) → Fits s → DurableShown state.old s → (rs : List Record) × IsBody body rs
        × (records_of rs ≡ opening_records s) × DurableShown state.new (fold_from s (opening_records s))) }
{
    let mut records = epoch_records(state)?;
    let count = records.len();
    // All of it before the write, so that nothing takes memory after it.
    state.with_records(records.as_slice())?;
    // Behind the epoch: what went with it has no mark to lose.
    state.push_marks(&mut records)?;
    state.with_records(behind(records.as_slice(), count))?;
    spelled(alloc, &records)
}

// Puts them onto the disk. Then the tables are those of the state.
fn write<D: Disk>(
    alloc: Global,
    journal: &mut Journal<D>,
    state: Durable,
    body: &Bytes,
    config: Config,
) -> Result<Tables, JournalError>
    ensures answers { (disk : D) (first : JournalState D) → IsOf D.told D.seen D.may_leave D.faults disk first
        → Found D.told D.seen D.may_leave D.faults first journal.old state body.now
        → BeginAnswers D.told D.seen D.may_leave D.faults config disk journal.new result }
    ensures any_moment { D.told → (all : List (List ℕ)) → JournalSettled D.seen D.may_leave journal.old all
        → LeavesOnly D.moment D.left_since journal.old.disk journal.new.disk (BeforeOrAfter all body.now) }
    ensures stays { D.told → (all : List (List ℕ)) → JournalSettled D.seen D.may_leave journal.old all
        → BeforeOrAfter all body.now (D.seen journal.new.disk) }
    ensures unwritten { IfErr result (λ x. UnlessFailed x (journal.new.disk ≡ journal.old.disk)) }
    ensures config { IfOk result (λ t. t.config ≡ config) }
{
    match journal.append(body.as_slice(), true) {
        Ok(_number) => {
            let used = journal.used();
            Ok(tables_of(alloc, state, config, used))
        }
        Err(error) => Err(error),
    }
}
