//! Body by body, one in memory.
ghost use Rattle.std.specs.Prelude.{◌≡◌, ℕ, List, true, false, IfErr, IfOk, MatchResult, None, OnOk, ⊤};
ghost use Rattle.spec_exchange.specs.State as model;
ghost use Rattle.law_snapshots.specs.snapshots.Pieces.{SnapshotPiece};
ghost use Rattle.spec_wire.specs.journal.Moments.{Quiet};
ghost use Rattle.journal_bytes.specs.record_bytes.Grammar.{SpellsRecords};
ghost use Rattle.journal_bytes.specs.record_bytes.Meaning.{opened, record_of, records_of};
ghost use Rattle.journal.specs.disk_journal.Journal.{JournalSettled};
ghost use Rattle.server_core.specs.durable_state.Durable.{DurableShown};
ghost use Rattle.law_server.specs.tables.Fits.{Fits, all_sound, is_sound, keeps_root};
ghost use Rattle.server_core.specs.Reading.{AppliedBy, BodyCause, BodyRefused, FoldRefused, FoldedBy, HandedOut};
ghost use Rattle.server_core.specs.Reading.{IsNothing, IsReadOver, PiecedBy, PiecesRefused, ReadRefused, RecordsRefused};
ghost use Rattle.server_core.specs.Reading.{begins_pieces, cause_of, piece_cause_of};

use crate::durable_state::Durable;
use base_outside::Disk;
use journal::{Journal, JournalError};
use journal_bytes::{NewOpen, PieceError, Record, RecordError, Records, read_pieces, read_records};
use law_snapshots::piece_fits_law;
use server_checks::deletes_on_close;
use wire_bytes::Bytes;

// The first kind of a piece; those of records are below.
const FIRST_PIECE: u8 = 64;

/// Applies each body of a journal that was just recovered: a snapshot, if there is one, and the records behind it. `NotAJournal` has the
/// gate of the first body that no server writes: it is no list of records, or one of them makes an open that deletes the root on close;
/// or it begins as pieces do, and stands behind records, is no list of pieces, or has one that no snapshot has there. Where it is refused
/// the state is no longer to be used: a part of the bodies may have been applied.
pub fn fold_bodies<D: Disk>(
    journal: &mut Journal<D>,
    state: &mut Durable,
) -> Result<(), JournalError>
    requires { (journal.old.stopped ≡ None) × (journal.old.taken ≡ 0) }
    ensures read { IfOk result (λ _. (journal.new.stopped ≡ None) × (D.faults journal.new.disk ≡ D.faults journal.old.disk)
        × (journal.new.used ≡ journal.old.used)) }
    ensures folded { (s : model.Server) → IsNothing s → DurableShown state.old s
        → IfOk result (λ _. (bodies : List (List ℕ)) × (base : List SnapshotPiece) × (records : List model.Record)
        × IsReadOver state.new base bodies records × HandedOut D.told D.seen D.may_leave journal.old bodies) }
    ensures stays { D.told → (bodies : List (List ℕ)) → JournalSettled D.seen D.may_leave journal.old bodies
        → OnOk result (JournalSettled D.seen D.may_leave journal.new bodies) }
    ensures refused { D.told → (s : model.Server) → IsNothing s → DurableShown state.old s → (bodies : List (List ℕ))
        → JournalSettled D.seen D.may_leave journal.old bodies → IfErr result (λ x. FoldRefused journal.old.form bodies x) }
    ensures quiet { Quiet D.told D.seen D.may_leave D.moment D.left_since journal.old.disk journal.new.disk }
    ensures cause { MatchResult result (λ _. ⊤) (λ x. ReadRefused D.faults journal.old.disk x journal.new) }
{
    let mut behind = false;
    loop {
        let gate = journal.next_gate();
        match journal.next_body() {
            Ok(Some(body)) => match fold_body(state, &body, gate, behind) {
                Ok(records) => behind = records,
                Err(error) => return Err(error),
            },
            Ok(None) => return Ok(()),
            Err(error) => return Err(error),
        }
    }
}

// Applies a body whose gate stands there, behind records or not. It tells whether the body has records.
fn fold_body(
    state: &mut Durable,
    body: &Bytes,
    gate: u64,
    behind: bool,
) -> Result<bool, JournalError>
    ensures applied { (s : model.Server) → Fits s → DurableShown state.old s → MatchResult result
        (λ b. AppliedBy state.new s body.now behind b) (λ x. BodyRefused behind s body.now x) }
    ensures cause { IfErr result (λ x. BodyCause gate x) }
{
    let has_pieces = begins_pieces(body.as_slice());
    if has_pieces {
        fold_pieces(state, body, gate, behind)
    } else {
        fold_records(state, body, gate)
    }
}

// A body tells by its first byte what it has.
fn begins_pieces(body: &[u8]) -> bool
    ensures { result ≡ begins_pieces body.now }
{
    match body.first() {
        Some(kind) => *kind >= FIRST_PIECE,
        None => false,
    }
}

// Applies a body of pieces whose gate stands there, where it doesn't stand behind records.
fn fold_pieces(
    state: &mut Durable,
    body: &Bytes,
    gate: u64,
    behind: bool,
) -> Result<bool, JournalError>
    ensures applied { (s : model.Server) → Fits s → DurableShown state.old s → MatchResult result
        (λ b. (b ≡ false) × PiecedBy state.new s body.now behind) (λ x. PiecesRefused behind s body.now x) }
    ensures cause { IfErr result (λ x. BodyCause gate x) }
{
    piece_fits_law();
    if behind {
        return Err(JournalError::NotAJournal(gate));
    }
    match read_pieces(state.alloc, body.as_slice()) {
        Ok(pieces) => match state.with_pieces(pieces.as_slice()) {
            Ok(true) => Ok(false),
            Ok(false) => Err(JournalError::NotAJournal(gate)),
            Err(_) => Err(JournalError::Memory),
        },
        Err(error) => Err(piece_cause_of(&error, gate)),
    }
}

// What a body that isn't read as pieces is told as.
fn piece_cause_of(error: &PieceError, gate: u64) -> JournalError
    ensures { result ≡ piece_cause_of error.now gate }
{
    match error {
        PieceError::Memory => JournalError::Memory,
        PieceError::BadPiece(_) => JournalError::NotAJournal(gate),
    }
}

// Applies a body of records whose gate stands there.
fn fold_records(state: &mut Durable, body: &Bytes, gate: u64) -> Result<bool, JournalError>
    ensures applied { (s : model.Server) → Fits s → DurableShown state.old s → MatchResult result
        (λ b. (b ≡ true) × FoldedBy state.new s body.now) (λ x. RecordsRefused s.version body.now x) }
    ensures cause { IfErr result (λ x. BodyCause gate x) }
{
    match records_in(state, body, gate) {
        Ok(records) => match state.with_records(records.as_slice()) {
            Ok(()) => Ok(true),
            Err(_) => Err(JournalError::Memory),
        },
        Err(error) => Err(error),
    }
}

// The records of a body whose gate stands there.
fn records_in(state: &Durable, body: &Bytes, gate: u64) -> Result<Records, JournalError>
    ensures read { MatchResult result
        (λ rs. SpellsRecords state.now.version body.now rs × (all_sound (records_of rs) ≡ true))
        (λ x. RecordsRefused state.now.version body.now x) }
    ensures cause { IfErr result (λ x. BodyCause gate x) }
{
    match read_records(state.alloc, body.as_slice(), state.version) {
        Ok(records) => {
            if are_sound(records.as_slice()) {
                Ok(records)
            } else {
                Err(JournalError::NotAJournal(gate))
            }
        }
        Err(error) => Err(cause_of(&error, gate)),
    }
}

// None makes an open that deletes the root on close.
fn are_sound(records: &[Record]) -> bool
    ensures { result ≡ all_sound (records_of records.now) }
{
    for record in records {
        if !is_sound(record) {
            return false;
        }
    }
    true
}

fn is_sound(one: &Record) -> bool
    ensures { result ≡ is_sound (record_of one.now) }
{
    match one {
        // No server writes such a record. A fold that passed it over would narrow a definition below everything else.
        Record::Create { file, opened, .. } => keeps_root(*file, opened),
        _ => true,
    }
}

fn keeps_root(file: u64, new: &Option<NewOpen>) -> bool
    ensures { result ≡ keeps_root file (opened new.now) }
{
    match new {
        Some(new) => !(deletes_on_close(new.options) && file == 0),
        None => true,
    }
}

// What a body that isn't read is told as.
fn cause_of(error: &RecordError, gate: u64) -> JournalError
    ensures { result ≡ cause_of error.now gate }
{
    match error {
        RecordError::Memory => JournalError::Memory,
        RecordError::BadRecord(_) => JournalError::NotAJournal(gate),
    }
}
