ghost use Rattle.std.specs.Prelude.{◌≡◌, ◌&&◌, false, is_some, not, true, IfOk, IsOk};
ghost use Rattle.wire_commands.specs.values.Meaning.{command_of, message_of};
ghost use Rattle.spec_exchange.specs.CheckOpen.{file_of};
ghost use Rattle.spec_exchange.specs.Effects.{apply, change_records, end_records, leave_all_records, opens_of_tree, records_if_named};
ghost use Rattle.spec_exchange.specs.Opens.{leave_records};
ghost use Rattle.spec_exchange.specs.Records.{origin_of};
ghost use Rattle.spec_exchange.specs.State.{Server};
ghost use Rattle.store_files.specs.file_tree.Shown.{ShowsFiles};
ghost use Rattle.journal_bytes.specs.record_bytes.Meaning.{records_of};
ghost use Rattle.store_opens.specs.open_table.Shown.{ShowsOpens};
ghost use Rattle.law_server.specs.tables.Fits.{Fits};
ghost use Rattle.server_plan.specs.owed_records.Owing.{Owing, may_owe};
ghost use Rattle.server_checks.specs.verdicts.Views.{change_of, verdict_of};
ghost use Rattle.server_checks.specs.session_table.Shown.{ShowsSessions};

use crate::owed_records::change::change_records;
use crate::owed_records::create::create_records;
use crate::owed_records::lock::{granted_records, lock_records};
use crate::owed_records::records::{no_record, origin_of};
use journal_bytes::Records;
use server_checks::session_table::Sessions;
use server_checks::{Change, Verdict};
use server_effects::{Leaving, end_in, leave_each, leave_in};
use std::alloc::{AllocError, Global};
use store_files::Tree;
use store_opens::Opens;
use wire_commands::Message;

/// The records of a verdict on a message that is carried out at `now` (100 ns since 1601).
///
/// # Errors
///
/// Memory ran out, which it can't for a verdict that owes none: a refusal, an answer that changes no file and no persistent
/// open, a session that ends quietly.
pub fn owed(
    alloc: Global,
    opens: &Opens,
    tree: &Tree,
    sessions: &Sessions,
    m: &Message<'_>,
    verdict: &Verdict,
    now: u64,
) -> Result<Records, AllocError>
    ensures told { (s : Server) → Fits s → ShowsOpens opens.now s → ShowsFiles tree.now s → ShowsSessions sessions.now s
        → Owing s (message_of m.now) (verdict_of (command_of m.now.command) verdict.now)
        → IfOk result (λ rs. records_of rs ≡ (apply s (message_of m.now) now (verdict_of (command_of m.now.command) verdict.now)).records) }
    ensures sure { may_owe (verdict_of (command_of m.now.command) verdict.now) ≡ false → IsOk result }
{
    // An arm for each verdict that owes records. They are told before it is carried out, since the journal comes
    // first.
    match verdict {
        Verdict::Make { found, action } => {
            create_records(alloc, opens, tree, sessions, m, *found, *action, now)
        }
        Verdict::KeepSlot {
            id,
            index,
            number,
            status,
        } => lock_records(alloc, opens, m, *id, *index, *number, *status),
        Verdict::PutRanges {
            id,
            index,
            number,
            ..
        } => granted_records(alloc, opens, m, *id, *index, *number),
        Verdict::Alter { id, change, .. } => altered_records(alloc, opens, m, *id, change, now),
        Verdict::CloseOpen { id, .. } => leaving_records(alloc, opens, tree, m, *id),
        Verdict::Begin {
            previous,
            quiet,
            ..
        } => end_if_named(alloc, opens, tree, m, *previous, *quiet),
        Verdict::EndSession { session, quiet } => {
            end_records(alloc, opens, tree, m, *session, *quiet)
        }
        Verdict::DropTree => tree_records(alloc, opens, tree, m),
        _ => Ok(no_record(alloc)),
    }
}

// The records of a change of an open's file.
fn altered_records(
    alloc: Global,
    opens: &Opens,
    m: &Message<'_>,
    id: u64,
    change: &Change,
    now: u64,
) -> Result<Records, AllocError>
    ensures { (s : Server) → ShowsOpens opens.now s → s.standing id ≡ true
        → IfOk result (λ rs. records_of rs
        ≡ change_records (message_of m.now) (file_of s id) now (change_of (command_of m.now.command) change.now)) }
{
    let file = opens.file_of(id);
    change_records(alloc, m, file, change, now)
}

// The records of one open that leaves.
fn leaving_records(
    alloc: Global,
    opens: &Opens,
    tree: &Tree,
    m: &Message<'_>,
    id: u64,
) -> Result<Records, AllocError>
    ensures { (s : Server) → Fits s → ShowsOpens opens.now s → ShowsFiles tree.now s → s.standing id ≡ true
        → IfOk result (λ rs. records_of rs ≡ leave_records s (origin_of (message_of m.now)) id) }
{
    let origin = origin_of(m);
    let mut records = Records::new(alloc);
    let mut leaving = Leaving::new(alloc);
    leave_in(opens, tree, &mut leaving, &mut records, origin, id)?;
    Ok(records)
}

// The records of a tree's opens, which are closed with it.
fn tree_records(
    alloc: Global,
    opens: &Opens,
    tree: &Tree,
    m: &Message<'_>,
) -> Result<Records, AllocError>
    ensures { (s : Server) → Fits s → ShowsOpens opens.now s → ShowsFiles tree.now s
        → IfOk result (λ rs. records_of rs
        ≡ leave_all_records s (origin_of (message_of m.now)) (opens_of_tree s m.now.session_id m.now.tree_id)) }
{
    let ids = opens.opens_of_tree(m.session_id, m.tree_id)?;
    let origin = origin_of(m);
    let mut records = Records::new(alloc);
    let mut leaving = Leaving::new(alloc);
    leave_each(
        opens,
        tree,
        &mut leaving,
        &mut records,
        origin,
        ids.as_slice(),
    )?;
    Ok(records)
}

// The records of a session that ends, where one is named and its records fit.
fn end_if_named(
    alloc: Global,
    opens: &Opens,
    tree: &Tree,
    m: &Message<'_>,
    session: Option<u64>,
    quiet: bool,
) -> Result<Records, AllocError>
    ensures told { (s : Server) → Fits s → ShowsOpens opens.now s → ShowsFiles tree.now s
        → IfOk result (λ rs. records_of rs ≡ records_if_named s (origin_of (message_of m.now)) session quiet) }
    ensures sure { (is_some session && not quiet) ≡ false → IsOk result }
{
    match session {
        Some(session) => end_records(alloc, opens, tree, m, session, quiet),
        None => Ok(no_record(alloc)),
    }
}

fn end_records(
    alloc: Global,
    opens: &Opens,
    tree: &Tree,
    m: &Message<'_>,
    session: u64,
    quiet: bool,
) -> Result<Records, AllocError>
    ensures told { (s : Server) → Fits s → ShowsOpens opens.now s → ShowsFiles tree.now s
        → IfOk result (λ rs. records_of rs ≡ end_records s (origin_of (message_of m.now)) session quiet) }
    ensures sure { not quiet ≡ false → IsOk result }
{
    if quiet {
        return Ok(no_record(alloc));
    }
    let origin = origin_of(m);
    let mut records = Records::new(alloc);
    let mut leaving = Leaving::new(alloc);
    end_in(opens, tree, &mut leaving, &mut records, origin, session)?;
    Ok(records)
}
