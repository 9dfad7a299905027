//! Connections that are lost one behind the other, where the server stops.
ghost use Rattle.std.specs.Prelude.{◌≡◌, ◌<◌, ◌≤◌, ◌+◌, ℕ, IfOk, OnOk, Some, drop, false, length, slice_index, take};
ghost use Rattle.spec_exchange.specs.Records.{origin_at};
ghost use Rattle.spec_exchange.specs.State.{Server};
ghost use Rattle.spec_exchange.specs.Step.{take_all_out, take_all_records};
ghost use Rattle.spec_exchange.specs.Table.{has};
ghost use Rattle.store_files.specs.file_tree.Shown.{ShowsFiles};
ghost use Rattle.journal_bytes.specs.record_bytes.Meaning.{records_of};
ghost use Rattle.law_records.specs.leaving_opens.Out.{channel_left, channels_left, ends_left, last_left};
ghost use Rattle.store_opens.specs.open_table.Shown.{ShowsOpens};
ghost use Rattle.law_server.specs.tables.Fits.{Fits};
ghost use Rattle.server_effects.specs.leaving_opens.Left.{HasLeft};
ghost use Rattle.server_checks.specs.session_table.Shown.{ShowsSessions};

use crate::leaving_opens::leaving::Leaving;
use crate::leaving_opens::records::end_in;
use journal_bytes::{Origin, Records};
use server_checks::session_table::Sessions;
use std::alloc::{AllocError, Global};
use store_files::Tree;
use store_opens::Opens;

/// The records of all connections that are lost one behind the other, and of the sessions that end with them.
pub fn all_end_records(
    alloc: Global,
    opens: &Opens,
    tree: &Tree,
    sessions: &Sessions,
) -> Result<Records, AllocError>
    ensures { (now : ℕ) (s : Server) → Fits s → ShowsOpens opens.now s → ShowsFiles tree.now s → ShowsSessions sessions.now s
        → IfOk result (λ rs. records_of rs ≡ take_all_records s s.connections now false) }
{
    let mut records = Records::new(alloc);
    let mut leaving = Leaving::new(alloc);
    let connections = sessions.connections();
    // Into one list in the order in which they end, so that all of a stop's records stand or none.
    for i in 0..connections.len() {
        let session = ends_behind(sessions, connections, i);
        end_with(opens, tree, &mut leaving, &mut records, session)?;
    }
    Ok(records)
}

// The records of the session, where there is one, that ends with the next connection behind those that are lost.
fn end_with(
    opens: &Opens,
    tree: &Tree,
    leaving: &mut Leaving,
    records: &mut Records,
    session: Option<u64>,
) -> Result<(), AllocError>
    ensures { (s : Server) (now i : ℕ) → Fits s → ShowsOpens opens.now s → ShowsFiles tree.now s → i < length s.connections
        → session ≡ ends_left s (take i s.connections) (slice_index s.connections i) (drop (i + 1) s.connections)
        → HasLeft leaving.old s (take_all_out s (take i s.connections) now false)
        → records_of records.old ≡ take_all_records s (take i s.connections) now false
        → OnOk result (HasLeft leaving.new s (take_all_out s (take (i + 1) s.connections) now false)
        × (records_of records.new ≡ take_all_records s (take (i + 1) s.connections) now false)) }
{
    match session {
        Some(session) => end_in(opens, tree, leaving, records, no_message(), session),
        None => Ok(()),
    }
}

// No message caused it, and no connection.
fn no_message() -> Origin
    ensures { result ≡ origin_at 0 }
{
    Origin {
        session: 0,
        connection: 0,
        message: 0,
    }
}

// The session that ends with a connection, where those in front of it in the list are lost.
fn ends_behind(sessions: &Sessions, connections: &[u32], i: usize) -> Option<u64>
    requires { i < length connections.now }
    ensures { (s : Server) → ShowsSessions sessions.now s
        → result ≡ ends_left s (take i connections.now) (slice_index connections.now i) (drop (i + 1) connections.now) }
{
    let connection = connections[i];
    if is_among(&connections[..i], connection) {
        return None;
    }
    match sessions.on(connection) {
        Some(session) => last_of(sessions, &connections[..i], &connections[i..], session),
        None => None,
    }
}

// The session, where it has one channel at most on those of the connections that aren't lost.
fn last_of(sessions: &Sessions, lost: &[u32], connections: &[u32], session: u64) -> Option<u64>
    ensures { (s : Server) → ShowsSessions sessions.now s → result ≡ last_left s lost.now connections.now (Some session) }
{
    if channels_left(sessions, lost, connections, session) <= 1 {
        Some(session)
    } else {
        None
    }
}

fn channels_left(sessions: &Sessions, lost: &[u32], connections: &[u32], session: u64) -> usize
    ensures { (s : Server) → ShowsSessions sessions.now s → result ≡ channels_left s.session_on lost.now connections.now session }
{
    let mut count = 0;
    for connection in connections {
        count += channel_left(sessions, lost, *connection, session);
    }
    count
}

fn channel_left(sessions: &Sessions, lost: &[u32], connection: u32, session: u64) -> usize
    ensures few { result ≤ 1 }
    ensures counted { (s : Server) → ShowsSessions sessions.now s
        → result ≡ channel_left (has connection lost.now) session (s.session_on connection) }
{
    if is_among(lost, connection) {
        return 0;
    }
    if sessions.is_on(session, connection) {
        1
    } else {
        0
    }
}

fn is_among(connections: &[u32], connection: u32) -> bool
    ensures { result ≡ has connection connections.now }
{
    for one in connections {
        if *one == connection {
            return true;
        }
    }
    false
}
