// What a row tells of a client, put behind a text.
use crate::client_scripts::played::{Plays, Script};
use client_tables::Table;
use client_values::{Outcome, Why};
use std::alloc::AllocError;
use std::fmt::Write;
use wire_bytes::Refusal;

/// How each operation settled of which nothing was told yet.
pub fn push_news<P: Plays>(said: &mut String, script: &mut Script<P>) -> Result<(), AllocError> {
    for place in 0..script.played.table().ops.len() {
        let settled = is_settled(script.played.table(), place);
        if script.is_news(place, settled)? {
            said.push_str("; ")?;
            push_outcome(said, script.played.table(), place)?;
        }
    }
    Ok(())
}

fn is_settled(table: &Table, place: usize) -> bool {
    match table.rows.get(place.saturating_add(1)) {
        Some(row) => !row.unsettled,
        None => false,
    }
}

// An operation's number, and how it settled.
fn push_outcome(said: &mut String, table: &Table, place: usize) -> Result<(), AllocError> {
    write!(said, "{} ", place.saturating_add(1))?;
    match table.settled.get(place) {
        Some(outcome) if is_settled(table, place) => push_settled(said, outcome),
        _ => said.push_str("unsettled"),
    }
}

fn push_settled(said: &mut String, outcome: &Outcome) -> Result<(), AllocError> {
    match outcome {
        Outcome::Done => said.push_str("ok"),
        Outcome::Action(action) => write!(said, "ok {action}"),
        Outcome::Count(count) => write!(said, "ok {count}"),
        Outcome::Length(length) => write!(said, "ok {length}"),
        Outcome::Content(bytes) => {
            said.push_str("ok ")?;
            crate::words::push_digits(said, bytes.as_slice())
        }
        Outcome::Names(names) => {
            said.push_str("ok")?;
            for name in names.as_slice() {
                write!(said, " {}", name.as_str())?;
            }
            Ok(())
        }
        Outcome::Refused(status) => write!(said, "refused {status:08x}"),
        Outcome::NoSlot(create) => write!(said, "noslot {create}"),
        Outcome::NoOpen(create) => write!(said, "noopen {create}"),
        Outcome::Unknown(why) => push_why(said, why),
    }
}

fn push_why(said: &mut String, why: &Why) -> Result<(), AllocError> {
    match why {
        Why::SessionLost(number) => write!(said, "unknown session-lost {number}"),
        Why::Status(status) => write!(said, "unknown status {status:08x}"),
        Why::NoSession(refusal) => {
            said.push_str("unknown no-session ")?;
            push_refusal(said, refusal)
        }
        Why::GaveUp(tries) => write!(said, "unknown gave-up {tries}"),
        Why::Ended => said.push_str("unknown ended"),
    }
}

fn push_refusal(said: &mut String, refusal: &Refusal) -> Result<(), AllocError> {
    match refusal {
        Refusal::BadChoice(_) => said.push_str("bad-choice"),
        Refusal::BadToken => said.push_str("bad-token"),
        Refusal::BadSignature => said.push_str("bad-signature"),
        Refusal::Status(status) => write!(said, "status {status:08x}"),
        Refusal::NoSha512 => said.push_str("no-sha512"),
    }
}

/// All that stands at the end of a script: how each operation settled, what is outstanding, on which channel, those that a reply settled,
/// the session and the refused dialogs. A list that is empty is `-`.
pub fn push_all(said: &mut String, table: &Table) -> Result<(), AllocError> {
    if table.ops.len() == 0 {
        said.push_str("-")?;
    }
    let mut between = "";
    for place in 0..table.ops.len() {
        said.push_str(between)?;
        push_outcome(said, table, place)?;
        between = ", ";
    }
    push_outstanding(said, table)?;
    push_order(said, table.order.as_slice())?;
    push_session(said, table)
}

fn push_outstanding(said: &mut String, table: &Table) -> Result<(), AllocError> {
    said.push_str("; out ")?;
    let mut between = "";
    for place in 1..=table.ops.len() {
        if let Some(row) = table.rows.get(place)
            && let Some(channel) = row.outstanding_on
        {
            let asks = if row.asking { " asks" } else { "" };
            write!(said, "{between}{place}{asks} on {channel}")?;
            between = ", ";
        }
    }
    said.push_str(if between.is_empty() { "-" } else { "" })
}

fn push_order(said: &mut String, order: &[u32]) -> Result<(), AllocError> {
    said.push_str("; order")?;
    for number in order {
        write!(said, " {number}")?;
    }
    said.push_str(if order.is_empty() { " -" } else { "" })
}

fn push_session(said: &mut String, table: &Table) -> Result<(), AllocError> {
    let session = &table.session;
    if session.is_live() {
        write!(said, "; session {} {}", session.number(), session.id())?;
        write!(said, " tree {}", session.tree())?;
        write!(said, " sequence {} ready", session.sequence())?;
        for channel in 0..256u32 {
            if session.is_ready(channel) {
                write!(said, " {channel}")?;
            }
        }
    } else {
        said.push_str("; no session")?;
    }
    for dialog in table.dialogs.as_slice() {
        write!(said, "; dialog {} ", dialog.connection)?;
        push_refusal(said, &dialog.refusal)?;
    }
    Ok(())
}
