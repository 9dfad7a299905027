// The lines of operations.
ghost use Rattle.std.specs.Prelude.{◌≡◌, ◌+◌, ◌<◌, ◌∷◌, ◌++◌, length, drop, map, IfOk, OnOk};
ghost use Rattle.std.specs.List.{flat_map};
ghost use Rattle.std.specs.String.{string_bytes};
ghost use Rattle.client_values.specs.outcomes.Meaning.{outcome_of, why_of};
ghost use Rattle.script_words.specs.outcome_lines.Text as text;

use crate::outcome_lines::dialogs::refusal_text;
use crate::outcome_lines::shown::{bytes_text, status_text};
use client_values::{Outcome, Why};
use std::alloc::{AllocError, Global};
use std::fmt::Write;
use wire_bytes::Text;

/// Adds a line for each operation, of which the first has the number 1.
pub(crate) fn push_outcomes(
    alloc: Global,
    out: &mut String,
    settled: &[Outcome],
) -> Result<(), AllocError>
    ensures { OnOk result (string_bytes out.new ≡ string_bytes out.old ++ text.settled_lines 1 (map outcome_of settled.now)) }
{
    for place in 0..settled.len() {
        let outcome = outcome_at(settled, place);
        push_outcome(alloc, out, place + 1, outcome)?;
    }
    Ok(())
}

// An outcome, with those behind it.
fn outcome_at(settled: &[Outcome], place: usize) -> &Outcome
    requires { place < length settled.now }
    ensures { drop place settled.now ≡ result.now ∷ drop (place + 1) settled.now }
{
    &settled[place]
}

#[tactic(auto, unfolding(crate::specs::outcome_lines::Text::outcome_line))]
fn push_outcome(
    alloc: Global,
    out: &mut String,
    number: usize,
    outcome: &Outcome,
) -> Result<(), AllocError>
    ensures { OnOk result (string_bytes out.new ≡ string_bytes out.old ++ text.outcome_line number (outcome_of outcome.now)) }
{
    let shown = outcome_text(alloc, outcome)?;
    writeln!(out, "{number} {shown}")
}

// A further choice within an arm is a function of its own, because a long literal beside a deep match passes a limit
// of the prover.
fn outcome_text(alloc: Global, outcome: &Outcome) -> Result<String, AllocError>
    ensures { IfOk result (λ shown. string_bytes shown ≡ text.outcome_text (outcome_of outcome.now)) }
{
    match outcome {
        Outcome::Done => String::from_str(alloc, "ok"),
        Outcome::Action(action) => {
            let action = action_text(alloc, *action)?;
            format!(in alloc; "ok {action}")
        }
        Outcome::Count(count) => format!(in alloc; "ok {count}"),
        Outcome::Content(bytes) => {
            let bytes = bytes_text(alloc, bytes.as_slice())?;
            format!(in alloc; "ok {bytes}")
        }
        Outcome::Length(length) => format!(in alloc; "ok {length}"),
        Outcome::Names(names) => {
            let names = names_text(alloc, names.as_slice())?;
            format!(in alloc; "ok {names}")
        }
        Outcome::Refused(status) => {
            let status = status_text(alloc, *status)?;
            format!(in alloc; "refused {status}")
        }
        Outcome::NoSlot(create) => format!(in alloc; "noslot {create}"),
        Outcome::NoOpen(create) => format!(in alloc; "noopen {create}"),
        Outcome::Unknown(why) => {
            let why = why_text(alloc, *why)?;
            format!(in alloc; "unknown {why}")
        }
    }
}

// What a create did (MS-SMB2 2.2.14).
#[tactic(auto, unfolding(crate::specs::outcome_lines::Text::action_text))]
fn action_text(alloc: Global, action: u32) -> Result<String, AllocError>
    ensures { IfOk result (λ shown. string_bytes shown ≡ text.action_text action) }
{
    if action == 0 {
        String::from_str(alloc, "superseded")
    } else if action == 1 {
        String::from_str(alloc, "opened")
    } else if action == 2 {
        String::from_str(alloc, "created")
    } else if action == 3 {
        String::from_str(alloc, "overwritten")
    } else {
        format!(in alloc; "{action}")
    }
}

fn names_text(alloc: Global, names: &[Text]) -> Result<String, AllocError>
    ensures { IfOk result (λ shown. string_bytes shown ≡ text.names_text names.now) }
{
    if names.is_empty() {
        return String::from_str(alloc, "-");
    }
    joined(alloc, names)
}

fn joined(alloc: Global, names: &[Text]) -> Result<String, AllocError>
    ensures { IfOk result (λ shown. string_bytes shown ≡ text.joined_names names.now) }
{
    match names.split_first() {
        Some((first, more)) => with_more(alloc, first, more),
        None => Ok(String::new(alloc)),
    }
}

fn with_more(alloc: Global, first: &Text, more: &[Text]) -> Result<String, AllocError>
    ensures { IfOk result (λ shown. string_bytes shown ≡ first.now ++ flat_map text.behind_slash more.now) }
{
    let mut shown = String::from_str(alloc, first.as_str())?;
    for name in more {
        push_name(&mut shown, name.as_str())?;
    }
    Ok(shown)
}

fn push_name(out: &mut String, name: &str) -> Result<(), AllocError>
    ensures { OnOk result (string_bytes out.new ≡ string_bytes out.old ++ text.behind_slash name.now) }
{
    write!(out, "/{name}")
}

fn why_text(alloc: Global, why: Why) -> Result<String, AllocError>
    ensures { IfOk result (λ shown. string_bytes shown ≡ text.why_text (why_of why)) }
{
    match why {
        Why::SessionLost(session) => format!(in alloc; "session-lost {session}"),
        Why::Status(status) => {
            let status = status_text(alloc, status)?;
            format!(in alloc; "status {status}")
        }
        Why::NoSession(refusal) => {
            let refusal = refusal_text(alloc, refusal)?;
            format!(in alloc; "no-session {refusal}")
        }
        Why::GaveUp(tries) => format!(in alloc; "gave-up {tries}"),
        Why::Ended => String::from_str(alloc, "ended"),
    }
}
