// The lines of refused dialogs.
ghost use Rattle.std.specs.Prelude.{◌≡◌, ◌++◌, IfOk, OnOk};
ghost use Rattle.std.specs.List.{flat_map};
ghost use Rattle.std.specs.String.{string_bytes};
ghost use Rattle.client_values.specs.outcomes.Meaning.{dialog_of, refusal_of};
ghost use Rattle.script_words.specs.outcome_lines.Text as text;

use crate::outcome_lines::shown::status_text;
use client_values::RefusedDialog;
use std::alloc::{AllocError, Global};
use std::fmt::Write;
use wire_bytes::Refusal;

/// Adds a line for each dialog.
pub(crate) fn push_dialogs(
    alloc: Global,
    out: &mut String,
    dialogs: &[RefusedDialog],
) -> Result<(), AllocError>
    ensures { OnOk result (string_bytes out.new ≡ string_bytes out.old ++ flat_map (λ d. text.dialog_line (dialog_of d)) dialogs.now) }
{
    for dialog in dialogs {
        push_dialog(alloc, out, dialog)?;
    }
    Ok(())
}

#[tactic(auto, unfolding(crate::specs::outcome_lines::Text::dialog_line))]
fn push_dialog(alloc: Global, out: &mut String, dialog: &RefusedDialog) -> Result<(), AllocError>
    ensures { OnOk result (string_bytes out.new ≡ string_bytes out.old ++ text.dialog_line (dialog_of dialog.now)) }
{
    let connection = dialog.connection;
    let refusal = refusal_text(alloc, dialog.refusal)?;
    writeln!(out, "dialog {connection} {refusal}")
}

/// Why a dialog was refused.
pub(crate) fn refusal_text(alloc: Global, refusal: Refusal) -> Result<String, AllocError>
    ensures { IfOk result (λ shown. string_bytes shown ≡ text.refusal_text (refusal_of refusal)) }
{
    match refusal {
        Refusal::BadChoice(_) => String::from_str(alloc, "bad-choice"),
        Refusal::BadToken => String::from_str(alloc, "bad-token"),
        Refusal::BadSignature => String::from_str(alloc, "bad-signature"),
        Refusal::Status(status) => {
            let status = status_text(alloc, status)?;
            format!(in alloc; "status {status}")
        }
        Refusal::NoSha512 => String::from_str(alloc, "no-sha512"),
    }
}
