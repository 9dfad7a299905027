//! The text of a run.
ghost use Rattle.std.specs.Prelude.{◌≡◌, map, IfOk};
ghost use Rattle.std.specs.String.{string_bytes};
ghost use Rattle.client_values.specs.operations.Meaning.{op_of};
ghost use Rattle.client_values.specs.outcomes.Meaning.{dialog_of, outcome_of};
ghost use Rattle.run_command.specs.Telling.{IsReceipt, is_told_unknown, leaves_unknown};

use crate::listing::{lists_of, orders_of};
use crate::made_files::files_of;
use client_values::{OpKind, Outcome, RefusedDialog};
use script_words::run_text;
use std::alloc::{AllocError, Global};

/// The refused dialogs, how each operation settled, the order of each create that keeps writers out, and the files that creates made, by
/// the order in which responses settled operations. Every operation has to be settled.
pub fn text_of(
    alloc: Global,
    dialogs: &[RefusedDialog],
    ops: &[OpKind],
    settled: &[Outcome],
    order: &[u32],
) -> Result<String, AllocError>
    ensures { IfOk result (λ text. IsReceipt dialogs.now ops.now settled.now order.now
        (string_bytes text)) }
{
    let lists = lists_of(alloc, ops, order)?;
    let orders = orders_of(alloc, ops, settled, lists.as_slice())?;
    let files = files_of(alloc, ops, settled, lists.as_slice())?;
    run_text(alloc, dialogs, settled, orders.as_slice(), files.as_slice())
}

fn is_unknown(outcome: &Outcome) -> bool
    ensures { result ≡ is_told_unknown (outcome_of outcome.now) }
{
    matches!(outcome, Outcome::Unknown(_))
}

/// Whether an outcome is unknown.
pub fn leaves_unknown(settled: &[Outcome]) -> bool
    ensures { result ≡ leaves_unknown settled.now }
{
    settled.iter().any(|outcome| is_unknown(outcome))
}
