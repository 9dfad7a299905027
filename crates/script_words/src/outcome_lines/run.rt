// The text of a run.
ghost use Rattle.std.specs.Prelude.{◌≡◌, map, IfOk};
ghost use Rattle.std.specs.String.{string_bytes};
ghost use Rattle.client_values.specs.outcomes.Meaning.{dialog_of, outcome_of};
ghost use Rattle.script_words.specs.outcome_lines.Text as text;

use crate::outcome_lines::dialogs::push_dialogs;
use crate::outcome_lines::files::push_files;
use crate::outcome_lines::orders::{CreateOrder, push_orders};
use crate::outcome_lines::outcomes::push_outcomes;
use client_values::{Outcome, RefusedDialog};
use std::alloc::{AllocError, Global};
use store_files::StoredFile;

/// What a run prints: its refused dialogs in their order; how each operation settled, from the first on, of which the number is 1; the
/// orders; and the files.
pub fn run_text(
    alloc: Global,
    dialogs: &[RefusedDialog],
    settled: &[Outcome],
    orders: &[CreateOrder],
    files: &[StoredFile],
) -> Result<String, AllocError>
    ensures { IfOk result (λ shown. string_bytes shown
        ≡ text.run_text (map dialog_of dialogs.now) (map outcome_of settled.now) orders.now files.now) }
{
    // All text is made before a byte is printed, so that nothing is printed where memory runs out.
    let mut out = String::new(alloc);
    push_dialogs(alloc, &mut out, dialogs)?;
    push_outcomes(alloc, &mut out, settled)?;
    push_orders(alloc, &mut out, orders)?;
    push_files(alloc, &mut out, files)?;
    Ok(out)
}
