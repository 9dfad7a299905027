//! What one more open that leaves makes of its file.
ghost use Rattle.std.specs.Prelude.{◌≡◌, ◌==◌, ◌≤◌, ◌+◌, IfOk, true, false, not, length, nat_le};
ghost use Rattle.spec_exchange.specs.Files.{exists, is_full_directory, root};
ghost use Rattle.spec_exchange.specs.Opens.{opens_of};
ghost use Rattle.spec_exchange.specs.State.{Server};
ghost use Rattle.store_files.specs.file_tree.Shown.{ShowsFiles};
ghost use Rattle.law_records.specs.leaving_opens.Since.{was_pending};
ghost use Rattle.store_opens.specs.open_table.Rows.{open_of};
ghost use Rattle.store_opens.specs.open_table.Shown.{ShowsOpens};
ghost use Rattle.server_effects.specs.leaving_opens.Left.{HasLeft, IsStep, goes_now, kept_now, marked_by, opens_left};
ghost use Rattle.server_effects.specs.Fates.{fate_of};

use crate::fates::Fate;
use crate::leaving_opens::leaving::{Leaving, Left};
use server_checks::deletes_on_close;
use std::alloc::AllocError;
use store_files::Tree;
use store_opens::{Opens, Row};

// What is left of the file behind it, whether it is the one that makes the file delete pending, and what becomes of the file.
#[derive(Copy, Clone)]
pub(crate) struct Step {
    pub left: Left,
    pub marks: bool,
    pub fate: Fate,
}

pub(crate) fn step_of(
    opens: &Opens,
    tree: &Tree,
    leaving: &Leaving,
    row: &Row,
) -> Result<Step, AllocError>
    ensures { IfOk result (λ p. (s u : Server) → ShowsOpens opens.now s → ShowsFiles tree.now s → HasLeft leaving.now s u
        → exists u row.now.file ≡ true → exists s row.now.file ≡ true
        → opens_left leaving.now row.now.file + 1 ≤ length (opens_of s row.now.file)
        → IsStep leaving.now s u (open_of row.now) p) }
{
    let before = is_pending(tree, leaving, row.file);
    let deletes = deletes_on_close(row.options);
    let pending = before | deletes;
    let fate = fate(opens, tree, leaving, row.file, pending)?;
    let opens = one_more(opens, leaving, row.file);
    Ok(Step {
        left: Left { opens, pending },
        marks: deletes & !before,
        fate,
    })
}

// How many opens of the file left with this one.
fn one_more(opens: &Opens, leaving: &Leaving, file: u64) -> u64
    ensures { (s : Server) → ShowsOpens opens.now s → opens_left leaving.now file + 1 ≤ length (opens_of s file)
        → result ≡ opens_left leaving.now file + 1 }
{
    let left = leaving.of(file).opens;
    if left < opens.count_of(file) {
        left + 1
    } else {
        left
    }
}

// Whether the file is delete pending by now.
#[tactic(auto, unfolding(spec_exchange::specs::Files::info_of))]
fn is_pending(tree: &Tree, leaving: &Leaving, file: u64) -> bool
    ensures { (s : Server) → ShowsFiles tree.now s → exists s file ≡ true → result ≡ was_pending (marked_by leaving.now) s file }
{
    tree.info(file).marked || leaving.of(file).pending
}

fn fate(
    opens: &Opens,
    tree: &Tree,
    leaving: &Leaving,
    file: u64,
    pending: bool,
) -> Result<Fate, AllocError>
    ensures { IfOk result (λ b. (s u : Server) → ShowsOpens opens.now s → ShowsFiles tree.now s → HasLeft leaving.now s u
        → exists u file ≡ true → exists s file ≡ true
        → b ≡ fate_of (kept_now leaving.now s u file pending) (goes_now leaving.now s u file pending)) }
{
    if !pending {
        return Ok(Fate::Stays);
    }
    if file == 0 {
        return Ok(Fate::Stays);
    }
    if !is_last_open(opens, leaving, file) {
        return Ok(Fate::Stays);
    }
    let empty = is_empty(tree, leaving, file)?;
    if empty {
        Ok(Fate::Goes)
    } else {
        Ok(Fate::Unmarked)
    }
}

// The open is the file's last.
fn is_last_open(opens: &Opens, leaving: &Leaving, file: u64) -> bool
    ensures { (s : Server) → ShowsOpens opens.now s → result ≡ nat_le (length (opens_of s file)) (opens_left leaving.now file + 1) }
{
    opens.count_of(file).saturating_sub(leaving.of(file).opens) <= 1
}

// Nothing is in it but what went before.
fn is_empty(tree: &Tree, leaving: &Leaving, file: u64) -> Result<bool, AllocError>
    ensures { IfOk result (λ b. (s u : Server) → ShowsFiles tree.now s → HasLeft leaving.now s u → exists u file ≡ true
        → exists s file ≡ true → (file == root) ≡ false → b ≡ not (is_full_directory u file)) }
{
    if !tree.is_full(file) {
        return Ok(true);
    }
    let below = tree.below(file)?;
    Ok(leaving.have_gone(below.as_slice()))
}
