ghost use Rattle.std.specs.Prelude.{◌≡◌, ◌==◌, ◌||◌, IfOk, true, false};
ghost use Rattle.spec_exchange.specs.Files.{exists};
ghost use Rattle.spec_exchange.specs.Opens.{drop_open, goes, is_kept_back, pending_behind};
ghost use Rattle.spec_exchange.specs.State.{Server};
ghost use Rattle.spec_exchange.specs.Step.{expire_records};
ghost use Rattle.store_files.specs.file_tree.Shown.{ShowsFiles};
ghost use Rattle.journal_bytes.specs.record_bytes.Meaning.{records_of};
ghost use Rattle.law_records.specs.leaving_opens.Since.{deletes_at_close, goes_alone, is_kept_alone};
ghost use Rattle.store_opens.specs.open_table.Rows.{open_of};
ghost use Rattle.store_opens.specs.open_table.Shown.{ShowsOpens};
ghost use Rattle.law_server.specs.tables.Fits.{Fits};
ghost use Rattle.server_effects.specs.Fates.{fate_of};

use crate::fates::Fate;
use crate::leaving_opens::records::{push_parted, push_record};
use journal_bytes::{Origin, Record, Records};
use server_checks::deletes_on_close;
use std::alloc::{AllocError, Global};
use store_files::Tree;
use store_opens::{Opens, Row};

/// The records of an open that expires: that it did, and what became of its file.
pub fn expire_records(
    alloc: Global,
    opens: &Opens,
    tree: &Tree,
    origin: Origin,
    id: u64,
) -> Result<Records, AllocError>
    ensures { (s : Server) → Fits s → ShowsOpens opens.now s → ShowsFiles tree.now s → s.standing id ≡ true
        → IfOk result (λ rs. records_of rs ≡ expire_records s origin id) }
{
    let fate = fate_with(opens, tree, id);
    let file = opens.file_of(id);
    let mut records = Records::new(alloc);
    push_record(&mut records, Record::Expire { origin, id })?;
    push_parted(&mut records, origin, file, fate)?;
    Ok(records)
}

/// What becomes of the file of an open where that leaves alone.
pub fn fate_with(opens: &Opens, tree: &Tree, id: u64) -> Fate
    ensures { (s : Server) → Fits s → ShowsOpens opens.now s → ShowsFiles tree.now s → s.standing id ≡ true
        → result ≡ fate_of (is_kept_back (drop_open (pending_behind s id) id) (s.opened id).file)
        (goes (drop_open (pending_behind s id) id) (s.opened id).file) }
{
    match opens.row(id) {
        Some(row) => fate_alone(opens, tree, row),
        None => Fate::Stays,
    }
}

fn fate_alone(opens: &Opens, tree: &Tree, row: &Row) -> Fate
    ensures { (s : Server) → ShowsOpens opens.now s → ShowsFiles tree.now s → exists s row.now.file ≡ true
        → result ≡ fate_of (is_kept_alone s (open_of row.now)) (goes_alone s (open_of row.now)) }
{
    if row.file == 0 {
        return Fate::Stays;
    }
    if !is_pending_with(tree, row) {
        return Fate::Stays;
    }
    if opens.count_of(row.file) > 1 {
        return Fate::Stays;
    }
    if tree.is_full(row.file) {
        Fate::Unmarked
    } else {
        Fate::Goes
    }
}

// Whether the file is delete pending where the open leaves.
#[tactic(auto, unfolding(spec_exchange::specs::Files::info_of))]
fn is_pending_with(tree: &Tree, row: &Row) -> bool
    ensures { (s : Server) → ShowsFiles tree.now s → exists s row.now.file ≡ true
        → result ≡ (s.delete_pending row.now.file || deletes_at_close (open_of row.now)) }
{
    tree.info(row.file).marked || deletes_on_close(row.options)
}
