ghost use Rattle.std.specs.Prelude.{◌≡◌, ◌++◌, ◌∷◌, [], true, OnOk};
ghost use Rattle.spec_exchange.specs.Effects.{leave_all, leave_all_records, plain_of};
ghost use Rattle.spec_exchange.specs.Opens.{leave_open, leave_records};
ghost use Rattle.spec_exchange.specs.State.{Server};
ghost use Rattle.store_files.specs.file_tree.Shown.{ShowsFiles};
ghost use Rattle.journal_bytes.specs.record_bytes.Meaning.{record_of, records_of};
ghost use Rattle.law_records.specs.leaving_opens.Since.{AllStand, left_records, marked_records, parted_records};
ghost use Rattle.store_opens.specs.open_table.Rows.{open_of};
ghost use Rattle.store_opens.specs.open_table.Shown.{ShowsOpens};
ghost use Rattle.law_server.specs.tables.Fits.{Fits, is_ascending};
ghost use Rattle.server_effects.specs.Fates.{removed_by, unmarked_by};
ghost use Rattle.server_effects.specs.leaving_opens.Left.{HasLeft};

use crate::fates::Fate;
use crate::leaving_opens::leaving::Leaving;
use crate::leaving_opens::step::step_of;
use journal_bytes::{Origin, Record, Records};
use std::alloc::AllocError;
use store_files::Tree;
use store_opens::{Opens, Row};

/// The records of a session's plain opens, which leave with it one behind the other.
pub fn end_in(
    opens: &Opens,
    tree: &Tree,
    leaving: &mut Leaving,
    records: &mut Records,
    origin: Origin,
    session: u64,
) -> Result<(), AllocError>
    ensures { (s u : Server) → Fits s → ShowsOpens opens.now s → ShowsFiles tree.now s → HasLeft leaving.old s u
        → AllStand u (plain_of s session) → OnOk result (HasLeft leaving.new s (leave_all u (plain_of s session))
        × (records_of records.new ≡ records_of records.old ++ leave_all_records u origin (plain_of s session))) }
{
    let ids = opens.plain_opens(session)?;
    leave_each(opens, tree, leaving, records, origin, ids.as_slice())
}

/// The records of opens that leave in ascending order.
pub fn leave_each(
    opens: &Opens,
    tree: &Tree,
    leaving: &mut Leaving,
    records: &mut Records,
    origin: Origin,
    ids: &[u64],
) -> Result<(), AllocError>
    ensures { (s u : Server) → Fits s → ShowsOpens opens.now s → ShowsFiles tree.now s → HasLeft leaving.old s u
        → is_ascending ids.now ≡ true → AllStand u ids.now → OnOk result (HasLeft leaving.new s (leave_all u ids.now)
        × (records_of records.new ≡ records_of records.old ++ leave_all_records u origin ids.now)) }
{
    for id in ids {
        leave_in(opens, tree, leaving, records, origin, *id)?;
    }
    Ok(())
}

/// The records of one open that leaves: that it left, where it is persistent, and what a fold couldn't tell without it.
pub fn leave_in(
    opens: &Opens,
    tree: &Tree,
    leaving: &mut Leaving,
    records: &mut Records,
    origin: Origin,
    id: u64,
) -> Result<(), AllocError>
    ensures { (s u : Server) → Fits s → ShowsOpens opens.now s → ShowsFiles tree.now s → HasLeft leaving.old s u
        → u.standing id ≡ true → OnOk result (HasLeft leaving.new s (leave_open u id)
        × (records_of records.new ≡ records_of records.old ++ leave_records u origin id)) }
{
    match opens.row(id) {
        Some(row) => leave_row(opens, tree, leaving, records, origin, id, row),
        None => Ok(()),
    }
}

// The same, with its row.
fn leave_row(
    opens: &Opens,
    tree: &Tree,
    leaving: &mut Leaving,
    records: &mut Records,
    origin: Origin,
    id: u64,
    row: &Row,
) -> Result<(), AllocError>
    ensures { (s u : Server) → ShowsOpens opens.now s → ShowsFiles tree.now s → HasLeft leaving.old s u → u.standing id ≡ true
        → s.opened id ≡ open_of row.now → OnOk result (HasLeft leaving.new s (leave_open u id)
        × (records_of records.new ≡ records_of records.old ++ leave_records u origin id)) }
{
    let step = step_of(opens, tree, leaving, row)?;
    // The open's record before its file's, since a fold removes no file that has an open.
    push_left(records, origin, id, row, step.marks)?;
    push_parted(records, origin, row.file, step.fate)?;
    leaving.put(row.file, step.left, step.fate.goes())
}

// That an open left, where it is persistent; else that its file is delete pending by it, where it marks it.
fn push_left(
    records: &mut Records,
    origin: Origin,
    id: u64,
    row: &Row,
    marks: bool,
) -> Result<(), AllocError>
    ensures { OnOk result (records_of records.new
        ≡ records_of records.old ++ left_records row.now.persistent origin id row.now.file marks) }
{
    // No record tells of a plain open, so only the mark that it leaves on its file is told.
    if row.persistent {
        return push_record(records, Record::Shut { origin, id });
    }
    push_marked(records, origin, row.file, marks)
}

// That a file is delete pending, where it is marked.
fn push_marked(
    records: &mut Records,
    origin: Origin,
    file: u64,
    marks: bool,
) -> Result<(), AllocError>
    ensures { OnOk result (records_of records.new ≡ records_of records.old ++ marked_records marks origin file) }
{
    if !marks {
        return Ok(());
    }
    push_record(
        records,
        Record::SetDelete {
            origin,
            file,
            marked: true,
        },
    )
}

// What became of a file: that it went, or that it is delete pending no longer.
pub(crate) fn push_parted(
    records: &mut Records,
    origin: Origin,
    file: u64,
    fate: Fate,
) -> Result<(), AllocError>
    ensures { OnOk result (records_of records.new
        ≡ records_of records.old ++ parted_records (unmarked_by fate) (removed_by fate) origin file) }
{
    match fate {
        Fate::Stays => Ok(()),
        Fate::Unmarked => push_record(
            records,
            Record::SetDelete {
                origin,
                file,
                marked: false,
            },
        ),
        Fate::Goes => push_record(records, Record::Remove { origin, file }),
    }
}

pub(crate) fn push_record(records: &mut Records, one: Record) -> Result<(), AllocError>
    ensures { OnOk result (records_of records.new ≡ records_of records.old ++ record_of one ∷ []) }
{
    records.push(one)
}
