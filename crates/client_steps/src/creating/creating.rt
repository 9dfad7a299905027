// A create comes, with an open of its own.
ghost use Rattle.std.specs.Prelude.{◌≡◌, ℕ, ◌+◌, ◌<◌, ◌^◌, true, length, vec_len, vec_capacity, OnOk, OnErr};
ghost use Rattle.spec_exchange.specs.Table.{put};
ghost use Rattle.spec_exchange.specs.Operations.{is_create, keeps_limits};
ghost use Rattle.spec_exchange.specs.Client.{Client, take_op};
ghost use Rattle.law_client.specs.table.Kept.{TableKept};
ghost use Rattle.client_values.specs.operations.Meaning.{op_of};
ghost use Rattle.client_values.specs.operations.Waiting.{kind_of};
ghost use Rattle.base_lists.specs.range_index.Shown.{top};
ghost use Rattle.client_rows.specs.open_marks.Marks.{AreMarksBelow};
ghost use Rattle.client_tables.specs.declared.opens.opening.Open.{Open as Mark};
ghost use Rattle.client_tables.specs.opens.Opened.{AreTopped};
ghost use Rattle.client_tables.specs.whole_table.Shown.{TableFits, ShowsTable};
ghost use Rattle.client_steps.specs.taking.Taken.{HasRooms};
ghost use Rattle.client_steps.specs.submits_on_opens.Keeping.{IsMore, SubmitKeeps};
ghost use Rattle.client_steps.specs.submitting.Marked.{AddsOne};
ghost use Rattle.client_steps.specs.submitting.Whole.{FitsWhole, ShowsWhole};

use crate::submits_on_opens::new_row;
use crate::submitting::Opened;
use crate::taking::take_row;
use client_tables::{Attached, Open, Table};
use client_values::{OpKind, Outcome, Shape, Why};
use std::alloc::{AllocError, Global};

fn count_of(table: &Table) -> usize
    ensures { result ≡ length table.now.rows.items }
{
    table.rows.len()
}

/// Whether one open more has a number.
fn has_place(attached: &Vec<Attached>) -> bool
    ensures { result ≡ true → length attached.now.items < 2 ^ 32 }
{
    attached.len() < u32::MAX as usize
}

/// Room for one open more in each list. The lists stay, and where memory runs out too.
fn make_lists(
    attached: &mut Vec<Attached>,
    opened: &mut Vec<Opened>,
    marks: &mut Vec<Open>,
) -> Result<(), AllocError>
    ensures attached { attached.new.items ≡ attached.old.items }
    ensures opened { opened.new.items ≡ opened.old.items }
    ensures marks { marks.new.items ≡ marks.old.items }
    ensures room { OnOk result ((vec_len attached.new < vec_capacity attached.new) × (vec_len opened.new < vec_capacity opened.new)
        × (vec_len marks.new < vec_capacity marks.new)) }
{
    attached.reserve(1)?;
    opened.reserve(1)?;
    marks.reserve(1)
}

/// A create comes onto the table, for whose values there is room, and is the first operation of its open. Where memory runs out the
/// table shows what it showed.
fn take_alone(table: &mut Table, mark: &mut Open, open: u32, kind: OpKind) -> Result<(), AllocError>
    requires fits { TableFits table.old }
    requires some { 0 < length table.old.rows.items }
    requires few { length table.old.rows.items + 1 < 2 ^ 32 }
    requires room { HasRooms table.old }
    requires limits { keeps_limits (op_of kind) ≡ true }
    requires below { AreMarksBelow mark.old.marks (length table.old.rows.items) }
    requires topped { AreTopped (top mark.old.written) (top mark.old.locked) (length table.old.rows.items) }
    ensures row { OnOk result (IsMore table.old.rows.items table.new.rows.items (length table.old.rows.items) «open»
        (kind_of (op_of kind))) }
    ensures below { OnOk result (AreMarksBelow mark.new.marks (length table.old.rows.items + 1)) }
    ensures topped { OnOk result (AreTopped (top mark.new.written) (top mark.new.locked) (length table.old.rows.items + 1)) }
    ensures last { OnOk result (mark.new.marks.last ≡ length table.old.rows.items) }
    ensures fits { OnOk result (TableFits table.new) }
    ensures joined { OnOk result ((c : Client) → ShowsTable table.old c → TableKept c → is_create (op_of kind) ≡ true
        → SubmitKeeps table.old.rows.items (length table.old.rows.items) c.op (length table.old.rows.items) mark.old
        → ShowsTable table.new (take_op c (length table.old.rows.items) (op_of kind))
        × SubmitKeeps table.new.rows.items (length table.old.rows.items + 1) (put c.op (length table.old.rows.items) (op_of kind))
        (length table.old.rows.items) mark.new) }
    ensures others { OnOk result ((c : Client) (other : ℕ) (m : Mark) → (length table.old.rows.items ≡ other → ⊥)
        → SubmitKeeps table.old.rows.items (length table.old.rows.items) c.op other m
        → SubmitKeeps table.new.rows.items (length table.old.rows.items + 1) (put c.op (length table.old.rows.items) (op_of kind)) other m) }
    ensures same { OnErr result (table.new.rows.items ≡ table.old.rows.items) }
    ensures still { OnErr result (TableFits table.new) }
    ensures kept { OnErr result ((c : Client) → ShowsTable table.old c → ShowsTable table.new c) }
{
    let shape = Shape::of(&kind);
    let number = count_of(table) as u32;
    let row = new_row(&shape, shape.charge, number, open, true);
    take_row(table, mark, kind, &shape, row, Outcome::Unknown(Why::Ended))
}

/// A create is submitted, for whose values there is room: it comes onto the table, and an open of its own, which isn't attached, into
/// each list. Where memory runs out all shows what it showed; so it does where there are as many opens as numbers of 32 bits.
pub fn take_first(
    table: &mut Table,
    attached: &mut Vec<Attached>,
    opened: &mut Vec<Opened>,
    marks: &mut Vec<Open>,
    kind: OpKind,
    alloc: Global,
) -> Result<(), AllocError>
    requires all { FitsWhole table.old attached.old.items opened.old.items marks.old.items }
    requires some { 0 < length table.old.rows.items }
    requires few { length table.old.rows.items + 1 < 2 ^ 32 }
    requires room { HasRooms table.old }
    requires limits { keeps_limits (op_of kind) ≡ true }
    requires made { is_create (op_of kind) ≡ true }
    ensures row { OnOk result (AddsOne table.old.rows.items table.new.rows.items (length table.old.rows.items)) }
    ensures same { OnErr result (table.new.rows.items ≡ table.old.rows.items) }
    ensures fits { OnOk result (FitsWhole table.new attached.new.items opened.new.items marks.new.items) }
    ensures shown { OnOk result ((c : Client) → ShowsWhole table.old attached.old.items opened.old.items marks.old.items c → TableKept c
        → ShowsWhole table.new attached.new.items opened.new.items marks.new.items
        (take_op c (length table.old.rows.items) (op_of kind))) }
    ensures still { OnErr result (FitsWhole table.new attached.new.items opened.new.items marks.new.items) }
    ensures kept { OnErr result ((c : Client) → ShowsWhole table.old attached.old.items opened.old.items marks.old.items c
        → ShowsWhole table.new attached.new.items opened.new.items marks.new.items c) }
{
    if !has_place(attached) {
        return Err(AllocError);
    }
    make_lists(attached, opened, marks)?;
    let open = attached.len() as u32;
    let persist = kind.persists();
    let mut mark = Open::new(alloc);
    take_alone(table, &mut mark, open, kind)?;
    attached.push_reserved(Attached {
        session: 0,
        locks: 0,
        slots: Vec::new(alloc),
    });
    opened.push_reserved(Opened {
        persist,
        shut: false,
        file: 0,
    });
    marks.push_reserved(mark);
    Ok(())
}
