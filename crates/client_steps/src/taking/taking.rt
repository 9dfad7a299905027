// An operation is taken.
ghost use Rattle.std.specs.Prelude.{◌≡◌, ℕ, ◌+◌, ◌<◌, ◌≤◌, ◌^◌, [], ◌∷◌, ◌++◌, length, None, OnOk, OnErr};
ghost use Rattle.spec_exchange.specs.Table.{put};
ghost use Rattle.spec_exchange.specs.Client.{Client, take_op};
ghost use Rattle.client_values.specs.operations.Meaning.{op_of};
ghost use Rattle.client_values.specs.operations.Waiting.{at_of, size_of};
ghost use Rattle.base_lists.specs.range_index.Shown.{top};
ghost use Rattle.client_rows.specs.declared.open_marks.marks.Marks.{Marks as OpenMarks};
ghost use Rattle.client_rows.specs.open_marks.Marks.{AreMarksBelow};
ghost use Rattle.client_tables.specs.opens.Opened.{AreTopped, ShowsOpen, placed_row};
ghost use Rattle.client_tables.specs.whole_table.Shown.{TableFits, ShowsTable};
ghost use Rattle.client_steps.specs.taking.Taken.{HasRooms, OperationTakesOn};

use client_rows::Row;
use client_tables::{Open, Table, take_on};
use client_values::{OpKind, Outcome, Shape};
use std::alloc::AllocError;

/// Takes an operation of an open, where there is room for its values. Where memory runs out table and open show what they showed.
/// `outcome` is how it settles where its row is settled.
pub fn take_row(
    table: &mut Table,
    opened: &mut Open,
    kind: OpKind,
    shape: &Shape,
    row: Row,
    outcome: Outcome,
) -> Result<(), AllocError>
    requires fits { TableFits table.old }
    requires some { 0 < length table.old.rows.items }
    requires few { length table.old.rows.items + 1 < 2 ^ 32 }
    requires room { HasRooms table.old }
    requires below { AreMarksBelow opened.old.marks (length table.old.rows.items) }
    requires topped { AreTopped (top opened.old.written) (top opened.old.locked) (length table.old.rows.items) }
    requires above { 0 < row.create }
    requires own { row.create ≤ length table.old.rows.items }
    requires unsent { row.outstanding_on ≡ None }
    ensures row { OnOk result (table.new.rows.items ≡ table.old.rows.items
        ++ placed_row row (length table.old.holders.items) (length table.new.holders.items) opened.old.marks ∷ []) }
    ensures same { OnErr result (table.new.rows.items ≡ table.old.rows.items) }
    ensures below { OnOk result (AreMarksBelow opened.new.marks (length table.old.rows.items + 1)) }
    ensures topped { OnOk result (AreTopped (top opened.new.written) (top opened.new.locked) (length table.old.rows.items + 1)) }
    ensures tops { OnErr result (AreTopped (top opened.new.written) (top opened.new.locked) (length table.old.rows.items)) }
    ensures last { OnOk result (opened.new.marks.last ≡ length table.old.rows.items) }
    ensures marks { OnErr result (opened.new.marks ≡ opened.old.marks) }
    ensures fits { OnOk result (TableFits table.new) }
    ensures shown { OnOk result ((c : Client) (create : ℕ) → OperationTakesOn table.old opened.old c (op_of kind) create
        shape.now row outcome
        → ShowsTable table.new (take_op c (length table.old.rows.items) (op_of kind))) }
    ensures keeps { OnOk result ((c : Client) (create : ℕ) → OperationTakesOn table.old opened.old c (op_of kind) create
        shape.now row outcome
        → ShowsOpen table.new.rows.items (λ x. at_of (put c.op (length table.old.rows.items) (op_of kind) x))
        (λ x. size_of (put c.op (length table.old.rows.items) (op_of kind) x)) create (length table.old.rows.items + 1) opened.new.marks
        (top opened.new.written) (top opened.new.locked)) }
    ensures others { OnOk result ((c : Client) (other : ℕ) (m : OpenMarks) (written locked : ℕ → ℕ) → (row.create ≡ other → ⊥)
        → ShowsOpen table.old.rows.items (λ x. at_of (c.op x)) (λ x. size_of (c.op x)) other (length table.old.rows.items) m written locked
        → ShowsOpen table.new.rows.items (λ x. at_of (put c.op (length table.old.rows.items) (op_of kind) x))
        (λ x. size_of (put c.op (length table.old.rows.items) (op_of kind) x)) other (length table.old.rows.items + 1) m written locked) }
    ensures still { OnErr result (TableFits table.new) }
    ensures kept { OnErr result ((c : Client) → ShowsTable table.old c → ShowsTable table.new c) }
    ensures stays { OnErr result ((at size : ℕ → ℕ) (create n : ℕ)
        → ShowsOpen table.old.rows.items at size create n opened.old.marks (top opened.old.written) (top opened.old.locked)
        → ShowsOpen table.new.rows.items at size create n opened.new.marks (top opened.new.written) (top opened.new.locked)) }
{
    take_on(
        &mut table.rows,
        &mut table.holders,
        &mut table.prices,
        &mut table.watchers,
        opened,
        shape,
        row,
    )?;
    table.ops.push_reserved(kind);
    table.settled.push_reserved(outcome);
    table.out.add();
    Ok(())
}
