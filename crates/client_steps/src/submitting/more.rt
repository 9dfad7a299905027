// An operation is submitted on an open that there is.
ghost use Rattle.std.specs.Prelude.{◌≡◌, ℕ, ◌+◌, ◌<◌, ◌^◌, true, false, length, OnOk, OnErr};
ghost use Rattle.spec_exchange.specs.Operations.{create_of, is_create, keeps_limits};
ghost use Rattle.spec_exchange.specs.Client.{Client, take_op};
ghost use Rattle.law_client.specs.table.Kept.{TableKept};
ghost use Rattle.client_values.specs.declared.operations.shapes.Kind.TheVariants as kinds;
ghost use Rattle.client_values.specs.operations.Meaning.{op_of};
ghost use Rattle.client_rows.specs.operation_rows.Rows.{row_at};
ghost use Rattle.client_tables.specs.attached_opens.Known.{IsKnownAt};
ghost use Rattle.client_steps.specs.taking.Taken.{HasRooms};
ghost use Rattle.client_steps.specs.submitting.Marked.{AddsOne};
ghost use Rattle.client_steps.specs.submitting.Whole.{FitsWhole, ShowsWhole};

use crate::submits_on_opens::{Opened, Table, take_onto};
use client_tables::{Attached, Open};
use client_values::OpKind;
use std::alloc::AllocError;

/// The place of an operation's open.
fn open_of(table: &Table, index: usize) -> u32
    requires { index < length table.now.rows.items }
    ensures { result ≡ (row_at table.now.rows.items index).«open» }
{
    table.rows[index].open
}

/// What is known of an open.
fn known_at(opened: &Vec<Opened>, at: usize) -> Opened
    requires { at < length opened.now.items }
    ensures { IsKnownAt opened.now.items at result }
{
    opened[at]
}

/// An operation comes onto the open of its create, for whose values there is room. Where memory runs out all shows what it showed. How a
/// client keeps its operations is this project's.
pub fn take_more(
    table: &mut Table,
    attached: &mut [Attached],
    opened: &Vec<Opened>,
    marks: &mut [Open],
    create: u32,
    kind: OpKind,
) -> Result<(), AllocError>
    requires all { FitsWhole table.old attached.old opened.now.items marks.old }
    requires few { length table.old.rows.items + 1 < 2 ^ 32 }
    requires room { HasRooms table.old }
    requires above { 0 < create }
    requires within { create < length table.old.rows.items }
    requires limits { keeps_limits (op_of kind) ≡ true }
    requires made { (row_at table.old.rows.items create).kind ≡ kinds.Create }
    requires other { is_create (op_of kind) ≡ false }
    requires names { (g : ℕ) → create_of g (op_of kind) ≡ create }
    ensures row { OnOk result (AddsOne table.old.rows.items table.new.rows.items create) }
    ensures same { OnErr result (table.new.rows.items ≡ table.old.rows.items) }
    ensures fits { OnOk result (FitsWhole table.new attached.new opened.now.items marks.new) }
    ensures shown { OnOk result ((c : Client) → ShowsWhole table.old attached.old opened.now.items marks.old c → TableKept c
        → ShowsWhole table.new attached.new opened.now.items marks.new (take_op c (length table.old.rows.items) (op_of kind))) }
    ensures still { OnErr result (FitsWhole table.new attached.new opened.now.items marks.new) }
    ensures kept { OnErr result ((c : Client) → ShowsWhole table.old attached.old opened.now.items marks.old c
        → ShowsWhole table.new attached.new opened.now.items marks.new c) }
{
    let open = open_of(table, create as usize);
    let at = open as usize;
    let known = known_at(opened, at);
    take_onto(
        table,
        &mut attached[at],
        &known,
        &mut marks[at],
        create,
        open,
        kind,
    )
}
