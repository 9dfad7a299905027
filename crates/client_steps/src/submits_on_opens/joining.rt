// An operation comes onto an open that there is.
ghost use Rattle.std.specs.Prelude.{◌≡◌, ℕ, ◌+◌, ◌<◌, ◌≤◌, ◌^◌, true, if◌then◌else◌, length, vec_capacity, OnOk, OnErr};
ghost use Rattle.spec_exchange.specs.Table.{put};
ghost use Rattle.spec_exchange.specs.Operations.{keeps_limits};
ghost use Rattle.spec_exchange.specs.Client.{Client, is_attached, take_op};
ghost use Rattle.client_values.specs.declared.operations.shapes.Kind.TheVariants as kinds;
ghost use Rattle.client_values.specs.operations.Meaning.{op_of};
ghost use Rattle.client_values.specs.operations.Waiting.{kind_of};
ghost use Rattle.base_lists.specs.range_index.Shown.{top};
ghost use Rattle.client_rows.specs.open_marks.Marks.{AreMarksBelow, is_lock_kind};
ghost use Rattle.client_tables.specs.declared.opens.opening.Open.{Open as Kept};
ghost use Rattle.client_tables.specs.opens.Opened.{AreTopped};
ghost use Rattle.client_values.specs.declared.outcomes.outcome.Outcome.TheVariants as outcomes;
ghost use Rattle.client_tables.specs.attached_opens.Opens.{IsRoomy};
ghost use Rattle.client_tables.specs.whole_table.Shown.{TableFits, ShowsTable};
ghost use Rattle.client_steps.specs.taking.Taken.{HasRooms};
ghost use Rattle.client_steps.specs.submits_on_opens.Joined.{SubmitJoins};
ghost use Rattle.client_steps.specs.submits_on_opens.Keeping.{IsMore, SubmitKeeps};

use crate::submits_on_opens::fresh::new_row;
use crate::submits_on_opens::standing::{is_attached_now, is_gone_now};
use crate::taking::take_row;
use client_rows::Slot;
use client_tables::{Attached, Open, Opened, Table};
use client_values::{Kind, OpKind, Outcome, Shape, Why};
use std::alloc::AllocError;

fn is_lock(kind: Kind) -> bool
    ensures { result ≡ is_lock_kind kind }
{
    match kind {
        Kind::Lock => true,
        _ => false,
    }
}

/// Room for so many lock slots in all.
fn make_room(slots: &mut Vec<Slot>, count: u8) -> Result<(), AllocError>
    ensures items { slots.new.items ≡ slots.old.items }
    ensures capacity { vec_capacity slots.old ≤ vec_capacity slots.new }
    ensures room { OnOk result (count ≤ vec_capacity slots.new) }
{
    let used = slots.len();
    slots.reserve((count as usize).saturating_sub(used))
}

/// An open has room for a slot of each lock that came on it, up to its 64 slots, so that no push takes memory (MS-SMB2 3.2.1.4).
fn make_slots(own: &mut Attached, locks: bool) -> Result<(), AllocError>
    ensures session { own.new.session ≡ own.old.session }
    ensures slots { own.new.slots.items ≡ own.old.slots.items }
    ensures room { (n : ℕ) → IsRoomy n own.old.locks (vec_capacity own.old.slots) → IsRoomy n own.new.locks (vec_capacity own.new.slots) }
    ensures more { OnOk result (locks ≡ true → (n : ℕ) → IsRoomy n own.old.locks (vec_capacity own.old.slots)
        → IsRoomy (n + 1) own.new.locks (vec_capacity own.new.slots)) }
{
    if !locks {
        return Ok(());
    }
    let counted = own.locks;
    if counted >= 64 {
        return Ok(());
    }
    make_room(&mut own.slots, counted + 1)?;
    own.locks = counted + 1;
    Ok(())
}

/// What an operation costs at first: its charge where its open is attached, and one credit where that has to be asked for (MS-SMB2
/// 3.2.4.1.5, 3.2.4.4).
fn cost_of(table: &Table, own: &Attached, shape: &Shape) -> u8
    ensures { (c : Client) (create : ℕ) → ShowsTable table.now c → c.attached create ≡ own.now.session
        → result ≡ (if is_attached c create then shape.now.charge else 1) }
{
    if is_attached_now(table, own) {
        shape.charge
    } else {
        1
    }
}

/// How an operation settles whose create gives no open any more; of another this tells nothing.
fn first_outcome(gone: bool, create: u32) -> Outcome
    ensures { gone ≡ true → result ≡ outcomes.NoOpen create }
{
    if gone {
        Outcome::NoOpen(create)
    } else {
        Outcome::Unknown(Why::Ended)
    }
}

/// An operation comes onto the open of its create, for whose values there is room. Where its open is gone it settles so at once. Where
/// memory runs out table and open show what they showed.
pub fn take_onto(
    table: &mut Table,
    own: &mut Attached,
    known: &Opened,
    mark: &mut Open,
    create: u32,
    open: u32,
    kind: OpKind,
) -> Result<(), AllocError>
    requires fits { TableFits table.old }
    requires few { length table.old.rows.items + 1 < 2 ^ 32 }
    requires room { HasRooms table.old }
    requires above { 0 < create }
    requires within { create < length table.old.rows.items }
    requires limits { keeps_limits (op_of kind) ≡ true }
    requires below { AreMarksBelow mark.old.marks (length table.old.rows.items) }
    requires topped { AreTopped (top mark.old.written) (top mark.old.locked) (length table.old.rows.items) }
    ensures session { own.new.session ≡ own.old.session }
    ensures slots { own.new.slots.items ≡ own.old.slots.items }
    ensures room { (n : ℕ) → IsRoomy n own.old.locks (vec_capacity own.old.slots) → IsRoomy n own.new.locks (vec_capacity own.new.slots) }
    ensures row { OnOk result (IsMore table.old.rows.items table.new.rows.items create «open» (kind_of (op_of kind))) }
    ensures locks { OnOk result (kind_of (op_of kind) ≡ kinds.Lock → (n : ℕ) → IsRoomy n own.old.locks (vec_capacity own.old.slots)
        → IsRoomy (n + 1) own.new.locks (vec_capacity own.new.slots)) }
    ensures below { OnOk result (AreMarksBelow mark.new.marks (length table.old.rows.items + 1)) }
    ensures topped { OnOk result (AreTopped (top mark.new.written) (top mark.new.locked) (length table.old.rows.items + 1)) }
    ensures tops { OnErr result (AreTopped (top mark.new.written) (top mark.new.locked) (length table.old.rows.items)) }
    ensures last { OnOk result (mark.new.marks.last ≡ length table.old.rows.items) }
    ensures fits { OnOk result (TableFits table.new) }
    ensures joined { OnOk result ((c : Client) → SubmitJoins table.old own.old known.now mark.old c create (op_of kind)
        → ShowsTable table.new (take_op c (length table.old.rows.items) (op_of kind))
        × SubmitKeeps table.new.rows.items (length table.old.rows.items + 1) (put c.op (length table.old.rows.items) (op_of kind)) create mark.new) }
    ensures others { OnOk result ((c : Client) (other : ℕ) (m : Kept) → (create ≡ other → ⊥)
        → SubmitKeeps table.old.rows.items (length table.old.rows.items) c.op other m
        → SubmitKeeps table.new.rows.items (length table.old.rows.items + 1) (put c.op (length table.old.rows.items) (op_of kind)) other m) }
    ensures same { OnErr result (table.new.rows.items ≡ table.old.rows.items) }
    ensures marks { OnErr result (mark.new.marks ≡ mark.old.marks) }
    ensures still { OnErr result (TableFits table.new) }
    ensures kept { OnErr result ((c : Client) → ShowsTable table.old c → ShowsTable table.new c) }
    ensures stays { OnErr result ((c : Client) (n : ℕ) → SubmitKeeps table.old.rows.items n c.op create mark.old
        → SubmitKeeps table.new.rows.items n c.op create mark.new) }
{
    let shape = Shape::of(&kind);
    make_slots(own, is_lock(shape.kind))?;
    let gone = is_gone_now(table, known, own, create as usize);
    let cost = cost_of(table, own, &shape);
    let row = new_row(&shape, cost, create, open, !gone);
    take_row(table, mark, kind, &shape, row, first_outcome(gone, create))
}
