// Whether an operation may be taken.
ghost use Rattle.std.specs.Prelude.{◌≡◌, ℕ, ◌<◌, ◌≤◌, ◌&&◌, nat_lt, true, false, length};
ghost use Rattle.spec_exchange.specs.Operations.{create_of, is_create, keeps_limits as keeps};
ghost use Rattle.spec_exchange.specs.Client.{Client, may_take as may};
ghost use Rattle.client_rows.specs.operation_rows.Rows.{row_at};
ghost use Rattle.client_values.specs.operations.Meaning.{op_of};
ghost use Rattle.client_rows.specs.open_marks.Marks.{is_create_kind};
ghost use Rattle.client_tables.specs.whole_table.Shown.{TableFits, ShowsTable};

use client_tables::Table;
use client_values::{Kind, OpKind, keeps_limits};

fn is_create_at(table: &Table, index: usize) -> bool
    requires { index < length table.now.rows.items }
    ensures { result ≡ is_create_kind (row_at table.now.rows.items index).kind }
{
    match table.rows[index].kind {
        Kind::Create => true,
        _ => false,
    }
}

/// Whether a number below another is that of a create.
fn names_create(table: &Table, create: u32, number: u32) -> bool
    requires within { 1 < number → number ≤ length table.now.rows.items }
    ensures { result ≡ (nat_lt 0 create && (nat_lt create number && is_create_kind (row_at table.now.rows.items create).kind)) }
{
    if create == 0 {
        return false;
    }
    if create >= number {
        return false;
    }
    is_create_at(table, create as usize)
}

/// Whether an operation's number is the next one, it keeps the limits of what a script gives, and its create is that of a create taken
/// before.
pub fn may_take(table: &Table, number: u32, kind: &OpKind) -> bool
    requires fits { TableFits table.now }
    ensures shown { (c : Client) → ShowsTable table.now c → result ≡ may c number (op_of kind.now) }
    ensures limits { result ≡ true → keeps (op_of kind.now) ≡ true }
    ensures made { result ≡ true → is_create (op_of kind.now) ≡ false → (create : ℕ) → ((g : ℕ) → create_of g (op_of kind.now) ≡ create)
        → (0 < create) × (create < length table.now.rows.items) × (is_create_kind (row_at table.now.rows.items create).kind ≡ true) }
{
    if number as usize != table.ops.len() + 1 {
        return false;
    }
    if !keeps_limits(kind) {
        return false;
    }
    match kind.create() {
        Some(create) => names_create(table, create, number),
        None => true,
    }
}
