//! Small steps on the maps of the table.
ghost use Rattle.std.specs.Prelude.{◌≡◌, ◌+◌, ◌<◌, ◌≤◌, ◌^◌, ◌==◌, ℕ, None, Some, OnOk, if◌then◌else◌, nat_eq};
ghost use Rattle.std.specs.HashMap.{get, spare, hash_map_len};
ghost use Rattle.spec_exchange.specs.Opens.{with_guid};
ghost use Rattle.store_opens.specs.open_table.Shown.{pair_eq};
ghost use Rattle.store_opens.specs.open_table.Rows.{open_of};
ghost use Rattle.store_opens.specs.open_index.Held.{sharing_of};
ghost use Rattle.store_opens.specs.declared.open_table.row.Row.{Row};

use crate::open_index::FileOpens;
use crate::open_table::row::Row;
use crate::share_modes::Open;
use std::alloc::AllocError;
use std::collections::HashMap;

// Makes room for one more row.
pub(crate) fn reserve_rows(rows: &mut HashMap<u64, Row>) -> Result<(), AllocError>
    ensures at { (q : ℕ) → get nat_eq rows.new q ≡ get nat_eq rows.old q }
    ensures len { hash_map_len rows.new ≡ hash_map_len rows.old }
    ensures room { OnOk result (0 < spare rows.new) }
    ensures rest { spare rows.old ≤ spare rows.new }
    ensures small { hash_map_len rows.new < 2 ^ 63 }
{
    if rows.len() < rows.capacity() {
        return Ok(());
    }
    rows.reserve(1)
}

// Makes room for one more name.
pub(crate) fn reserve_names(guids: &mut HashMap<(u128, u128), u64>) -> Result<(), AllocError>
    ensures at { (c g : ℕ) → get pair_eq guids.new (c, g) ≡ get pair_eq guids.old (c, g) }
    ensures room { OnOk result (0 < spare guids.new) }
    ensures rest { spare guids.old ≤ spare guids.new }
{
    guids.reserve(1)
}

// Makes room for one more file.
pub(crate) fn reserve_files(files: &mut HashMap<u64, FileOpens>) -> Result<(), AllocError>
    ensures at { (q : ℕ) → get nat_eq files.new q ≡ get nat_eq files.old q }
    ensures room { OnOk result (0 < spare files.new) }
    ensures rest { spare files.old ≤ spare files.new }
{
    files.reserve(1)
}

// The guid, where there is one, names the open.
pub(crate) fn name_open(
    guids: &mut HashMap<(u128, u128), u64>,
    client: u128,
    guid: Option<u128>,
    id: u64,
)
    requires { 0 < spare guids.old }
    ensures { (c g : ℕ) → get pair_eq guids.new (c, g) ≡ with_guid (λ d h. get pair_eq guids.old (d, h)) client guid (Some id) c g }
{
    if let Some(guid) = guid {
        let _ = guids.insert((client, guid), id);
    }
}

// The guid, where there is one, names no open.
pub(crate) fn forget_name(guids: &mut HashMap<(u128, u128), u64>, client: u128, guid: Option<u128>)
    ensures at { (c g : ℕ) → get pair_eq guids.new (c, g) ≡ with_guid (λ d h. get pair_eq guids.old (d, h)) client guid None c g }
    ensures room { spare guids.old ≤ spare guids.new }
{
    if let Some(guid) = guid {
        let _ = guids.remove(&(client, guid));
    }
}

// The row stands at a new id.
pub(crate) fn put_row(rows: &mut HashMap<u64, Row>, id: u64, row: Row)
    requires { 0 < spare rows.old }
    ensures at { (q : ℕ) → get nat_eq rows.new q ≡ (if q == id then Some row else get nat_eq rows.old q) }
    ensures len { get nat_eq rows.old id ≡ None → hash_map_len rows.new ≡ hash_map_len rows.old + 1 }
{
    let _ = rows.insert(id, row);
}

// A row as sharing looks at it.
pub(crate) fn sharing_of(id: u64, row: &Row) -> Open
    ensures { result ≡ sharing_of id (open_of row.now) }
{
    Open {
        id,
        access: row.access,
        share: row.share,
    }
}
