// The whole choice.
ghost use Rattle.std.specs.Prelude.{◌≡◌, ℕ, ◌+◌, ◌<◌, ◌≤◌, true, List, [], length, Some, None, IfSome, IfNone};
ghost use Rattle.spec_exchange.specs.Client.{Client, goes_itself, has_its_slot, lacks_slot, may_push, settle_no_slot, settle_no_slots};
ghost use Rattle.spec_exchange.specs.Schedules.{choose as chooses};
ghost use Rattle.law_client.specs.table.Kept.{TableKept};
ghost use Rattle.client_rows.specs.operation_rows.Rows.{row_at};
ghost use Rattle.client_tables.specs.declared.choice.finding.Attached.{Attached as Opens};
ghost use Rattle.client_tables.specs.choice.Shown.{IsChoiceAt};
ghost use Rattle.client_tables.specs.whole_table.Shown.{TableFits, ShowsTable};
ghost use Rattle.client_tables.specs.attached_opens.Places.{KeepsPlaces};
ghost use Rattle.client_tables.specs.attached_opens.Opens.{FitsOpens, ShowsAttached};

use crate::choosing::searching::search;
use client_tables::{Attached, Found, Table};
use client_values::Outcome;

fn count_of(table: &Table) -> usize
    ensures { result ≡ length table.now.rows.items }
{
    table.rows.len()
}

fn create_of(table: &Table, index: usize) -> u32
    requires { index < length table.now.rows.items }
    ensures { result ≡ (row_at table.now.rows.items index).create }
{
    table.rows[index].create
}

/// A lock that may go out, and for which there is no slot, settles so.
fn settle_without(table: &mut Table, index: usize)
    requires fits { TableFits table.old }
    requires above { 0 < index }
    requires within { index < length table.old.rows.items }
    ensures fits { TableFits table.new }
    ensures session { table.new.session ≡ table.old.session }
    ensures places { KeepsPlaces table.old.rows.items table.new.rows.items }
    ensures shown { (c : Client) (k : ℕ) → ShowsTable table.old c → lacks_slot c k index ≡ true
        → ShowsTable table.new (settle_no_slot c k index) }
{
    let create = create_of(table, index);
    table.settle(index, Outcome::NoSlot(create));
}

/// The lowest operation that may go out and is paid for, and its slot; 0 where it takes none. A lock for which there is none settles so
/// on the way.
pub fn choose(table: &mut Table, attached: &[Attached], credits: u8) -> Option<(usize, u8)>
    requires fits { TableFits table.old }
    requires opens { FitsOpens table.old.rows.items attached.now }
    requires credits { credits < 255 }
    ensures fits { TableFits table.new }
    ensures session { table.new.session ≡ table.old.session }
    ensures places { KeepsPlaces table.old.rows.items table.new.rows.items }
    ensures inside { IfSome result (λ p. (0 < p.0) × (p.0 < length table.new.rows.items)
        × ((o : Opens) → IsChoiceAt attached.now (row_at table.new.rows.items p.0).«open» o → p.1 ≤ length o.slots.items + 1)
        × (p.1 ≤ 64)) }
    ensures opens { FitsOpens table.new.rows.items attached.now }
    ensures attached { (c : Client) (k : ℕ) (s : List ℕ) → ShowsAttached table.old.rows.items attached.now c
        → ShowsAttached table.new.rows.items attached.now (settle_no_slots c k s) }
    ensures none { (c : Client) (k : ℕ) → ShowsTable table.old c → ShowsAttached table.old.rows.items attached.now c → TableKept c
        → c.ready k ≡ true → IfNone result ((s : List ℕ) × (ShowsTable table.new (settle_no_slots c k s))
        × (chooses c k credits [] 1 c.taken ≡ record { slotless = s; pick = None })) }
    ensures some { (c : Client) (k : ℕ) → ShowsTable table.old c → ShowsAttached table.old.rows.items attached.now c → TableKept c
        → c.ready k ≡ true → IfSome result (λ p. (s : List ℕ) × (ShowsTable table.new (settle_no_slots c k s))
        × (may_push (settle_no_slots c k s) k p.0 ≡ true)
        × (goes_itself (settle_no_slots c k s) p.0 ≡ true → has_its_slot (settle_no_slots c k s) p.0 p.1 ≡ true)
        × (chooses c k credits [] 1 c.taken ≡ record { slotless = s; pick = Some (record { op = p.0; slot = p.1 }) })) }
{
    let mut from = 1;
    while from < count_of(table) {
        match search(table, attached, from, credits) {
            Found::Nothing => return None,
            Found::Goes { index, slot } => return Some((index, slot)),
            Found::Slotless(index) => {
                settle_without(table, index);
                from = index + 1;
            }
        }
    }
    None
}
