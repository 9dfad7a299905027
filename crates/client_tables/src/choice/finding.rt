// The operation that the model's client chooses, from one on.
ghost use Rattle.std.specs.Prelude.{◌≡◌, ℕ, ◌<◌, ◌≤◌, true, List, length};
ghost use Rattle.base_lists.specs.declared.watch_lists.Link.{Link as Watch};
ghost use Rattle.spec_exchange.specs.Client.{Client};
ghost use Rattle.law_client.specs.table.Kept.{TableKept};
ghost use Rattle.law_client.specs.choice.Choosing.{ChoiceGoes};
ghost use Rattle.client_rows.specs.operation_rows.Holding.{Alike, IsSafe};
ghost use Rattle.client_rows.specs.operation_rows.Choosing.{RowCounts};
ghost use Rattle.client_rows.specs.Shown.{ShowsRows};
ghost use Rattle.client_tables.specs.declared.choice.finding.Found.TheVariants as found;
ghost use Rattle.client_tables.specs.choice.Shown.{AreChoicesBounded, HaveOpens, IsChoiceInside, ChoiceShowsOpens, ChoiceTells, TellsOf};

use crate::pushes::pick;
use base_lists::{Prices, Watchers};
use client_rows::{Row, Session, Slot, choose_from};

/// Of an open, what a push looks at.
#[derive(Drop)]
pub struct Attached {
    /// The number of the session in which it was opened or attached last.
    pub session: u32,
    /// How many locks and unlocks came on it, up to 64; there is room for so many lock slots.
    pub locks: u8,
    /// Its lock slots that were used, by slot from 1.
    pub slots: Vec<Slot>,
}

/// What a search for an operation comes to.
#[derive(Clone, Copy, Debug, PartialEq, Eq)]
pub enum Found {
    /// There is none that is paid for and that nothing holds up.
    Nothing,
    /// It goes out. A lock that goes out itself for the first time takes the slot, another one takes none, which is 0.
    Goes { index: usize, slot: u8 },
    /// A lock, for which there is no slot.
    Slotless(usize),
}

/// What becomes of an operation that was found.
fn judge(rows: &[Row], opens: &[Attached], session: &Session, index: usize) -> Found
    requires above { 0 < index }
    requires within { index < length rows.now }
    requires opens { HaveOpens rows.now opens.now }
    requires bounded { AreChoicesBounded rows.now opens.now }
    ensures inside { IsChoiceInside rows.now opens.now index result }
    ensures some { result ≡ found.Nothing → ⊥ }
    ensures told { (c : Client) (holders prices : List ℕ) (watchers : List Watch) (k credits : ℕ) (slotless : List ℕ)
        → ShowsRows rows.now holders prices watchers c → ChoiceShowsOpens rows.now opens.now session.now c → TableKept c
        → c.ready k ≡ true → ChoiceGoes c credits index → TellsOf c k credits slotless index result }
{
    let open = &opens[rows[index].open as usize];
    match pick(rows, &open.slots, session, open.session, index) {
        Some(slot) => Found::Goes { index, slot },
        None => Found::Slotless(index),
    }
}

/// What becomes of an operation that was found from one on.
fn judge_from(
    rows: &[Row],
    opens: &[Attached],
    session: &Session,
    start: usize,
    index: usize,
) -> Found
    requires above { 0 < start }
    requires within { index < length rows.now }
    requires opens { HaveOpens rows.now opens.now }
    requires bounded { AreChoicesBounded rows.now opens.now }
    ensures inside { IsChoiceInside rows.now opens.now start result }
    ensures some { start ≤ index → result ≡ found.Nothing → ⊥ }
    ensures told { (c : Client) (holders prices : List ℕ) (watchers : List Watch) (k credits : ℕ) (slotless : List ℕ)
        → ShowsRows rows.now holders prices watchers c → ChoiceShowsOpens rows.now opens.now session.now c → TableKept c
        → c.ready k ≡ true → ChoiceGoes c credits index → start ≤ index → TellsOf c k credits slotless index result }
{
    if index < start {
        return Found::Nothing;
    }
    judge(rows, opens, session, index)
}

/// The operation that the model's client chooses, from one on, and what becomes of it. `credits`: those that the channel holds
/// (MS-SMB2 3.2.4.1.5), at most 254. What is found to wait is noted so, and nothing else changes.
pub fn find(
    rows: &mut [Row],
    holders: &[u32],
    prices: &mut Prices,
    watchers: &mut Watchers,
    opens: &[Attached],
    session: &Session,
    start: usize,
    credits: u8,
) -> Found
    requires safe { IsSafe rows.old holders.now }
    requires counts { RowCounts rows.old prices.old watchers.old }
    requires above { 0 < start }
    requires credits { credits < 255 }
    requires opens { HaveOpens rows.old opens.now }
    requires bounded { AreChoicesBounded rows.old opens.now }
    ensures alike { Alike rows.old rows.new }
    ensures safe { IsSafe rows.new holders.now }
    ensures counts { RowCounts rows.new prices.new watchers.new }
    ensures inside { IsChoiceInside rows.new opens.now start result }
    ensures shown { (c : Client) → ShowsRows rows.old holders.now prices.old watchers.old c
        → ShowsRows rows.new holders.now prices.new watchers.new c }
    ensures opens { (c : Client) → ChoiceShowsOpens rows.old opens.now session.now c → ChoiceShowsOpens rows.new opens.now session.now c }
    ensures told { (c : Client) (k : ℕ) (slotless : List ℕ) → ShowsRows rows.old holders.now prices.old watchers.old c
        → ChoiceShowsOpens rows.old opens.now session.now c → TableKept c → c.ready k ≡ true → ChoiceTells c k credits slotless start result }
{
    match choose_from(rows, holders, prices, watchers, start, credits) {
        Some(index) => judge_from(rows, opens, session, start, index),
        None => Found::Nothing,
    }
}
