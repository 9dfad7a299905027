// A push.
ghost use Rattle.std.specs.Prelude.{◌≡◌, ◌<◌, ◌≤◌, true, if◌then◌else◌, List};
ghost use Rattle.spec_exchange.specs.Client.{Client};
ghost use Rattle.spec_exchange.specs.ClientStep.{AllSettled, some_unsettled};
ghost use Rattle.law_client.specs.table.Kept.{TableKept};
ghost use Rattle.client_tables.specs.whole_table.Shown.{TableFits, ShowsTable};
ghost use Rattle.client_tables.specs.attached_opens.Places.{KeepsPlaces};
ghost use Rattle.client_tables.specs.attached_opens.Opens.{FitsOpens, ShowsAttached};
ghost use Rattle.client_tables.specs.declared.attached_opens.opened.Opened.{Opened};
ghost use Rattle.client_tables.specs.attached_opens.Known.{ShowsOpened};
ghost use Rattle.client_steps.specs.pushing.Acts.{act_by, act_of, chosen_with, pushed_by};

use crate::choosing::choose;
use crate::sending::send;
use client_tables::{Attached, Table};
use law_client::choice_credits_law;

/// What a push comes to.
#[derive(Clone, Copy, Debug, PartialEq, Eq)]
pub enum Pushed {
    /// Nothing goes out.
    Nothing,
    /// An operation goes out, or, where it is asking, a request to attach its open in its place.
    Goes { index: usize, asking: bool },
    /// The channel isn't ready, and an operation is unsettled: the client closes its end of each connection.
    CloseAll,
    /// Every operation is settled.
    Done,
}

/// What it comes to, where an operation is unsettled.
fn left_or(table: &mut Table, other: Pushed) -> Pushed
    requires fits { TableFits table.old }
    ensures fits { TableFits table.new }
    ensures rows { table.new.rows ≡ table.old.rows }
    ensures shown { (c : Client) → ShowsTable table.old c → ShowsTable table.new c }
    ensures told { (c : Client) → ShowsTable table.old c
        → act_of result ≡ (if some_unsettled c c.taken then act_of other else AllSettled) }
{
    if table.is_settled() {
        return Pushed::Done;
    }
    other
}

/// More credits than any operation costs make no difference.
fn capped(credits: u32) -> u8
    ensures few { result < 255 }
    ensures same { credits ≤ 254 → result ≡ credits }
    ensures most { 254 < credits → result ≡ 254 }
{
    if credits > 254 { 254 } else { credits as u8 }
}

/// A push on a channel that is ready.
fn push_ready(table: &mut Table, attached: &mut [Attached], channel: u8, credits: u8) -> Pushed
    requires fits { TableFits table.old }
    requires opens { FitsOpens table.old.rows.items attached.old }
    requires credits { credits < 255 }
    ensures fits { TableFits table.new }
    ensures opens { FitsOpens table.new.rows.items attached.new }
    ensures places { KeepsPlaces table.old.rows.items table.new.rows.items }
    ensures shown { (c : Client) → ShowsTable table.old c → ShowsAttached table.old.rows.items attached.old c → TableKept c
        → c.ready channel ≡ true → ShowsTable table.new (pushed_by c channel (chosen_with c channel credits)) }
    ensures attached { (c : Client) → ShowsTable table.old c → ShowsAttached table.old.rows.items attached.old c → TableKept c
        → c.ready channel ≡ true
        → ShowsAttached table.new.rows.items attached.new (pushed_by c channel (chosen_with c channel credits)) }
    ensures known { (c : Client) (opened : List Opened) → ShowsTable table.old c → ShowsAttached table.old.rows.items
        attached.old c → TableKept c
        → c.ready channel ≡ true → ShowsOpened table.old.rows.items opened c
        → ShowsOpened table.new.rows.items opened (pushed_by c channel (chosen_with c channel credits)) }
    ensures told { (c : Client) → ShowsTable table.old c → ShowsAttached table.old.rows.items attached.old c → TableKept c
        → c.ready channel ≡ true → act_of result ≡ act_by c channel (chosen_with c channel credits) }
{
    match choose(table, attached, credits) {
        Some((index, slot)) => {
            let asking = send(table, attached, index, slot, channel);
            Pushed::Goes { index, asking }
        }
        None => left_or(table, Pushed::Nothing),
    }
}

/// A channel may send, and holds so many credits (MS-SMB2 3.2.4.1.5). The lowest operation that may go out and is paid for goes out; a
/// lock for which no slot is free settles so on the way. Where the channel isn't ready nothing changes. It takes no memory.
pub fn push(table: &mut Table, attached: &mut [Attached], channel: u8, credits: u32) -> Pushed
    requires fits { TableFits table.old }
    requires opens { FitsOpens table.old.rows.items attached.old }
    ensures fits { TableFits table.new }
    ensures opens { FitsOpens table.new.rows.items attached.new }
    ensures places { KeepsPlaces table.old.rows.items table.new.rows.items }
    ensures shown { (c : Client) → ShowsTable table.old c → ShowsAttached table.old.rows.items attached.old c → TableKept c
        → ShowsTable table.new (pushed_by c channel (chosen_with c channel credits)) }
    ensures attached { (c : Client) → ShowsTable table.old c → ShowsAttached table.old.rows.items attached.old c → TableKept c
        → ShowsAttached table.new.rows.items attached.new (pushed_by c channel (chosen_with c channel credits)) }
    ensures known { (c : Client) (opened : List Opened) → ShowsTable table.old c → ShowsAttached table.old.rows.items
        attached.old c → TableKept c
        → ShowsOpened table.old.rows.items opened c
        → ShowsOpened table.new.rows.items opened (pushed_by c channel (chosen_with c channel credits)) }
    ensures told { (c : Client) → ShowsTable table.old c → ShowsAttached table.old.rows.items attached.old c → TableKept c
        → act_of result ≡ act_by c channel (chosen_with c channel credits) }
{
    choice_credits_law();
    if !table.session.is_ready(channel as u32) {
        return left_or(table, Pushed::CloseAll);
    }
    push_ready(table, attached, channel, capped(credits))
}
