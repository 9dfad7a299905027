// A client as a whole.
ghost use Rattle.std.specs.Prelude.{◌≡◌, ℕ, ◌+◌, ◌<◌, ◌^◌, nat_lt, not, true, false, if◌then◌else◌, length, vec_len, vec_capacity};
ghost use Rattle.std.specs.Prelude.{OnOk, OnErr, IfOk};
ghost use Rattle.spec_exchange.specs.Operations.{create_of, is_create, keeps_limits};
ghost use Rattle.spec_exchange.specs.State.{Reply};
ghost use Rattle.spec_exchange.specs.Network.{Settings, start};
ghost use Rattle.spec_exchange.specs.Client.{Client as Model, finish, may_take as may, note_refusal, take_op};
ghost use Rattle.spec_exchange.specs.ClientStep.{CloseChannels, Nothing, TakesOp, becomes_ready, client_after, cut_after, hear_act};
ghost use Rattle.spec_exchange.specs.ClientStep.{hear_after, ready_after, some_unsettled};
ghost use Rattle.law_client.specs.table.Kept.{TableKept};
ghost use Rattle.client_values.specs.declared.operations.shapes.Kind.TheVariants as kinds;
ghost use Rattle.client_values.specs.operations.Meaning.{op_of};
ghost use Rattle.client_rows.specs.operation_rows.Rows.{row_at, owner};
ghost use Rattle.client_rows.specs.open_marks.Marks.{IsHighest, is_create_kind};
ghost use Rattle.client_tables.specs.declared.opens.opening.Open.{Open as Mark};
ghost use Rattle.client_values.specs.outcomes.Meaning.{refusal_of, why_of};
ghost use Rattle.client_rows.specs.session_state.Shown.{cut_told, ready_at};
ghost use Rattle.client_steps.specs.pushing.Acts.{act_by, act_of, chosen_with, pushed_by};
ghost use Rattle.client_steps.specs.responses.Reading.{ResponseReads};
ghost use Rattle.client_steps.specs.taking.Taken.{HasRooms, KeepsOrBegins};
ghost use Rattle.client_steps.specs.submitting.Marked.{IsMarkedAt};
ghost use Rattle.client_steps.specs.whole_client.Shown.{FitsClient, ShowsClient};

use crate::creating::take_first;
use crate::cutting::cut;
use crate::first_row::start_rows;
use crate::pushing::{Opened, Pushed, push};
use crate::responses::{Response, hear};
use crate::submitting::take_more;
use crate::taking::{make_room, may_take};
use crate::unsent::add_later;
use client_rows::Cut;
use client_tables::{Attached, Open, Table};
use client_values::{OpKind, Why};
use std::alloc::{AllocError, Global};
use wire_bytes::Refusal;

/// A client's operations, its session and its opens.
#[derive(Drop)]
pub struct Client {
    pub table: Table,
    /// Of each open, in the order of their creates: its session and its lock slots; what is known of it; and what operations to come
    /// wait for.
    pub attached: Vec<Attached>,
    pub opened: Vec<Opened>,
    pub marks: Vec<Open>,
    // Upwards and never shortened, unlike the links of rows: by it all that hangs on an open is found when the open
    // is gone.
    /// By operation, the next higher one of its open; 0 where there is none.
    pub later: Vec<u32>,
}

fn open_of(table: &Table, index: usize) -> usize
    requires { index < length table.now.rows.items }
    ensures { result ≡ (row_at table.now.rows.items index).«open» }
{
    table.rows[index].open as usize
}

pub(crate) fn has_row(table: &Table, index: usize) -> bool
    ensures { result ≡ nat_lt index (length table.now.rows.items) }
{
    index < table.rows.len()
}

fn last_at(marks: &[Open], at: usize) -> u32
    requires { at < length marks.now }
    ensures { (o : Mark) × (IsMarkedAt marks.now at o) × (result ≡ o.marks.last) }
{
    let mark = &marks[at];
    mark.marks.last
}

/// Whether one operation more has a number.
fn has_number(table: &Table) -> bool
    ensures { result ≡ true → length table.now.rows.items + 1 < 2 ^ 32 }
{
    table.rows.len() < u32::MAX as usize
}

impl Client {
    /// No operations, no opens and no session. It takes no memory.
    pub fn new(alloc: Global) -> Client
        ensures fits { FitsClient result }
        ensures shown { (settings : Settings) → ShowsClient result (start settings).client }
    {
        let table = Table::new(alloc);
        Client {
            table,
            attached: Vec::new(alloc),
            opened: Vec::new(alloc),
            marks: Vec::new(alloc),
            later: Vec::new(alloc),
        }
    }

    /// The highest operation of the open of one.
    fn last_of(&self, index: usize) -> u32
        requires fits { FitsClient self.now }
        ensures { 0 < index → index < length self.now.table.rows.items → IsHighest (owner self.now.table.rows.items) (λ h. true)
            (owner self.now.table.rows.items index) (length self.now.table.rows.items) result }
    {
        if index == 0 {
            return 0;
        }
        if !has_row(&self.table, index) {
            return 0;
        }
        let at = open_of(&self.table, index);
        last_at(&self.marks, at)
    }

    /// Whether every operation is settled.
    pub fn is_settled(&mut self) -> bool
        requires fits { FitsClient self.old }
        ensures fits { FitsClient self.new }
        ensures shown { (c : Model) → ShowsClient self.old c → ShowsClient self.new c }
        ensures told { (c : Model) → ShowsClient self.old c → result ≡ not (some_unsettled c c.taken) }
    {
        self.table.is_settled()
    }

    /// The dialog of a channel that isn't ready ended well, in a session with these ids. False where the channel can't be ready in it.
    pub fn ready(&mut self, channel: u8, session: u64, tree: u32) -> bool
        requires fits { FitsClient self.old }
        requires apart { ready_at self.old.table.session channel ≡ false }
        ensures fits { FitsClient self.new }
        ensures shown { (c : Model) → ShowsClient self.old c → ShowsClient self.new (ready_after c channel session tree) }
        ensures told { (c : Model) → ShowsClient self.old c → result ≡ becomes_ready c session }
    {
        self.table.ready(channel, session, tree)
    }

    /// The dialog of a channel was refused. Where memory runs out nothing changes.
    pub fn refused(&mut self, channel: u8, why: Refusal) -> Result<(), AllocError>
        requires fits { FitsClient self.old }
        ensures fits { FitsClient self.new }
        ensures shown { OnOk result ((c : Model) → ShowsClient self.old c
            → ShowsClient self.new (note_refusal c channel (refusal_of why))) }
        ensures kept { OnErr result ((c : Model) → ShowsClient self.old c → ShowsClient self.new c) }
    {
        match self.table.refused(channel as u32, why) {
            Ok(()) => Ok(()),
            Err(error) => Err(error),
        }
    }

    /// A channel is cut. The session ends with its last ready one, or where its ChannelSequence can't be raised.
    pub fn cut(&mut self, channel: u8) -> Cut
        requires fits { FitsClient self.old }
        ensures fits { FitsClient self.new }
        ensures shown { (c : Model) → ShowsClient self.old c → TableKept c → ShowsClient self.new (cut_after c channel) }
        ensures told { (c : Model) → ShowsClient self.old c → result ≡ cut_told c channel }
    {
        cut(&mut self.table, channel)
    }

    /// No session can be had: all that was taken and is unsettled is given up.
    pub fn finish(&mut self, why: Why)
        requires fits { FitsClient self.old }
        ensures fits { FitsClient self.new }
        ensures shown { (c : Model) → ShowsClient self.old c → ShowsClient self.new (finish c (why_of why)) }
    {
        self.table.finish(why);
    }

    /// A channel may send, and holds so many credits (MS-SMB2 3.2.4.1.5). It takes no memory.
    pub fn push(&mut self, channel: u8, credits: u32) -> Pushed
        requires fits { FitsClient self.old }
        ensures fits { FitsClient self.new }
        ensures shown { (c : Model) → ShowsClient self.old c → TableKept c
            → ShowsClient self.new (pushed_by c channel (chosen_with c channel credits)) }
        ensures told { (c : Model) → ShowsClient self.old c → TableKept c → act_of result
            ≡ act_by c channel (chosen_with c channel credits) }
    {
        push(&mut self.table, &mut self.attached, channel, credits)
    }

    /// The response to an operation, or to the request to attach its open in its place (`asking`). One that isn't awaited on this channel
    /// changes nothing. True where the session ended, and all connections are to be closed.
    pub fn hear(&mut self, channel: u8, index: usize, asking: bool, response: Response) -> bool
        requires fits { FitsClient self.old }
        ensures fits { FitsClient self.new }
        ensures shown { (c : Model) (r : Reply) (place : ℕ) → ShowsClient self.old c → TableKept c → ResponseReads response c index asking r
            → ShowsClient self.new (hear_after c channel index asking r place) }
        ensures told { (c : Model) (r : Reply) → ShowsClient self.old c → TableKept c → ResponseReads response c index asking r
            → hear_act c channel index asking r ≡ (if result then CloseChannels else Nothing) }
    {
        let last = self.last_of(index);
        hear(
            &mut self.table,
            &mut self.attached,
            &mut self.opened,
            &self.later,
            channel,
            index,
            last,
            asking,
            response,
        )
    }

    /// A number for one operation more, and room for it in the table; row 0 where there is no row yet. All shows what it showed, where
    /// memory runs out too.
    fn make_way(&mut self) -> Result<(), AllocError>
        requires fits { FitsClient self.old }
        ensures fits { FitsClient self.new }
        ensures some { OnOk result (0 < length self.new.table.rows.items) }
        ensures few { OnOk result (length self.new.table.rows.items + 1 < 2 ^ 32) }
        ensures rows { KeepsOrBegins self.old.table.rows.items self.new.table.rows.items }
        ensures room { OnOk result (HasRooms self.new.table) }
        ensures later { OnOk result (vec_len self.new.later < vec_capacity self.new.later) }
        ensures shown { (c : Model) → ShowsClient self.old c → ShowsClient self.new c }
    {
        start_rows(&mut self.table, &mut self.later)?;
        if !has_number(&self.table) {
            return Err(AllocError);
        }
        self.later.reserve(1)?;
        make_room(&mut self.table)
    }

    /// An operation comes onto the open of its create, for which there is room.
    fn take_other(&mut self, create: u32, kind: OpKind) -> Result<(), AllocError>
        requires fits { FitsClient self.old }
        requires few { length self.old.table.rows.items + 1 < 2 ^ 32 }
        requires room { HasRooms self.old.table }
        requires later { vec_len self.old.later < vec_capacity self.old.later }
        requires limits { keeps_limits (op_of kind) ≡ true }
        requires above { 0 < create }
        requires within { create < length self.old.table.rows.items }
        requires made { (row_at self.old.table.rows.items create).kind ≡ kinds.Create }
        requires other { is_create (op_of kind) ≡ false }
        requires names { (g : ℕ) → create_of g (op_of kind) ≡ create }
        ensures fits { FitsClient self.new }
        ensures shown { OnOk result ((c : Model) → ShowsClient self.old c → TableKept c
            → ShowsClient self.new (take_op c (length self.old.table.rows.items) (op_of kind))) }
        ensures kept { OnErr result ((c : Model) → ShowsClient self.old c → ShowsClient self.new c) }
    {
        let last = self.last_of(create as usize);
        take_more(
            &mut self.table,
            &mut self.attached,
            &self.opened,
            &mut self.marks,
            create,
            kind,
        )?;
        add_later(&mut self.later, last);
        Ok(())
    }

    /// A create comes, with an open of its own, for whose values there is room.
    fn take_create(&mut self, kind: OpKind, alloc: Global) -> Result<(), AllocError>
        requires fits { FitsClient self.old }
        requires some { 0 < length self.old.table.rows.items }
        requires few { length self.old.table.rows.items + 1 < 2 ^ 32 }
        requires room { HasRooms self.old.table }
        requires later { vec_len self.old.later < vec_capacity self.old.later }
        requires limits { keeps_limits (op_of kind) ≡ true }
        requires made { is_create (op_of kind) ≡ true }
        ensures fits { FitsClient self.new }
        ensures shown { OnOk result ((c : Model) → ShowsClient self.old c → TableKept c
            → ShowsClient self.new (take_op c (length self.old.table.rows.items) (op_of kind))) }
        ensures kept { OnErr result ((c : Model) → ShowsClient self.old c → ShowsClient self.new c) }
    {
        take_first(
            &mut self.table,
            &mut self.attached,
            &mut self.opened,
            &mut self.marks,
            kind,
            alloc,
        )?;
        add_later(&mut self.later, 0);
        Ok(())
    }

    /// An operation that may be taken comes, for which there is room.
    fn take(&mut self, kind: OpKind, alloc: Global) -> Result<(), AllocError>
        requires fits { FitsClient self.old }
        requires some { 0 < length self.old.table.rows.items }
        requires few { length self.old.table.rows.items + 1 < 2 ^ 32 }
        requires room { HasRooms self.old.table }
        requires later { vec_len self.old.later < vec_capacity self.old.later }
        requires limits { keeps_limits (op_of kind) ≡ true }
        requires made { is_create (op_of kind) ≡ false → (create : ℕ) → ((g : ℕ) → create_of g (op_of kind) ≡ create)
            → (0 < create) × (create < length self.old.table.rows.items)
            × (is_create_kind (row_at self.old.table.rows.items create).kind ≡ true) }
        ensures fits { FitsClient self.new }
        ensures shown { OnOk result ((c : Model) → ShowsClient self.old c → TableKept c
            → ShowsClient self.new (take_op c (length self.old.table.rows.items) (op_of kind))) }
        ensures kept { OnErr result ((c : Model) → ShowsClient self.old c → ShowsClient self.new c) }
    {
        match kind.create() {
            Some(create) => self.take_other(create, kind),
            None => self.take_create(kind, alloc),
        }
    }

    /// An operation is submitted under a number. False where it may not be taken: the number isn't the next one, it passes the limits
    /// of what a script gives, or it isn't on a create taken before; then nothing changes. Where memory runs out nothing is taken.
    pub fn submit(&mut self, number: u32, kind: OpKind, alloc: Global) -> Result<bool, AllocError>
        requires fits { FitsClient self.old }
        ensures fits { FitsClient self.new }
        ensures shown { OnOk result ((c : Model) → ShowsClient self.old c → TableKept c
            → ShowsClient self.new (client_after c (TakesOp number (op_of kind)))) }
        ensures told { IfOk result (λ taken. (c : Model) → ShowsClient self.old c → taken ≡ may c number (op_of kind)) }
        ensures kept { OnErr result ((c : Model) → ShowsClient self.old c → ShowsClient self.new c) }
        ensures order { OnErr result ((c : Model) → ShowsClient self.old c → may c number (op_of kind) ≡ true) }
    {
        if !may_take(&self.table, number, &kind) {
            return Ok(false);
        }
        self.make_way()?;
        self.take(kind, alloc)?;
        Ok(true)
    }
}
