// A channel's dialog ends.
ghost use Rattle.std.specs.Prelude.{◌≡◌, false, OnErr, OnOk};
ghost use Rattle.spec_exchange.specs.Client.{Client, note_refusal};
ghost use Rattle.spec_exchange.specs.ClientStep.{becomes_ready, ready_after};
ghost use Rattle.client_values.specs.outcomes.Meaning.{refusal_of};
ghost use Rattle.client_rows.specs.session_state.Shown.{ready_at};
ghost use Rattle.client_tables.specs.whole_table.Shown.{TableFits, ShowsTable};

use crate::whole_table::parts::Table;
use client_values::RefusedDialog;
use std::alloc::AllocError;
use wire_bytes::Refusal;

impl Table {
    /// The dialog of a channel that isn't ready ended well, in a session with these ids. False where the channel can't be ready in it.
    pub fn ready(&mut self, channel: u8, session: u64, tree: u32) -> bool
        requires fits { TableFits self.old }
        requires apart { ready_at self.old.session channel ≡ false }
        ensures fits { TableFits self.new }
        ensures rows { self.new.rows ≡ self.old.rows }
        ensures shown { (c : Client) → ShowsTable self.old c → ShowsTable self.new (ready_after c channel session tree) }
        ensures told { (c : Client) → ShowsTable self.old c → result ≡ becomes_ready c session }
    {
        self.session.ready(channel as u32, session, tree)
    }

    /// The dialog of a channel was refused. Where memory runs out nothing changes.
    pub fn refused(&mut self, channel: u32, why: Refusal) -> Result<(), AllocError>
        requires fits { TableFits self.old }
        ensures fits { TableFits self.new }
        ensures rows { self.new.rows ≡ self.old.rows }
        ensures shown { OnOk result ((c : Client) → ShowsTable self.old c → ShowsTable self.new (note_refusal c channel (refusal_of why))) }
        ensures kept { OnErr result ((c : Client) → ShowsTable self.old c → ShowsTable self.new c) }
    {
        self.dialogs.push(RefusedDialog {
            connection: channel,
            refusal: why,
        })?;
        Ok(())
    }
}
