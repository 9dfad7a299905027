//! Connections that come and go (MS-SMB2 3.3.5.1, 3.3.7.1).
ghost use Rattle.std.specs.Prelude.{◌≡◌, ◌==◌, ◌<◌, ◌++◌, ◌∷◌, [], ℕ, OnOk, None, false, if◌then◌else◌, nat_eq, vec_len, vec_capacity};
ghost use Rattle.std.specs.HashMap.{get, hash_map_len};
ghost use Rattle.spec_exchange.specs.Table.{without};
ghost use Rattle.spec_exchange.specs.State.{Server};
ghost use Rattle.spec_exchange.specs.Step.{ends_with, forget_connection};
ghost use Rattle.server_checks.specs.session_table.Shown.{ShowsSessions, HasConnectionRoom};
ghost use Rattle.server_checks.specs.session_table.Steps.{DropsChannel, RowParts};
ghost use Rattle.server_checks.specs.session_table.Changes.{connection_taken_in};
ghost use Rattle.server_checks.specs.session_table.Logons.{LogonsStay};

use crate::session_table::row::{Link, SessionRow};
use crate::session_table::table::Sessions;
use std::alloc::AllocError;
use std::collections::HashMap;

impl Sessions {
    /// Makes room for one more connection.
    pub fn reserve_connection(&mut self) -> Result<(), AllocError>
        ensures same { (s : Server) → ShowsSessions self.old s → ShowsSessions self.new s }
        ensures room { OnOk result (HasConnectionRoom self.new) }
        ensures rest { self.new ≡ record self.old { order = self.new.order } }
        ensures logons { LogonsStay self.old self.new }
    {
        self.order.reserve(1)
    }

    /// A connection comes.
    pub fn take_in(&mut self, connection: u32)
        requires { HasConnectionRoom self.old }
        ensures shows { (s : Server) → ShowsSessions self.old s → ShowsSessions self.new (connection_taken_in s connection) }
        ensures logons { LogonsStay self.old self.new }
    {
        put_connection(&mut self.order, connection);
    }

    /// The session that has its last channel on a connection.
    pub fn ends_with(&self, connection: u32) -> Option<u64>
        ensures { (s : Server) → ShowsSessions self.now s → result ≡ ends_with s connection }
    {
        let session = self.on(connection)?;
        if self.channels(session) <= 1 {
            return Some(session);
        }
        None
    }

    /// A connection is gone.
    pub fn forget(&mut self, connection: u32)
        ensures shows { (s : Server) → ShowsSessions self.old s → ShowsSessions self.new (forget_connection s connection) }
        ensures logons { LogonsStay self.old self.new }
    {
        let session = self.on(connection);
        drop_channel(&mut self.rows, session, connection);
        drop_connection(&mut self.order, connection);
        drop_link(&mut self.links, connection);
    }
}

// The session, where there is one, has no channel on the connection any more.
fn drop_channel(rows: &mut HashMap<u64, SessionRow>, session: Option<u64>, connection: u32)
    ensures rows { (y : ℕ) → DropsChannel (get nat_eq rows.old y) (get nat_eq rows.new y) connection }
    ensures len { hash_map_len rows.new ≡ hash_map_len rows.old }
{
    if let Some(session) = session {
        part_channel(rows, session, connection);
    }
}

fn part_channel(rows: &mut HashMap<u64, SessionRow>, session: u64, connection: u32)
    ensures others { (q : ℕ) → (q == session) ≡ false → get nat_eq rows.new q ≡ get nat_eq rows.old q }
    ensures here { DropsChannel (get nat_eq rows.old session) (get nat_eq rows.new session) connection }
    ensures len { hash_map_len rows.new ≡ hash_map_len rows.old }
{
    if let Some(row) = rows.get_mut(&session) {
        part(row, connection);
    }
}

fn part(row: &mut SessionRow, connection: u32)
    ensures { RowParts row.old row.new connection }
{
    drop_connection(&mut row.channels, connection);
}

pub(crate) fn put_connection(connections: &mut Vec<u32>, connection: u32)
    requires { vec_len connections.old < vec_capacity connections.old }
    ensures { connections.new.items ≡ connections.old.items ++ connection ∷ [] }
{
    let _ = connections.push(connection);
}

fn drop_connection(connections: &mut Vec<u32>, connection: u32)
    ensures { connections.new.items ≡ without connection connections.old.items }
{
    connections.retain(|other| *other != connection);
}

fn drop_link(links: &mut HashMap<u32, Link>, connection: u32)
    ensures { (q : ℕ) → get nat_eq links.new q ≡ (if q == connection then None else get nat_eq links.old q) }
{
    let _ = links.remove(&connection);
}
