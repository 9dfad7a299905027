//! Sessions that are in the making, begin, and end.
ghost use Rattle.std.specs.Prelude.{◌≡◌, ◌<◌, ◌+◌, ◌==◌, ◌++◌, ◌∷◌, [], ℕ, nat_le, true, false, OnOk, Some, None, if◌then◌else◌};
ghost use Rattle.std.specs.Prelude.{nat_eq, vec_len, vec_capacity, Option};
ghost use Rattle.spec_exchange.specs.State.{Server};
ghost use Rattle.spec_exchange.specs.Effects.{next_session};
ghost use Rattle.spec_exchange.specs.CheckSetup.{max_numbers};
ghost use Rattle.law_server.specs.tables.Fits.{OnPresent};
ghost use Rattle.std.specs.HashMap.{get, spare, hash_map_len};
ghost use Rattle.spec_exchange.specs.Table.{has, put};
ghost use Rattle.server_checks.specs.session_table.Shown.{ShowsSessions, HasSessionRoom, HasLink, HasChannelRoom, RowHasRoom};
ghost use Rattle.server_checks.specs.session_table.Steps.{IsNewSession, DrawsChannel, SessionRowStays, with_making};
ghost use Rattle.server_checks.specs.session_table.Steps.{with_session, without_session};
ghost use Rattle.server_checks.specs.session_table.Changes.{challenged, challenged_binding, session_added, session_joined, session_gone};
ghost use Rattle.server_checks.specs.session_table.Logons.{LogonsShown, LogonsStay, pending_made};
ghost use Rattle.spec_crypto.specs.declared.sessions.material.Keys.{Keys};
ghost use Rattle.spec_crypto.specs.tokens.Tokens.{Pending};

use crate::session_table::links::put_connection;
use crate::session_table::row::{InMaking, Link, Purpose, SessionRow};
use crate::session_table::table::Sessions;
use crypto_sessions::Acceptor;
use std::alloc::AllocError;
use std::collections::HashMap;
use wire_bytes::Bytes;

impl Sessions {
    /// Makes room for what is in the making on a connection.
    pub fn reserve_link(&mut self, connection: u32) -> Result<(), AllocError>
        ensures same { (s : Server) → ShowsSessions self.old s → ShowsSessions self.new s }
        ensures room { OnOk result (HasLink self.new connection) }
        ensures rest { self.new ≡ record self.old { links = self.new.links } }
        ensures others { (k : ℕ) → HasLink self.old k → HasLink self.new k }
        ensures logons { LogonsStay self.old self.new }
    {
        if self.links.contains_key(&connection) {
            return Ok(());
        }
        self.links.reserve(1)?;
        put_link(&mut self.links, connection);
        Ok(())
    }

    /// Makes room for one more session.
    pub fn reserve_session(&mut self) -> Result<(), AllocError>
        ensures same { (s : Server) → ShowsSessions self.old s → ShowsSessions self.new s }
        ensures room { OnOk result (HasSessionRoom self.new) }
        ensures rest { self.new ≡ record self.old { rows = self.new.rows } }
        ensures logons { LogonsStay self.old self.new }
    {
        self.rows.reserve(1)
    }

    /// Makes room for one more channel of a live session; of another there is none.
    pub fn reserve_channel(&mut self, session: u64) -> Result<(), AllocError>
        ensures same { (s : Server) → ShowsSessions self.old s → ShowsSessions self.new s }
        ensures room { OnOk result (HasChannelRoom self.new session) }
        ensures rest { self.new ≡ record self.old { rows = self.new.rows } }
        ensures logons { LogonsStay self.old self.new }
    {
        grow_channels(&mut self.rows, session)
    }

    /// A new session is in the making on a connection, under the next id, which is answered.
    pub fn challenge(&mut self, connection: u32, list: Bytes, acceptor: Acceptor) -> u64
        requires { HasLink self.old connection × (self.old.given < 0xffff_ffff) }
        ensures id { (s : Server) → ShowsSessions self.old s → result ≡ next_session s }
        ensures shows { (s : Server) → ShowsSessions self.old s → ShowsSessions self.new (challenged s connection) }
        ensures logons { (keys : ℕ → Keys) (pending : ℕ → Option Pending) → LogonsShown self.old keys pending
            → LogonsShown self.new keys (put pending connection (Some (pending_made list acceptor))) }
    {
        self.given = self.given.saturating_add(1);
        let id = u64::from(self.epoch) * 0x1_0000_0000 + u64::from(self.given);
        put_making(
            &mut self.links,
            connection,
            InMaking {
                purpose: Purpose::New(id),
                list,
                acceptor,
            },
        );
        id
    }

    /// A further channel of a session is in the making on a connection.
    pub fn challenge_binding(
        &mut self,
        connection: u32,
        session: u64,
        list: Bytes,
        acceptor: Acceptor,
    )
        requires { HasLink self.old connection }
        ensures shows { (s : Server) → ShowsSessions self.old s → ShowsSessions self.new (challenged_binding s connection session) }
        ensures logons { (keys : ℕ → Keys) (pending : ℕ → Option Pending) → LogonsShown self.old keys pending
            → LogonsShown self.new keys (put pending connection (Some (pending_made list acceptor))) }
    {
        put_making(
            &mut self.links,
            connection,
            InMaking {
                purpose: Purpose::Binding(session),
                list,
                acceptor,
            },
        );
    }

    /// A session of a row that was just made begins on a connection, with its first channel.
    pub fn add(&mut self, connection: u32, session: u64, row: SessionRow)
        requires { HasSessionRoom self.old × HasLink self.old connection }
        ensures shows { (s : Server) → ShowsSessions self.old s → OnPresent s → s.present session ≡ false → IsNewSession row connection
            → ShowsSessions self.new (session_added s connection session row.user row.client row.cipher row.signing) }
        ensures logons { (keys : ℕ → Keys) (pending : ℕ → Option Pending) → LogonsShown self.old keys pending
            → LogonsShown self.new (put keys session row.keys) pending }
    {
        put_session(&mut self.rows, session, row);
        put_live(&mut self.links, connection, session);
    }

    /// A session has a further channel on a connection. Its number, the next one of the session, is answered.
    pub fn join(&mut self, connection: u32, session: u64) -> u32
        requires { HasLink self.old connection × HasChannelRoom self.old session }
        ensures number { (s : Server) → ShowsSessions self.old s → s.present session ≡ true
            → nat_le max_numbers (s.channel_numbers_drawn session) ≡ false → result ≡ s.channel_numbers_drawn session + 1 }
        ensures shows { (s : Server) → ShowsSessions self.old s → s.present session ≡ true
            → nat_le max_numbers (s.channel_numbers_drawn session) ≡ false → ShowsSessions self.new (session_joined s connection session) }
        ensures logons { LogonsStay self.old self.new }
    {
        put_live(&mut self.links, connection, session);
        draw_channel(&mut self.rows, session, connection)
    }

    /// A session is gone, with its channels and trees. It takes no memory. Tells whether it was live.
    pub fn remove(&mut self, session: u64) -> bool
        ensures told { (s : Server) → ShowsSessions self.old s → result ≡ s.present session }
        ensures shows { (s : Server) → ShowsSessions self.old s → s.present session ≡ true
            → ShowsSessions self.new (session_gone s session) }
        ensures same { (s : Server) → ShowsSessions self.old s → s.present session ≡ false → ShowsSessions self.new s }
        ensures room { HasSessionRoom self.old → HasSessionRoom self.new }
        ensures links { (k : ℕ) → HasLink self.old k → HasLink self.new k }
        ensures logons { LogonsStay self.old self.new }
    {
        match self.rows.remove(&session) {
            Some(row) => {
                clear_links(&mut self.links, row.channels.as_slice(), session);
                true
            }
            None => false,
        }
    }
}

// The connection has an empty row.
fn put_link(links: &mut HashMap<u32, Link>, connection: u32)
    requires { 0 < spare links.old }
    ensures { (q : ℕ) → get nat_eq links.new q ≡ (if q == connection then Some (record {
      session = None;
      making =
          None;
    }) else get nat_eq links.old q) }
{
    let _ = links.insert(
        connection,
        Link {
            session: None,
            making: None,
        },
    );
}

// This is in the making on a connection that has a row.
fn put_making(links: &mut HashMap<u32, Link>, connection: u32, making: InMaking)
    ensures { (q : ℕ) → get nat_eq links.new q
        ≡ (if q == connection then with_making making (get nat_eq links.old q) else get nat_eq links.old q) }
{
    if let Some(link) = links.get_mut(&connection) {
        link.making = Some(making);
    }
}

// The session has a channel on a connection that has a row, and nothing is in the making there any more.
fn put_live(links: &mut HashMap<u32, Link>, connection: u32, session: u64)
    ensures { (q : ℕ) → get nat_eq links.new q
        ≡ (if q == connection then with_session session (get nat_eq links.old q) else get nat_eq links.old q) }
{
    if let Some(link) = links.get_mut(&connection) {
        link.session = Some(session);
        link.making = None;
    }
}

// There is room for one more channel of a session.
fn grow_channels(rows: &mut HashMap<u64, SessionRow>, session: u64) -> Result<(), AllocError>
    ensures others { (q : ℕ) → (q == session) ≡ false → get nat_eq rows.new q ≡ get nat_eq rows.old q }
    ensures here { SessionRowStays (get nat_eq rows.old session) (get nat_eq rows.new session) }
    ensures len { hash_map_len rows.new ≡ hash_map_len rows.old }
    ensures room { OnOk result (RowHasRoom (get nat_eq rows.new session)) }
{
    match rows.get_mut(&session) {
        Some(row) => row.channels.reserve(1),
        None => Err(AllocError),
    }
}

// The session has no channel on these connections any more.
fn clear_links(links: &mut HashMap<u32, Link>, channels: &[u32], session: u64)
    ensures { (q : ℕ) → get nat_eq links.new q
        ≡ (if has q channels.now then without_session session (get nat_eq links.old q) else get nat_eq links.old q) }
{
    for connection in channels {
        clear_link(links, *connection, session);
    }
}

fn clear_link(links: &mut HashMap<u32, Link>, connection: u32, session: u64)
    ensures { (q : ℕ) → get nat_eq links.new q
        ≡ (if q == connection then without_session session (get nat_eq links.old q) else get nat_eq links.old q) }
{
    if let Some(link) = links.get_mut(&connection) {
        if link.session == Some(session) {
            link.session = None;
        }
    }
}

// The row stands at a new key.
fn put_session(rows: &mut HashMap<u64, SessionRow>, session: u64, row: SessionRow)
    requires { 0 < spare rows.old }
    ensures at { (q : ℕ) → get nat_eq rows.new q ≡ (if q == session then Some row else get nat_eq rows.old q) }
    ensures len { get nat_eq rows.old session ≡ None → hash_map_len rows.new ≡ hash_map_len rows.old + 1 }
{
    let _ = rows.insert(session, row);
}

// A session has a further channel. Its number is answered.
fn draw_channel(rows: &mut HashMap<u64, SessionRow>, session: u64, connection: u32) -> u32
    requires { RowHasRoom (get nat_eq rows.old session) }
    ensures others { (q : ℕ) → (q == session) ≡ false → get nat_eq rows.new q ≡ get nat_eq rows.old q }
    ensures here { DrawsChannel (get nat_eq rows.old session) (get nat_eq rows.new session) connection result }
    ensures len { hash_map_len rows.new ≡ hash_map_len rows.old }
{
    match rows.get_mut(&session) {
        Some(row) => draw(row, connection),
        None => 0,
    }
}

fn draw(row: &mut SessionRow, connection: u32) -> u32
    requires { vec_len row.old.channels < vec_capacity row.old.channels }
    ensures { DrawsChannel (Some row.old) (Some row.new) connection result }
{
    put_connection(&mut row.channels, connection);
    // Never given back: a channel's nonces have its number, and none may come twice.
    row.drawn = row.drawn.saturating_add(1);
    row.drawn
}
