//! What the table tells. None of it takes memory.
ghost use Rattle.std.specs.Prelude.{◌≡◌, ◌<◌, ◌≤◌, ◌||◌, IsSome, ℕ, if◌then◌else◌, nat_le, nat_lt, length, true, None};
ghost use Rattle.std.specs.Prelude.{Some, option_copied, option_map, Option};
ghost use Rattle.spec_exchange.specs.Table.{is_at};
ghost use Rattle.spec_exchange.specs.State.{Server};
ghost use Rattle.spec_exchange.specs.Opens.{max_ids};
ghost use Rattle.spec_exchange.specs.CheckSetup.{count_channels, tree_in, no_tree_left, max_trees, last_tree};
ghost use Rattle.spec_exchange.specs.Effects.{next_session};
ghost use Rattle.law_server.specs.tables.Fits.{Fits};
ghost use Rattle.server_checks.specs.session_table.Shown.{ShowsSessions, SessionRowFound, UserFound, making_of};
ghost use Rattle.server_checks.specs.session_table.Logons.{LogonsShown, KeysShown, PendingShown};
ghost use Rattle.spec_crypto.specs.declared.sessions.material.Keys.{Keys};
ghost use Rattle.spec_crypto.specs.tokens.Tokens.{Pending};

use crate::session_table::row::{InMaking, SessionRow};
use crate::session_table::table::Sessions;
use spec_exchange::values::Tree;

// The ids of one epoch are counted from 1 in 32 bits.
const MAX_IDS: u32 = 0xffff_ffff;

// The limits of trees of a session, and the last id of a tree.
const MAX_TREES: usize = 64;

const LAST_TREE: u64 = 0xffff_ffff;

impl Sessions {
    /// How many sessions are live.
    pub fn count(&self) -> usize
        ensures { (s : Server) → ShowsSessions self.now s → result ≡ s.sessions }
    {
        self.rows.len()
    }

    /// Whether a session is live.
    pub fn is_present(&self, session: u64) -> bool
        ensures { (s : Server) → ShowsSessions self.now s → result ≡ s.present session }
    {
        self.rows.contains_key(&session)
    }

    /// The row of a session.
    pub fn row(&self, session: u64) -> Option<&SessionRow>
        ensures shows { (s : Server) → ShowsSessions self.now s → SessionRowFound (option_copied result) s session }
        ensures keys { (keys : ℕ → Keys) (pending : ℕ → Option Pending) → LogonsShown self.now keys pending
            → KeysShown (option_copied result) (keys session) }
    {
        self.rows.get(&session)
    }

    /// The id of the next session; none where the epoch's ids are all given.
    pub fn next_id(&self) -> Option<u64>
        ensures left { IsSome result → self.now.given < 0xffff_ffff }
        ensures shown { (s : Server) → ShowsSessions self.now s
            → result ≡ (if nat_le max_ids s.session_ids_given then None else Some (next_session s)) }
    {
        if self.given == MAX_IDS {
            return None;
        }
        Some(u64::from(self.epoch) * 0x1_0000_0000 + u64::from(self.given) + 1)
    }

    /// The live session that has a channel on a connection.
    pub fn on(&self, connection: u32) -> Option<u64>
        ensures { (s : Server) → ShowsSessions self.now s → result ≡ s.session_on connection }
    {
        match self.links.get(&connection) {
            Some(link) => link.session,
            None => None,
        }
    }

    /// Whether a session has a live channel on a connection.
    pub fn is_on(&self, session: u64, connection: u32) -> bool
        ensures { (s : Server) → ShowsSessions self.now s → result ≡ is_at session (s.session_on connection) }
    {
        match self.on(connection) {
            Some(live) => live == session,
            None => false,
        }
    }

    /// The user of a session that has a live channel on a connection.
    pub fn live(&self, session: u64, connection: u32) -> Option<&str>
        ensures { (s : Server) → Fits s → ShowsSessions self.now s
            → UserFound (option_map (λ u. u.now) result) (is_at session (s.session_on connection)) (s.user session) }
    {
        if !self.is_on(session, connection) {
            return None;
        }
        match self.rows.get(&session) {
            Some(row) => Some(row.user.as_str()),
            None => None,
        }
    }

    /// What is in the making on a connection.
    pub fn making(&self, connection: u32) -> Option<&InMaking>
        ensures shows { (s : Server) → ShowsSessions self.now s → making_of (option_copied result) ≡ s.making connection }
        ensures pending { (keys : ℕ → Keys) (pending : ℕ → Option Pending) → LogonsShown self.now keys pending
            → PendingShown (option_copied result) (pending connection) }
    {
        match self.links.get(&connection) {
            Some(link) => link.making.as_ref(),
            None => None,
        }
    }

    /// The connections in the order in which they came.
    pub fn connections(&self) -> &[u32]
        ensures { (s : Server) → ShowsSessions self.now s → result.now ≡ s.connections }
    {
        self.order.as_slice()
    }

    /// How many channels a session has on them.
    pub fn channels(&self, session: u64) -> usize
        ensures { (s : Server) → ShowsSessions self.now s → result ≡ count_channels s.session_on s.connections session }
    {
        self.channels_among(self.connections(), session)
    }

    fn channels_among(&self, connections: &[u32], session: u64) -> usize
        ensures { (s : Server) → ShowsSessions self.now s → result ≡ count_channels s.session_on connections.now session }
    {
        let mut count = 0;
        for connection in connections {
            count += self.channels_on(*connection, session);
        }
        count
    }

    fn channels_on(&self, connection: u32, session: u64) -> usize
        ensures few { result ≤ 1 }
        ensures counted { (s : Server) → ShowsSessions self.now s → result ≡ (if is_at session (s.session_on connection) then 1 else 0) }
    {
        if self.is_on(session, connection) {
            1
        } else {
            0
        }
    }

    /// Whether a tree of a session is that of the pipes, where it is there.
    pub fn tree(&self, session: u64, tree: u32) -> Option<bool>
        ensures { (s : Server) → ShowsSessions self.now s → result ≡ tree_in (s.trees session) tree }
    {
        match self.rows.get(&session) {
            Some(row) => pipes_of(row.trees.as_slice(), tree),
            None => None,
        }
    }

    /// Whether a session has as many trees as it may, or each id was given.
    pub fn no_tree_left(&self, session: u64) -> bool
        ensures { (s : Server) → ShowsSessions self.now s → s.present session ≡ true → result ≡ no_tree_left s session }
    {
        match self.rows.get(&session) {
            Some(row) => is_full(row),
            None => false,
        }
    }
}

fn is_full(row: &SessionRow) -> bool
    ensures { result ≡ (nat_le max_trees (length row.now.trees.items) || nat_lt last_tree row.now.next_tree) }
{
    row.trees.len() >= MAX_TREES || row.next_tree > LAST_TREE
}

// Whether a tree among these is that of the pipes, where it is there.
fn pipes_of(trees: &[Tree], tree: u32) -> Option<bool>
    ensures { result ≡ tree_in trees.now tree }
{
    for one in trees {
        if one.id == tree {
            return Some(one.pipes);
        }
    }
    None
}
