//! A session's end, as its opens see it.
ghost use Rattle.std.specs.Prelude.{◌≡◌, ◌==◌, ◌⊎◌, ℕ, false, ◌++◌, ◌∷◌, [], None, Some, IfOk, OnOk, if◌then◌else◌, nat_eq};
ghost use Rattle.spec_exchange.specs.State.{Server};
ghost use Rattle.spec_exchange.specs.Effects.{plain_of, plain_in, leaves};
ghost use Rattle.law_server.specs.tables.Fits.{Fits};
ghost use Rattle.store_opens.specs.open_table.Shown.{ShowsOpens};
ghost use Rattle.store_opens.specs.open_table.Changes.{detached, first_above, HasNoPlain};
ghost use Rattle.store_opens.specs.open_table.Rows.{detached_row};
ghost use Rattle.store_opens.specs.open_table.Due.{IndexGrows, deadline_at};
ghost use Rattle.std.specs.HashMap.{get, hash_map_len};
ghost use Rattle.spec_exchange.specs.Table.{has};
ghost use Rattle.std.specs.BTreeSet.{IsOrdered};
ghost use Rattle.std.specs.Ordering.{nat_cmp};

use crate::open_table::due::deadline_behind;
use crate::open_table::row::Row;
use crate::open_table::table::Opens;
use std::alloc::AllocError;
use std::collections::{BTreeSet, HashMap};
use std::ops::Bound;

impl Opens {
    /// The opens that leave with their session, in the order of their ids.
    pub fn plain_opens(&self, session: u64) -> Result<Vec<u64>, AllocError>
        ensures { IfOk result (λ v. (s : Server) → Fits s → ShowsOpens self.now s → v.items ≡ plain_of s session) }
    {
        match self.sessions.get(&session) {
            Some(row) => self.all_plain(&row.plain, session),
            None => Ok(Vec::new(self.alloc)),
        }
    }

    // Those of a set that leave with this session.
    #[tactic(auto, unfolding(spec_exchange::specs::Effects::plain_in))]
    fn all_plain(&self, plain: &BTreeSet<u64>, session: u64) -> Result<Vec<u64>, AllocError>
        ensures listed { IfOk result (λ v. (s : Server) → Fits s → ShowsOpens self.now s → v.items ≡ plain_in s session plain.now.keys) }
        ensures ordered { IsOrdered nat_cmp plain.now }
    {
        let mut leaving = Vec::new(self.alloc);
        for id in plain {
            push_if(&mut leaving, *id, self.leaves(*id, session))?;
        }
        Ok(leaving)
    }

    /// The least of them above an id.
    pub fn plain_of(&self, session: u64, above: u64) -> Option<u64>
        ensures { (s : Server) → Fits s → ShowsOpens self.now s → result ≡ first_above above (plain_of s session) }
    {
        match self.sessions.get(&session) {
            Some(row) => self.first_plain(&row.plain, session, above),
            None => None,
        }
    }

    // The first of a set above an id that leaves with this session.
    #[tactic(auto, unfolding(spec_exchange::specs::Effects::plain_in))]
    fn first_plain(&self, plain: &BTreeSet<u64>, session: u64, above: u64) -> Option<u64>
        ensures first { (s : Server) → Fits s → ShowsOpens self.now s → result ≡ first_above above (plain_in s session plain.now.keys) }
        ensures ordered { IsOrdered nat_cmp plain.now }
    {
        for id in plain.range((Bound::Excluded(above), Bound::Unbounded)) {
            if self.leaves(*id, session) {
                return Some(*id);
            }
        }
        None
    }

    // Whether an open leaves with this session.
    fn leaves(&self, id: u64, session: u64) -> bool
        ensures { (s : Server) → Fits s → ShowsOpens self.now s → result ≡ leaves s session id }
    {
        match self.rows.get(&id) {
            Some(row) => row.session == Some(session) && !row.persistent,
            None => false,
        }
    }

    /// A session's persistent opens stay without it until their deadline, and what it kept is forgotten. Its plain ones are
    /// to have left before. It needs no memory.
    pub fn detach(&mut self, session: u64, now: u64)
        ensures { (s : Server) → Fits s → ShowsOpens self.old s → HasNoPlain s session → ShowsOpens self.new (detached s session now) }
    {
        if let Some(row) = self.sessions.remove(&session) {
            self.detach_all(&row.opens, session, now);
        }
    }

    // The opens of a list that are the session's stay without it.
    fn detach_all(&mut self, opens: &BTreeSet<u64>, session: u64, now: u64)
        ensures rows { (q : ℕ) → get nat_eq self.new.rows q
            ≡ (if has q opens.now.keys then detached_row session now (get nat_eq self.old.rows q) else get nat_eq
            self.old.rows q) }
        ensures len { hash_map_len self.new.rows ≡ hash_map_len self.old.rows }
        ensures indexed { IndexGrows (λ q. get nat_eq self.old.rows q) (λ q. get nat_eq self.new.rows q)
            self.old.deadlines self.new.deadlines }
        ensures rest { self.new ≡ record self.old { rows = self.new.rows; deadlines = self.new.deadlines } }
    {
        for id in opens {
            self.detach_one(*id, session, now);
        }
    }

    fn detach_one(&mut self, id: u64, session: u64, now: u64)
        ensures rows { (q : ℕ) → get nat_eq self.new.rows q
            ≡ (if q == id then detached_row session now (get nat_eq self.old.rows q) else get nat_eq self.old.rows q) }
        ensures len { hash_map_len self.new.rows ≡ hash_map_len self.old.rows }
        ensures indexed { IndexGrows (λ q. get nat_eq self.old.rows q) (λ q. get nat_eq self.new.rows q)
            self.old.deadlines self.new.deadlines }
        ensures rest { self.new ≡ record self.old { rows = self.new.rows; deadlines = self.new.deadlines } }
    {
        if let Some(deadline) = detach_row(&mut self.rows, id, session, now) {
            self.deadlines.add(deadline, id);
        }
    }
}

// The row of an open of this session stays without it. Tells the deadline that it gets.
fn detach_row(rows: &mut HashMap<u64, Row>, id: u64, session: u64, now: u64) -> Option<u64>
    ensures rows { (q : ℕ) → get nat_eq rows.new q ≡ (if q == id then detached_row session now (get nat_eq rows.old q)
        else get nat_eq rows.old q) }
    ensures len { hash_map_len rows.new ≡ hash_map_len rows.old }
    ensures told { (d : ℕ) → deadline_at (get nat_eq rows.new id) ≡ Some d
        → (deadline_at (get nat_eq rows.old id) ≡ Some d) ⊎ (result ≡ Some d) }
{
    match rows.get_mut(&id) {
        Some(row) => detach(row, session, now),
        None => None,
    }
}

fn detach(row: &mut Row, session: u64, now: u64) -> Option<u64>
    ensures row { Some row.new ≡ detached_row session now (Some row.old) }
    ensures told { (d : ℕ) → row.new.deadline ≡ Some d → (row.old.deadline ≡ Some d) ⊎ (result ≡ Some d) }
{
    if row.session != Some(session) {
        return None;
    }
    row.session = None;
    row.deadline = if row.persistent {
        Some(deadline_behind(now, row.timeout))
    } else {
        None
    };
    row.deadline
}

// The id is behind those of the list, where it is one.
pub(crate) fn push_if(list: &mut Vec<u64>, id: u64, is_one: bool) -> Result<(), AllocError>
    ensures { OnOk result (list.new.items ≡ (if is_one then list.old.items ++ id ∷ [] else list.old.items)) }
{
    if !is_one {
        return Ok(());
    }
    match list.push(id) {
        Ok(()) => return Ok(()),
        Err(_) => return Err(AllocError),
    }
}
