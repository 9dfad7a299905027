//! When opens without a session expire.
ghost use Rattle.std.specs.Prelude.{◌≡◌, ◌*◌, ◌≤◌, ◌==◌, ℕ, [], Option, Bool, true, false, None, Some, min, if◌then◌else◌, nat_eq};
ghost use Rattle.std.specs.HashMap.{get, hash_map_len, spare};
ghost use Rattle.std.specs.BTreeSet.{contains, IsOrdered};
ghost use Rattle.std.specs.List.{All};
ghost use Rattle.spec_exchange.specs.Table.{has};
ghost use Rattle.std.specs.Ordering.{nat_cmp};
ghost use Rattle.spec_exchange.specs.State.{Server};
ghost use Rattle.spec_exchange.specs.Effects.{deadline_behind};
ghost use Rattle.spec_exchange.specs.Step.{due, due_in, with_deadlines, is_past};
ghost use Rattle.law_server.specs.tables.Fits.{Fits};
ghost use Rattle.store_opens.specs.open_table.Shown.{ShowsOpens, HasOpensRoom, HasRoomIn, HasOpensSessionRoom};
ghost use Rattle.store_opens.specs.open_table.Due.{IndexGrows, deadline_at, dated_row, with_deadline, least_past_in};
ghost use Rattle.store_opens.specs.open_table.Due.{least_dated_in, lesser, first_of};
ghost use Rattle.store_opens.specs.open_index.Index.{indexes};

use crate::open_table::row::Row;
use crate::open_table::table::Opens;
use std::collections::{BTreeSet, HashMap};
use std::mem;

// When an open that loses its session now expires: 10,000 steps of 100 nanoseconds a millisecond; the clock stands still
// at its end.
pub(crate) fn deadline_behind(now: u64, timeout: u32) -> u64
    ensures { result ≡ deadline_behind now timeout }
{
    now.saturating_add(10_000 * u64::from(timeout))
}

impl Opens {
    /// The open of the least id whose deadline isn't above `now`. An open that recovery found counts with the deadline that
    /// `date` would give it. What is shown stays as it was. It needs no memory.
    pub fn due(&mut self, now: u64) -> Option<u64>
        ensures due { (s : Server) → Fits s → ShowsOpens self.old s → result ≡ due (with_deadlines s now) now }
        ensures shows { (s : Server) → ShowsOpens self.old s → ShowsOpens self.new s }
        ensures rest { self.new ≡ record self.old { deadlines = self.new.deadlines } }
    {
        self.move_past(now);
        let least = self.past(now);
        least_undated(&self.rows, self.undated.as_slice(), now, least)
    }

    // The open of the least id that has a deadline, where that isn't above now.
    fn past(&self, now: u64) -> Option<u64>
        ensures { (s : Server) → Fits s → ShowsOpens self.now s
            → (self.now.deadlines.is_whole ≡ true → (o d : ℕ) → s.deadline o ≡ Some d → d ≤ now
            → contains nat_cmp self.now.deadlines.overdue o ≡ true)
            → result ≡ due s now }
    {
        if self.deadlines.is_whole {
            return first_past(&self.rows, &self.deadlines.overdue, now);
        }
        least_past(&self.rows, now)
    }

    /// Opens that recovery found get their deadlines. It needs no memory.
    pub fn date(&mut self, now: u64)
        ensures room { HasOpensRoom self.old → HasOpensRoom self.new }
        ensures in_session { (x o : ℕ) → HasOpensSessionRoom self.old x o → HasOpensSessionRoom self.new x o }
        ensures in_new { (session : Option ℕ) (o : ℕ) (persistent : Bool) → HasRoomIn self.old session o persistent
            → HasRoomIn self.new session o persistent }
        ensures rest { self.new ≡ record self.old { rows = self.new.rows; deadlines = self.new.deadlines; undated = self.new.undated } }
        ensures shown { (s : Server) → ShowsOpens self.old s → ShowsOpens self.new (with_deadlines s now) }
        ensures none { self.new.undated.items ≡ [] }
    {
        if self.undated.is_empty() {
            return;
        }
        self.date_all(now);
    }

    // The opens whose deadline is met go over in the index.
    fn move_past(&mut self, now: u64)
        ensures shows { (s : Server) → ShowsOpens self.old s → ShowsOpens self.new s }
        ensures past { (s : Server) → ShowsOpens self.old s → self.new.deadlines.is_whole ≡ true → (o d : ℕ)
            → s.deadline o ≡ Some d → d ≤ now
            → contains nat_cmp self.new.deadlines.overdue o ≡ true }
        ensures rest { self.new ≡ record self.old { deadlines = self.new.deadlines } }
    {
        self.deadlines.move_past(now);
    }

    // The list of those that wait keeps its room.
    fn date_all(&mut self, now: u64)
        ensures room { HasOpensRoom self.old → HasOpensRoom self.new }
        ensures in_session { (x o : ℕ) → HasOpensSessionRoom self.old x o → HasOpensSessionRoom self.new x o }
        ensures in_new { (session : Option ℕ) (o : ℕ) (persistent : Bool) → HasRoomIn self.old session o persistent
            → HasRoomIn self.new session o persistent }
        ensures rest { self.new ≡ record self.old { rows = self.new.rows; deadlines = self.new.deadlines; undated = self.new.undated } }
        ensures shown { (s : Server) → ShowsOpens self.old s → ShowsOpens self.new (with_deadlines s now) }
        ensures none { self.new.undated.items ≡ [] }
    {
        let mut undated = mem::replace(&mut self.undated, Vec::new(self.alloc));
        self.date_each(undated.as_slice(), now);
        undated.clear();
        self.undated = undated;
    }

    // Those of a list that have neither a session nor a deadline get their first one.
    fn date_each(&mut self, undated: &[u64], now: u64)
        ensures rows { (q : ℕ) → get nat_eq self.new.rows q
            ≡ (if has q undated.now then dated_row now (get nat_eq self.old.rows q) else get nat_eq self.old.rows q) }
        ensures len { hash_map_len self.new.rows ≡ hash_map_len self.old.rows }
        ensures room { spare self.new.rows ≡ spare self.old.rows }
        ensures indexed { IndexGrows (λ q. get nat_eq self.old.rows q) (λ q. get nat_eq self.new.rows q)
            self.old.deadlines self.new.deadlines }
        ensures rest { self.new ≡ record self.old { rows = self.new.rows; deadlines = self.new.deadlines } }
    {
        for id in undated {
            self.date_one(*id, now);
        }
    }

    // An open that has neither a session nor a deadline gets its first one.
    fn date_one(&mut self, id: u64, now: u64)
        ensures rows { (q : ℕ) → get nat_eq self.new.rows q
            ≡ (if q == id then dated_row now (get nat_eq self.old.rows q) else get nat_eq self.old.rows q) }
        ensures len { hash_map_len self.new.rows ≡ hash_map_len self.old.rows }
        ensures room { spare self.new.rows ≡ spare self.old.rows }
        ensures indexed { IndexGrows (λ q. get nat_eq self.old.rows q)
            (λ q. get nat_eq self.new.rows q) self.old.deadlines self.new.deadlines }
        ensures rest { self.new ≡ record self.old { rows = self.new.rows; deadlines = self.new.deadlines } }
    {
        if let Some(deadline) = first_deadline(&self.rows, id, now) {
            self.set_deadline(id, deadline);
        }
    }

    // An open gets a deadline, in its row and in the index.
    pub(crate) fn set_deadline(&mut self, id: u64, deadline: u64)
        ensures rows { (q : ℕ) → get nat_eq self.new.rows q
            ≡ (if q == id then with_deadline deadline (get nat_eq self.old.rows q) else get nat_eq self.old.rows q) }
        ensures len { hash_map_len self.new.rows ≡ hash_map_len self.old.rows }
        ensures room { spare self.new.rows ≡ spare self.old.rows }
        ensures here { self.new.deadlines.is_whole ≡ true → indexes self.new.deadlines deadline id ≡ true }
        ensures others { (o d : ℕ) → indexes self.old.deadlines d o ≡ true → indexes self.new.deadlines d o ≡ true }
        ensures whole { self.new.deadlines.is_whole ≡ true → self.old.deadlines.is_whole ≡ true }
        ensures rest { self.new ≡ record self.old { rows = self.new.rows; deadlines = self.new.deadlines } }
    {
        put_deadline(&mut self.rows, id, deadline);
        self.deadlines.add(deadline, id);
    }
}

// The deadline of an open that has one.
pub(crate) fn deadline_at(rows: &HashMap<u64, Row>, id: u64) -> Option<u64>
    ensures { result ≡ deadline_at (get nat_eq rows.now id) }
{
    match rows.get(&id) {
        Some(row) => row.deadline,
        None => None,
    }
}

// The first deadline of an open that has neither one nor a session.
fn first_deadline(rows: &HashMap<u64, Row>, id: u64, now: u64) -> Option<u64>
    ensures { result ≡ first_of now (get nat_eq rows.now id) }
{
    match rows.get(&id) {
        Some(row) => first_of_row(row, now),
        None => None,
    }
}

fn first_of_row(row: &Row, now: u64) -> Option<u64>
    ensures { result ≡ first_of now (Some row.now) }
{
    if row.session.is_none() && row.deadline.is_none() {
        return Some(deadline_behind(now, row.timeout));
    }
    None
}

fn put_deadline(rows: &mut HashMap<u64, Row>, id: u64, deadline: u64)
    ensures rows { (q : ℕ) → get nat_eq rows.new q
        ≡ (if q == id then with_deadline deadline (get nat_eq rows.old q) else get nat_eq rows.old q) }
    ensures len { hash_map_len rows.new ≡ hash_map_len rows.old }
    ensures room { spare rows.new ≡ spare rows.old }
{
    if let Some(row) = rows.get_mut(&id) {
        row.deadline = Some(deadline);
    }
}

// The first of those that went over whose deadline isn't above now: the clock may have gone back.
#[tactic(auto, unfolding(spec_exchange::specs::Step::due_in))]
fn first_past(rows: &HashMap<u64, Row>, overdue: &BTreeSet<u64>, now: u64) -> Option<u64>
    ensures due { result ≡ due_in (λ o. deadline_at (get nat_eq rows.now o)) overdue.now.keys now }
    ensures ordered { IsOrdered nat_cmp overdue.now }
{
    for id in overdue {
        if is_met(deadline_at(rows, *id), now) {
            return Some(*id);
        }
    }
    None
}

// The same without the index, by a look at each open.
fn least_past(rows: &HashMap<u64, Row>, now: u64) -> Option<u64>
    ensures least { result ≡ least_past_in now rows.now.entries }
    ensures found { All (λ e. get nat_eq rows.now e.0 ≡ Some e.1) rows.now.entries }
{
    let mut least = None;
    for (id, row) in rows.iter() {
        least = with_past(least, *id, row.deadline, now);
    }
    least
}

// The least of an id that was found before and of those in a list that have no deadline, and whose first one isn't above
// now.
fn least_undated(
    rows: &HashMap<u64, Row>,
    undated: &[u64],
    now: u64,
    found: Option<u64>,
) -> Option<u64>
    ensures { result ≡ least_dated_in (λ o. get nat_eq rows.now o) now undated.now found }
{
    let mut least = found;
    for id in undated {
        least = with_past(least, *id, first_deadline(rows, *id, now), now);
    }
    least
}

// The lesser of an id that was found before and of one whose deadline isn't above now.
fn with_past(least: Option<u64>, id: u64, deadline: Option<u64>, now: u64) -> Option<u64>
    ensures { result ≡ (if is_past now deadline then Some (lesser id least) else least) }
{
    if is_met(deadline, now) {
        return Some(lesser(id, least));
    }
    least
}

// The deadline isn't above now.
fn is_met(deadline: Option<u64>, now: u64) -> bool
    ensures { result ≡ is_past now deadline }
{
    match deadline {
        Some(deadline) => deadline <= now,
        None => false,
    }
}

fn lesser(id: u64, least: Option<u64>) -> u64
    ensures { result ≡ lesser id least }
{
    match least {
        Some(other) => id.min(other),
        None => id,
    }
}
