//! The index of deadlines: by deadline until one is met, and then by the ids of their opens.
ghost use Rattle.std.specs.Prelude.{◌≡◌, ◌+◌, ◌≤◌, ◌==◌, ℕ, true, false, None, Some, IfSome, IfNone, OnOk};
ghost use Rattle.std.specs.BTreeSet.{contains, btree_set_len};
ghost use Rattle.std.specs.Ordering.{nat_cmp};
ghost use Rattle.store_opens.specs.open_index.Index.{pair_cmp, indexes};

use std::alloc::{AllocError, Global};
use std::collections::BTreeSet;

/// Deadlines, each with its open; perhaps with some that are over.
#[derive(Drop)]
pub struct Deadlines {
    // Two sets: deadlines are met in their order, but among those that were met the least id expires first.
    /// Those that were not met yet.
    pub pending: BTreeSet<(u64, u64)>,
    /// Opens whose deadline was met once.
    pub overdue: BTreeSet<u64>,
    // A set has no reserve. Where a deadline finds no memory, `due` looks through the rows, and no event fails by it.
    /// No deadline is missing for want of memory.
    pub is_whole: bool,
}

impl Deadlines {
    /// No deadlines. It takes no memory.
    pub fn new(alloc: Global) -> Deadlines
        ensures whole { result.is_whole ≡ true }
        ensures empty { (o d : ℕ) → indexes result d o ≡ false }
    {
        Deadlines {
            pending: BTreeSet::new(alloc),
            overdue: BTreeSet::new(alloc),
            is_whole: true,
        }
    }

    /// Takes a deadline in. Where there is no memory for it, the index isn't whole any more.
    pub fn add(&mut self, deadline: u64, id: u64)
        ensures here { self.new.is_whole ≡ true → indexes self.new deadline id ≡ true }
        ensures others { (o d : ℕ) → indexes self.old d o ≡ true → indexes self.new d o ≡ true }
        ensures whole { self.new.is_whole ≡ true → self.old.is_whole ≡ true }
    {
        match put_pending(&mut self.pending, deadline, id) {
            Ok(()) => {}
            Err(_) => self.is_whole = false,
        }
    }

    /// Takes the deadline of an open out, where it has one.
    pub fn forget(&mut self, deadline: Option<u64>, id: u64)
        ensures others { (o d : ℕ) → (o == id) ≡ false → indexes self.old d o ≡ true → indexes self.new d o ≡ true }
        ensures whole { self.new.is_whole ≡ self.old.is_whole }
        ensures none { deadline ≡ None → self.new ≡ self.old }
        ensures gone { (d : ℕ) → deadline ≡ Some d → indexes self.new d id ≡ false }
    {
        if let Some(deadline) = deadline {
            drop_pending(&mut self.pending, deadline, id);
            drop_overdue(&mut self.overdue, id);
        }
    }

    /// The opens whose deadline is met go over.
    pub fn move_past(&mut self, now: u64)
        ensures kept { self.new.is_whole ≡ true → (o d : ℕ) → indexes self.old d o ≡ true → indexes self.new d o ≡ true }
        ensures whole { self.new.is_whole ≡ true → self.old.is_whole ≡ true }
        ensures past { (o d : ℕ) → d ≤ now → contains pair_cmp self.new.pending (d, o) ≡ false }
    {
        while let Some(id) = self.next_past(now) {
            self.put_overdue(id);
        }
    }

    // An open is among those whose deadline was met.
    fn put_overdue(&mut self, id: u64)
        ensures here { self.new.is_whole ≡ true → contains nat_cmp self.new.overdue id ≡ true }
        ensures others { (o : ℕ) → contains nat_cmp self.old.overdue o ≡ true → contains nat_cmp self.new.overdue o ≡ true }
        ensures whole { self.new.is_whole ≡ true → self.old.is_whole ≡ true }
        ensures pending { self.new.pending ≡ self.old.pending }
    {
        match self.overdue.insert(id) {
            Ok(_) => {}
            Err(_) => self.is_whole = false,
        }
    }

    // Takes the first deadline out where it is met, and tells its open.
    fn next_past(&mut self, now: u64) -> Option<u64>
        ensures others { IfSome result (λ id. (o d : ℕ) → (o == id) ≡ false
            → contains pair_cmp self.new.pending (d, o) ≡ contains pair_cmp self.old.pending (d, o)) }
        ensures fewer { IfSome result (λ id. btree_set_len self.new.pending + 1 ≡ btree_set_len self.old.pending) }
        ensures none { IfNone result ((o d : ℕ) → d ≤ now → contains pair_cmp self.new.pending (d, o) ≡ false) }
        ensures same { IfNone result (self.new ≡ self.old) }
        ensures rest { (self.new.overdue ≡ self.old.overdue) × (self.new.is_whole ≡ self.old.is_whole) }
    {
        if !is_first_met(&self.pending, now) {
            return None;
        }
        take_first(&mut self.pending)
    }
}

// Whether the first deadline is met.
fn is_first_met(pending: &BTreeSet<(u64, u64)>, now: u64) -> bool
    ensures { result ≡ false → (o d : ℕ) → d ≤ now → contains pair_cmp pending.now (d, o) ≡ false }
{
    match pending.first() {
        Some(first) => first.0 <= now,
        None => false,
    }
}

// Takes the first deadline out.
fn take_first(pending: &mut BTreeSet<(u64, u64)>) -> Option<u64>
    ensures others { IfSome result (λ id. (o d : ℕ) → (o == id) ≡ false
        → contains pair_cmp pending.new (d, o) ≡ contains pair_cmp pending.old (d, o)) }
    ensures fewer { IfSome result (λ id. btree_set_len pending.new + 1 ≡ btree_set_len pending.old) }
    ensures none { IfNone result ((o d : ℕ) → contains pair_cmp pending.new (d, o) ≡ false) }
    ensures same { IfNone result (pending.new ≡ pending.old) }
{
    match pending.pop_first() {
        Some((_, id)) => Some(id),
        None => None,
    }
}

// The deadline of the open isn't among those.
fn drop_pending(pending: &mut BTreeSet<(u64, u64)>, deadline: u64, id: u64)
    ensures gone { contains pair_cmp pending.new (deadline, id) ≡ false }
    ensures others { (o d : ℕ) → (o == id) ≡ false → contains pair_cmp pending.new (d, o) ≡ contains pair_cmp pending.old (d, o) }
{
    let _ = pending.remove(&(deadline, id));
}

// The open isn't among those.
fn drop_overdue(overdue: &mut BTreeSet<u64>, id: u64)
    ensures gone { contains nat_cmp overdue.new id ≡ false }
    ensures others { (o : ℕ) → (o == id) ≡ false → contains nat_cmp overdue.new o ≡ contains nat_cmp overdue.old o }
{
    let _ = overdue.remove(&id);
}

// The deadline of the open is among those, where there is memory.
fn put_pending(pending: &mut BTreeSet<(u64, u64)>, deadline: u64, id: u64) -> Result<(), AllocError>
    ensures here { OnOk result (contains pair_cmp pending.new (deadline, id) ≡ true) }
    ensures others { (o d : ℕ) → contains pair_cmp pending.old (d, o) ≡ true → contains pair_cmp pending.new (d, o) ≡ true }
{
    match pending.insert((deadline, id)) {
        Ok(_) => return Ok(()),
        Err(_) => return Err(AllocError),
    }
}
