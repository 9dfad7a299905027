//! A server's window of message ids.
ghost use Rattle.std.specs.Prelude.{◌≡◌, ℕ, ◌+◌, ◌-◌, ◌<◌, ◌≤◌, ◌^◌, ◌++◌, length, take, drop, All, IfOk, OnOk, IfErr, OnErr, Some, None};
ghost use Rattle.std.specs.VecDeque.{deque_len, deque_capacity};
ghost use Rattle.spec_wire.specs.credits.Ids.{counted, ids_from, outside};
ghost use Rattle.spec_wire.specs.credits.Window.{first_window, after_take, granted, after_grant};
ghost use Rattle.law_wire.specs.credits.Row.{IsAscending, AllLess, IsSplitAt};

use std::alloc::{AllocError, Global};
use std::collections::VecDeque;
use std::error::Error;
use std::fmt;
use std::marker::Model;

/// So many ids may be held at once.
const LIMIT: usize = 512;

/// The least id of a charge that the window does not hold.
#[derive(Clone, Copy, Debug, PartialEq, Eq)]
pub struct Outside {
    pub id: u64,
}

impl fmt::Display for Outside {
    ghost use Rattle.std.specs.Prelude.{◌++◌, Some, codes, decimal};

    ghost output = { λ x. Some (codes "message id " ++ decimal x.id ++ codes " is not held") };

    fn fmt<W: fmt::Write>(&self, f: &mut fmt::Formatter<W>) -> fmt::Result {
        write!(f, "message id {} is not held", self.id)
    }
}

impl Error for Outside {}

/// The message ids that a client may still use, each once (MS-SMB2 3.3.1.7,
/// Connection.CommandSequenceWindow). They stand in a ring of 512 places, least first, and all room is
/// taken by `new`.
#[derive(Drop)]
pub struct Window {
    // A ring of ids in order and not a bitmap over a stretch of them, because a client may hold an old id forever.
    ids: VecDeque<u64>,
    next: u64,
}

impl Model for Window {
    ghost use Rattle.std.specs.Prelude.{length, ◌≤◌};
    ghost use Rattle.std.specs.VecDeque.{deque_capacity};
    ghost use Rattle.spec_wire.specs.credits.Window.{HeldIds};
    ghost use Rattle.law_wire.specs.credits.Row.{IsAscending, AllLess};

    ghost Value = { HeldIds };

    ghost view = { λ w. record { held = w.ids.items; next = w.next } };

    ghost invariant = { λ w. IsAscending 0 w.ids.items × AllLess w.next w.ids.items × (length w.ids.items ≤ 512)
        × (512 ≤ deque_capacity w.ids) };
}

impl Window {
    /// A new window holds the id 0 alone.
    pub fn new(alloc: Global) -> Result<Window, AllocError>
        ensures { IfOk result (λ w. w ≡ first_window) }
    {
        let mut ids = VecDeque::with_capacity(alloc, LIMIT)?;
        ids.push_back_reserved(0);
        Ok(Window { ids, next: 1 })
    }

    /// Takes the ids of a charge (CreditCharge, of which 0 counts as 1), from the first (MessageId) upwards.
    /// Where one of them is not held, the least such id is told and nothing changes. It costs a search of
    /// the ring, one step for each id of the charge, and moves of the held ids below or above them,
    /// whichever are fewer.
    pub fn take(&mut self, first: u64, charge: u16) -> Result<(), Outside>
        ensures taken { OnOk result ((outside self.old.held first (counted charge) ≡ None)
            × (self.new ≡ after_take first charge self.old)) }
        ensures outside { IfErr result (λ e. outside self.old.held first (counted charge) ≡ Some e.id) }
        ensures unchanged { OnErr result (self.new ≡ self.old) }
    {
        let count = usize::from(charge.max(1));
        let place = place_of(&self.ids, first);
        match missing(&self.ids, place, first, count) {
            Some(id) => Err(Outside { id }),
            None => {
                cut(&mut self.ids, place, count);
                Ok(())
            }
        }
    }

    /// Adds the next ids upwards, as many as are asked for, at least one, as far as 512 ids may be held and
    /// as far as ids go. The answer is how many were added.
    pub fn grant(&mut self, asked: u16) -> u16
        ensures count { result ≡ granted asked self.old }
        ensures added { self.new ≡ after_grant asked self.old }
    {
        let room = LIMIT - self.ids.len();
        let left = u64::MAX - self.next;
        let count = u64::from(asked.max(1)).min(room as u64).min(left);
        append(&mut self.ids, self.next, count);
        self.next += count;
        count as u16
    }
}

// How many ids are below the first of a charge.
fn place_of(ids: &VecDeque<u64>, first: u64) -> usize
    requires { IsAscending 0 ids.now.items }
    ensures { IsSplitAt first ids.now.items result }
{
    ids.partition_point(|id| *id < first)
}

// The least id of a charge that is not held, where its first id has its place.
fn missing(ids: &VecDeque<u64>, place: usize, first: u64, count: usize) -> Option<u64>
    requires ascending { IsAscending 0 ids.now.items }
    requires last { AllLess (2 ^ 64 - 1) ids.now.items }
    requires few { length ids.now.items ≤ 512 }
    requires split { IsSplitAt first ids.now.items place }
    ensures found { result ≡ outside ids.now.items first count }
    ensures held { result ≡ None → take count (drop place ids.now.items) ≡ ids_from first count }
{
    let mut wanted = first;
    for k in 0..count {
        match ids.get(place + k) {
            Some(id) if *id == wanted => wanted += 1,
            _ => return Some(wanted),
        }
    }
    None
}

// Drops the first ids of a ring.
fn drop_front(ids: &mut VecDeque<u64>, count: usize)
    requires { count ≤ deque_len ids.old }
    ensures items { ids.new.items ≡ drop count ids.old.items }
    ensures capacity { deque_capacity ids.new ≡ deque_capacity ids.old }
{
    let rest = ids.len() - count;
    while ids.len() > rest {
        let _ = ids.pop_front();
    }
}

// Cuts ids out of the middle.
fn cut(ids: &mut VecDeque<u64>, place: usize, count: usize)
    requires { place + count ≤ deque_len ids.old }
    ensures items { ids.new.items ≡ take place ids.old.items ++ drop (place + count) ids.old.items }
    ensures capacity { deque_capacity ids.new ≡ deque_capacity ids.old }
{
    ids.rotate_left(place);
    drop_front(ids, count);
    ids.rotate_right(place);
}

// Adds ids upwards at the end.
fn append(ids: &mut VecDeque<u64>, from: u64, count: u64)
    requires fits { from + count < 2 ^ 64 }
    requires room { deque_len ids.old + count ≤ deque_capacity ids.old }
    ensures items { ids.new.items ≡ ids.old.items ++ ids_from from count }
    ensures capacity { deque_capacity ids.new ≡ deque_capacity ids.old }
{
    for k in 0..count {
        ids.push_back_reserved(from + k);
    }
}
