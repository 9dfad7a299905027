// A net of two sides in one process.
ghost use Rattle.std.specs.Prelude.{◌≡◌, IfSome};
ghost use Rattle.base_outside.specs.network.Memory.{new_end};

use crate::network::wire::{End, Lane};
use crate::network::{MemEnd, Net};
use crate::streams::{Address, Failed, Plan};
use std::alloc::{AllocError, Global};
use std::collections::VecDeque;
use std::marker::Model;
use std::mem;
use std::sync::{Arc, Condvar, Mutex, Wait};
use wire_bytes::Bytes;

/// Which side of a net.
#[derive(Clone, Copy, PartialEq, Eq, Debug)]
enum Side {
    First,
    Second,
}

impl Side {
    fn other(self) -> Side {
        match self {
            Side::First => Side::Second,
            Side::Second => Side::First,
        }
    }
}

/// What waits at a side: links that the other side has connected, and whether the side is gone.
#[derive(Drop)]
struct Door {
    waiting: VecDeque<Arc<Lane>>,
    is_gone: bool,
}

impl Door {
    fn new(alloc: Global) -> Door {
        Door {
            waiting: VecDeque::new(alloc),
            is_gone: false,
        }
    }
}

/// Both doors, and how many links may yet be opened.
#[derive(Drop)]
struct Doors {
    links: u32,
    first: Door,
    second: Door,
}

impl Doors {
    fn of(&self, side: Side) -> &Door {
        match side {
            Side::First => &self.first,
            Side::Second => &self.second,
        }
    }

    fn of_mut(&mut self, side: Side) -> &mut Door {
        match side {
            Side::First => &mut self.first,
            Side::Second => &mut self.second,
        }
    }

    /// Whether a link may still come to a side that has none waiting.
    fn may_come(&self, to: Side) -> bool {
        self.links > 0 && !self.of(to.other()).is_gone
    }
}

/// What the two sides share.
#[derive(Drop)]
struct Hall {
    doors: Mutex<Doors>,
    moved: Condvar,
}

impl Hall {
    /// Puts a link to a side's door, or drops its end there where the side is gone. No link is left to
    /// open, or there is no room, where it answers `None`.
    fn bring<W: Wait>(&self, rt: &W, to: Side, lane: Arc<Lane>) -> Option<()> {
        let mut doors = self.doors.lock(rt);
        let links = doors.links.checked_sub(1)?;
        if doors.of(to).is_gone {
            lane.shut(rt, End::Accepted);
        } else {
            doors.of_mut(to).waiting.push_back(lane).ok()?;
        }
        doors.links = links;
        self.moved.notify_all();
        Some(())
    }

    /// The next link at a side's door. It waits until there is one, or none can come.
    fn fetch<W: Wait>(&self, rt: &W, at: Side) -> Option<Arc<Lane>> {
        let held = self.doors.lock(rt);
        let mut doors = self.moved.wait_while(rt, held, |doors| {
            doors.of(at).waiting.is_empty() && doors.may_come(at)
        });
        doors.of_mut(at).waiting.pop_front()
    }

    /// Drops a side, and its ends of the links that wait at its door.
    fn leave<W: Wait>(&self, rt: &W, alloc: Global, side: Side) {
        let waiting = self.left(rt, alloc, side);
        for lane in waiting {
            lane.shut(rt, End::Accepted);
        }
    }

    fn left<W: Wait>(&self, rt: &W, alloc: Global, side: Side) -> VecDeque<Arc<Lane>> {
        let mut doors = self.doors.lock(rt);
        let door = doors.of_mut(side);
        door.is_gone = true;
        self.moved.notify_all();
        mem::replace(&mut door.waiting, VecDeque::new(alloc))
    }
}

/// One side of a net of two sides, each for a thread. What one side connects, the other accepts, in
/// that order, at whatever address. A side fails where its plan says so, where all links were opened,
/// where the other side is gone, and where there is no room. A contract sees where it was told to
/// listen, how many links it accepted, what is left of its plan, the plan of its links' ends, and the
/// count of faults.
pub struct MemNet<'a, W: Wait + Sync> {
    rt: &'a W,
    alloc: Global,
    hall: Arc<Hall>,
    side: Side,
    listens_at: Option<Address>,
    accepted: u64,
    plan: Plan,
    link_failing: Bytes,
    faults: u64,
}

impl<'a, W: Wait + Sync> Model for MemNet<'a, W> {
    ghost use Rattle.base_outside.specs.network.Memory.{SideState};

    ghost Value = { SideState };

    ghost view = { λ n. record {
      listens_at = n.listens_at;
      accepted = n.accepted;
      failing = n.plan;
      link_failing = n.link_failing;
      faults = n.faults;
    } };
}

impl<'a, W: Wait + Sync> Drop for MemNet<'a, W> {
    fn drop(self) {
        let MemNet {
            rt,
            alloc,
            hall,
            side,
            listens_at: _,
            accepted: _,
            plan: _plan,
            link_failing: _link_failing,
            faults: _,
        } = self;
        hall.leave(rt, alloc, side);
    }
}

impl<'a, W: Wait + Sync> MemNet<'a, W> {
    ghost use Rattle.std.specs.Prelude.{◌≡◌, IfOk};
    ghost use Rattle.base_outside.specs.network.Memory.{new_side};

    /// The two sides of a net over which so many links can be opened. Call `k` of each side fails where
    /// byte `k` of `failing` is 1, call `k` of each end of a link where byte `k` of `link_failing` is.
    /// Calls past these lists do not fail while there is memory.
    pub fn new(
        rt: &'a W,
        alloc: Global,
        links: u32,
        failing: Bytes,
        link_failing: Bytes,
    ) -> Result<(MemNet<'a, W>, MemNet<'a, W>), AllocError>
        ensures { IfOk result (λ sides. (sides.0 ≡ new_side failing link_failing) × (sides.1 ≡ new_side failing link_failing)) }
    {
        let hall = Hall {
            doors: Mutex::new(Doors {
                links,
                first: Door::new(alloc),
                second: Door::new(alloc),
            }),
            moved: Condvar::new(),
        };
        let Ok(hall) = Arc::new(alloc, hall) else {
            return Err(AllocError);
        };
        let shared = Arc::try_clone(&hall)?;
        let again = failing.copy()?;
        let link_again = link_failing.copy()?;
        let first = MemNet::side(rt, alloc, shared, Side::First, again, link_again);
        let second = MemNet::side(rt, alloc, hall, Side::Second, failing, link_failing);
        Ok((first, second))
    }

    fn side(
        rt: &'a W,
        alloc: Global,
        hall: Arc<Hall>,
        side: Side,
        failing: Bytes,
        link_failing: Bytes,
    ) -> MemNet<'a, W>
        ensures { result ≡ new_side failing link_failing }
    {
        MemNet {
            rt,
            alloc,
            hall,
            side,
            listens_at: None,
            accepted: 0,
            plan: Plan::new(failing),
            link_failing,
            faults: 0,
        }
    }
}

/// The end here of a link that is opened to the other side.
fn opened<'a, W: Wait>(
    rt: &'a W,
    alloc: Global,
    hall: &Hall,
    to: Side,
    link_failing: &Bytes,
) -> Option<MemEnd<'a, W>>
    ensures { IfSome result (λ end. end ≡ new_end 0 link_failing.now) }
{
    let plan = Plan::new(link_failing.copy().ok()?);
    let lane = Arc::new(alloc, Lane::new(alloc)).ok()?;
    let theirs = Arc::try_clone(&lane).ok()?;
    hall.bring(rt, to, theirs)?;
    Some(MemEnd::new(rt, lane, End::Connected, 0, plan))
}

/// The end here of the next link that comes, with this number.
fn fetched<'a, W: Wait>(
    rt: &'a W,
    hall: &Hall,
    at: Side,
    link_failing: &Bytes,
    number: u64,
) -> Option<MemEnd<'a, W>>
    ensures { IfSome result (λ end. end ≡ new_end number link_failing.now) }
{
    let plan = Plan::new(link_failing.copy().ok()?);
    let lane = hall.fetch(rt, at)?;
    Some(MemEnd::new(rt, lane, End::Accepted, number, plan))
}

impl<'a, W: Wait + Sync> Net for MemNet<'a, W> {
    ghost use Rattle.std.specs.Prelude.{◌≡◌, ◌↔◌, ◌+◌, ◌-◌, ◌^◌, min, false, [], ◌∷◌, ◌++◌, drop, Some, IsTrue, IsErr, IfOk, OnOk, OnErr};
    ghost use Rattle.base_outside.specs.network.Link.{IsLinkUnused, unsent, untold};
    ghost use Rattle.base_outside.specs.streams.Faults.{CountsFault};
    ghost use Rattle.base_outside.specs.streams.Memory.{next_fails};
    ghost use Rattle.base_outside.specs.network.Memory.{new_end};

    type L = MemEnd<'a, W>;

    ghost listens_at = { λ n. n.listens_at };

    ghost accepted = { λ n. n.accepted };

    ghost sent = { λ _. unsent };

    ghost faults = { λ n. n.faults };

    fn listen(&mut self, at: Address) -> Result<(), Failed>
        ensures place { OnOk result (self.new.listens_at ≡ Some at) }
        ensures failed { OnErr result (self.new.listens_at ≡ self.old.listens_at) }
        ensures accepted { self.new.accepted ≡ self.old.accepted }
        ensures sent { ⊥ → unsent ≡ unsent }
        ensures cause { CountsFault self.old.faults self.new.faults result }
        ensures which { IsErr result ↔ IsTrue (next_fails self.old.failing) }
        ensures plan { self.new.failing ≡ drop 1 self.old.failing }
        ensures link_plan { self.new.link_failing ≡ self.old.link_failing }
    {
        if self.plan.next() {
            self.faults = self.faults.saturating_add(1);
            return Err(Failed);
        }
        self.listens_at = Some(at);
        Ok(())
    }

    fn accept(&mut self) -> Result<MemEnd<'a, W>, Failed>
        ensures new { IfOk result (λ end. end ≡ new_end (min (self.old.accepted + 1) (2 ^ 64 - 1)) self.old.link_failing) }
        ensures fresh { IfOk result (λ end. (end.ended ≡ false) × (end.faults ≡ 0)) }
        ensures unused { IfOk result (λ end. IsLinkUnused ⊥ untold untold) }
        ensures accepted { OnOk result (self.new.accepted ≡ min (self.old.accepted + 1) (2 ^ 64 - 1)) }
        ensures number { IfOk result (λ end. end.number ≡ min (self.old.accepted + 1) (2 ^ 64 - 1)) }
        ensures sent { IfOk result (λ end. ⊥ → unsent ≡ unsent ++ untold ∷ []) }
        ensures failed { OnErr result ((self.new.accepted ≡ self.old.accepted) × (⊥ → unsent ≡ unsent)) }
        ensures place { self.new.listens_at ≡ self.old.listens_at }
        ensures cause { CountsFault self.old.faults self.new.faults result }
        ensures which { IsTrue (next_fails self.old.failing) → IsErr result }
        ensures plan { self.new.failing ≡ drop 1 self.old.failing }
        ensures link_plan { self.new.link_failing ≡ self.old.link_failing }
    {
        if !self.plan.next() {
            let number = self.accepted.saturating_add(1);
            if let Some(end) = fetched(self.rt, &self.hall, self.side, &self.link_failing, number) {
                self.accepted = number;
                return Ok(end);
            }
        }
        self.faults = self.faults.saturating_add(1);
        Err(Failed)
    }

    fn connect(&mut self, _to: Address) -> Result<MemEnd<'a, W>, Failed>
        ensures new { IfOk result (λ end. end ≡ new_end 0 self.old.link_failing) }
        ensures fresh { IfOk result (λ end. (end.ended ≡ false) × (end.faults ≡ 0)) }
        ensures unused { IfOk result (λ end. IsLinkUnused ⊥ untold untold) }
        ensures accepted { self.new.accepted ≡ self.old.accepted }
        ensures number { IfOk result (λ end. end.number ≡ 0) }
        ensures sent { ⊥ → unsent ≡ unsent }
        ensures place { self.new.listens_at ≡ self.old.listens_at }
        ensures cause { CountsFault self.old.faults self.new.faults result }
        ensures which { IsTrue (next_fails self.old.failing) → IsErr result }
        ensures plan { self.new.failing ≡ drop 1 self.old.failing }
        ensures link_plan { self.new.link_failing ≡ self.old.link_failing }
    {
        if !self.plan.next() {
            let to = self.side.other();
            if let Some(end) = opened(self.rt, self.alloc, &self.hall, to, &self.link_failing) {
                return Ok(end);
            }
        }
        self.faults = self.faults.saturating_add(1);
        Err(Failed)
    }
}
