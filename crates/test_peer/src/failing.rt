//! A net in memory whose first link fails as planned.
ghost use Rattle.std.specs.Prelude.{◌≡◌, false};
ghost use Rattle.base_outside.specs.network.Link.{unsent, untold};

use base_outside::{Address, Failed, Link, MemEnd, MemNet, Net, Plan, is_end};
use std::alloc::{AllocError, Global};
use std::mem;
use std::sync::Wait;
use wire_bytes::Bytes;

/// An end of a link in memory that fails as planned.
#[derive(Drop)]
pub struct FailingEnd<'a, W: Wait> {
    link: MemEnd<'a, W>,
    plan: Plan,
    ended: bool,
    faults: u64,
}

impl<'a, W: Wait> Link for FailingEnd<'a, W> {
    ghost told = { ⊥ };

    ghost number = { λ e. e.link.number };

    ghost given = { λ _. untold };

    ghost left = { λ _. untold };

    ghost written = { λ _. untold };

    ghost ended = { λ e. e.ended };

    ghost faults = { λ e. e.faults };

    fn fault_count(&self) -> u64 {
        self.faults
    }

    fn read(&mut self, into: &mut [u8]) -> Result<usize, Failed> {
        if self.plan.next() {
            self.faults = self.faults.saturating_add(1);
            return Err(Failed);
        }
        match self.link.read(into) {
            Ok(count) => {
                self.ended = self.ended || is_end(count, into);
                Ok(count)
            }
            Err(Failed) => {
                self.faults = self.faults.saturating_add(1);
                Err(Failed)
            }
        }
    }

    fn write(&mut self, from: &[u8]) -> Result<usize, Failed> {
        if self.plan.next() {
            self.faults = self.faults.saturating_add(1);
            return Err(Failed);
        }
        match self.link.write(from) {
            Ok(count) => Ok(count),
            Err(Failed) => {
                self.faults = self.faults.saturating_add(1);
                Err(Failed)
            }
        }
    }
}

fn failing_end<'a, W: Wait>(link: MemEnd<'a, W>, plan: Plan) -> FailingEnd<'a, W>
    ensures { (result.ended ≡ false) × (result.faults ≡ 0) × (result.link ≡ link.entry) }
{
    FailingEnd {
        link,
        plan,
        ended: false,
        faults: 0,
    }
}

/// The plan, which is then that no call fails.
fn taken(alloc: Global, failing: &mut Bytes) -> Plan {
    Plan::new(mem::replace(failing, Bytes::new(alloc)))
}

/// A side of a net in memory. The first link that it accepts or connects fails as planned, at this end alone.
#[derive(Drop)]
pub struct FailingNet<'a, W: Wait + Sync> {
    alloc: Global,
    net: MemNet<'a, W>,
    failing: Bytes,
}

impl<'a, W: Wait + Sync> FailingNet<'a, W> {
    /// Call `k` of the first link's end fails where byte `k` of `failing` is 1.
    pub fn new(alloc: Global, net: MemNet<'a, W>, failing: Bytes) -> FailingNet<'a, W> {
        FailingNet {
            alloc,
            net,
            failing,
        }
    }
}

impl<'a, W: Wait + Sync> Net for FailingNet<'a, W> {
    type L = FailingEnd<'a, W>;

    ghost listens_at = { λ n. n.net.listens_at };

    ghost accepted = { λ n. n.net.accepted };

    ghost sent = { λ _. unsent };

    ghost faults = { λ n. n.net.faults };

    fn listen(&mut self, at: Address) -> Result<(), Failed> {
        self.net.listen(at)
    }

    fn accept(&mut self) -> Result<FailingEnd<'a, W>, Failed> {
        match self.net.accept() {
            Ok(link) => Ok(failing_end(link, taken(self.alloc, &mut self.failing))),
            Err(Failed) => Err(Failed),
        }
    }

    fn connect(&mut self, to: Address) -> Result<FailingEnd<'a, W>, Failed> {
        match self.net.connect(to) {
            Ok(link) => Ok(failing_end(link, taken(self.alloc, &mut self.failing))),
            Err(Failed) => Err(Failed),
        }
    }
}

/// A plan by which the call of this number alone fails, counted from 0.
pub fn failing_at(alloc: Global, call: usize) -> Result<Bytes, AllocError> {
    let mut plan = Vec::new(alloc);
    plan.resize(call, 0)?;
    plan.push(1)?;
    Ok(Bytes::from_vec(plan))
}
