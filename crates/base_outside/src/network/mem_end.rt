// One end of a link between two threads.
ghost use Rattle.std.specs.Prelude.{◌≡◌};

use crate::network::Link;
use crate::network::end::is_end;
use crate::network::wire::{End, Lane};
use crate::streams::{Failed, Plan};
use std::marker::Model;
use std::sync::{Arc, Wait};

/// One end of a link of a `MemNet`. A read waits until the other end wrote or is gone. It fails where
/// its plan says so, and a write also where there is no room. It tells nothing of the bytes. Dropping
/// it ends what the other end reads.
pub struct MemEnd<'a, W: Wait> {
    rt: &'a W,
    lane: Arc<Lane>,
    end: End,
    number: u64,
    ended: bool,
    plan: Plan,
    faults: u64,
}

impl<'a, W: Wait> Model for MemEnd<'a, W> {
    ghost use Rattle.base_outside.specs.network.Memory.{EndState};

    ghost Value = { EndState };

    ghost view = { λ e. record { number = e.number; ended = e.ended; failing = e.plan; faults = e.faults } };
}

impl<'a, W: Wait> MemEnd<'a, W> {
    ghost use Rattle.std.specs.Prelude.{◌≡◌};
    ghost use Rattle.base_outside.specs.network.Memory.{new_end};

    /// An end of this number, which is 0 where it wasn't accepted.
    pub(crate) fn new(
        rt: &'a W,
        lane: Arc<Lane>,
        end: End,
        number: u64,
        plan: Plan,
    ) -> MemEnd<'a, W>
        ensures { result ≡ new_end number plan }
    {
        MemEnd {
            rt,
            lane,
            end,
            number,
            ended: false,
            plan,
            faults: 0,
        }
    }
}

impl<'a, W: Wait> Drop for MemEnd<'a, W> {
    fn drop(self) {
        let MemEnd {
            rt,
            lane,
            end,
            number: _,
            ended: _,
            plan: _plan,
            faults: _,
        } = self;
        lane.shut(rt, end);
    }
}

impl<'a, W: Wait> Link for MemEnd<'a, W> {
    ghost use Rattle.std.specs.Prelude.{◌≡◌, ◌≤◌, ◌<◌, ◌↔◌, ◌++◌, length, take, drop, IsTrue, IsErr, IfOk, OnErr};
    ghost use Rattle.base_outside.specs.streams.Faults.{CountsFault};
    ghost use Rattle.base_outside.specs.streams.Memory.{next_fails};
    ghost use Rattle.base_outside.specs.network.Link.{LinkGives, ended_after, untold};

    ghost told = { ⊥ };

    ghost number = { λ e. e.number };

    ghost given = { λ _. untold };

    ghost left = { λ _. untold };

    ghost written = { λ _. untold };

    ghost ended = { λ e. e.ended };

    ghost faults = { λ e. e.faults };

    fn fault_count(&self) -> u64 {
        self.faults
    }

    fn read(&mut self, into: &mut [u8]) -> Result<usize, Failed>
        ensures bound { IfOk result (λ count. count ≤ length into.new) }
        ensures bytes { IfOk result (λ count. ⊥ → LinkGives untold count into.new untold) }
        ensures given { IfOk result (λ count. ⊥ → untold ≡ untold ++ take count into.new) }
        ensures failed { OnErr result (⊥ → (untold ≡ untold) × (untold ≡ untold)) }
        ensures written { ⊥ → untold ≡ untold }
        ensures number { self.new.number ≡ self.old.number }
        ensures end { self.new.ended ≡ ended_after self.old.ended result into.new }
        ensures cause { CountsFault self.old.faults self.new.faults result }
        ensures which { IsErr result ↔ IsTrue (next_fails self.old.failing) }
        ensures plan { self.new.failing ≡ drop 1 self.old.failing }
    {
        if self.plan.next() {
            self.faults = self.faults.saturating_add(1);
            return Err(Failed);
        }
        let count = self.lane.read(self.rt, self.end, into);
        self.ended = self.ended || is_end(count, into);
        Ok(count)
    }

    fn write(&mut self, from: &[u8]) -> Result<usize, Failed>
        ensures bound { IfOk result (λ count. count ≤ length from.now) }
        ensures progress { IfOk result (λ count. 0 < length from.now → 0 < count) }
        ensures bytes { IfOk result (λ count. ⊥ → untold ≡ untold ++ take count from.now) }
        ensures failed { OnErr result (⊥ → untold ≡ untold) }
        ensures given { ⊥ → (untold ≡ untold) × (untold ≡ untold) }
        ensures number { self.new.number ≡ self.old.number }
        ensures end { self.new.ended ≡ self.old.ended }
        ensures cause { CountsFault self.old.faults self.new.faults result }
        ensures count { IfOk result (λ count. count ≡ length from.now) }
        ensures which { IsTrue (next_fails self.old.failing) → IsErr result }
        ensures plan { self.new.failing ≡ drop 1 self.old.failing }
    {
        if self.plan.next() || self.lane.write(self.rt, self.end, from).is_err() {
            self.faults = self.faults.saturating_add(1);
            return Err(Failed);
        }
        Ok(from.len())
    }
}
