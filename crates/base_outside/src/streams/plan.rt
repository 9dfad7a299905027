// Which calls of a fake fail; the links and nets in memory stand on it too.
use std::marker::Model;
use wire_bytes::Bytes;

/// Which of the calls to come fail. A contract sees the list of what is left of the plan, in which
/// 1 stands for a call that fails; calls past its end do not fail.
#[derive(Drop)]
pub struct Plan {
    failing: Bytes,
    calls: usize,
}

impl Model for Plan {
    ghost use Rattle.std.specs.Prelude.{List, ℕ, drop};

    ghost Value = { List ℕ };

    ghost view = { λ p. drop p.calls p.failing };
}

impl Plan {
    ghost use Rattle.std.specs.Prelude.{◌≡◌, drop};
    ghost use Rattle.base_outside.specs.streams.Memory.{next_fails};

    /// A plan of these bytes, one for each call: 1 fails.
    pub fn new(failing: Bytes) -> Plan
        ensures { result ≡ failing }
    {
        Plan { failing, calls: 0 }
    }

    /// Whether the next call fails.
    pub fn next(&mut self) -> bool
        ensures fails { result ≡ next_fails self.old }
        ensures rest { self.new ≡ drop 1 self.old }
    {
        if self.calls >= self.failing.len() {
            return false;
        }
        let fails = self.failing.as_slice()[self.calls] == 1;
        self.calls += 1;
        fails
    }
}
