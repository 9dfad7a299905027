// The time of day.
use std::marker::Model;

/// Tells the moment, in units of 100 nanoseconds since 1601 (MS-DTYP 2.3.3). Nothing is said of the
/// order of two answers.
pub trait Clock {
    fn now(&mut self) -> u64;
}

/// A clock that stands still. A contract sees its moment.
#[derive(Drop)]
pub struct MemClock {
    moment: u64,
}

impl Model for MemClock {
    ghost use Rattle.std.specs.Prelude.{ℕ};

    ghost Value = { ℕ };

    ghost view = { λ c. c.moment };
}

impl MemClock {
    ghost use Rattle.std.specs.Prelude.{◌≡◌};

    pub fn new(moment: u64) -> MemClock
        ensures { result ≡ moment }
    {
        MemClock { moment }
    }
}

impl Clock for MemClock {
    ghost use Rattle.std.specs.Prelude.{◌≡◌};

    fn now(&mut self) -> u64
        ensures moment { result ≡ self.old }
        ensures same { self.new ≡ self.old }
    {
        self.moment
    }
}
