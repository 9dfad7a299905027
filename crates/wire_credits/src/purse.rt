//! A client's credits.
ghost use Rattle.std.specs.Prelude.{◌≡◌, ◌+◌, ◌<◌, ◌≤◌, IfOk, IfErr};
ghost use Rattle.spec_wire.specs.credits.Ids.{counted};
ghost use Rattle.spec_wire.specs.credits.Purse.{first_purse, after_spend, after_add};

use std::error::Error;
use std::fmt;
use std::marker::Model;

/// The charge is above what the purse holds, which is told.
#[derive(Clone, Copy, Debug, PartialEq, Eq)]
pub struct NoCredit {
    pub held: u32,
}

impl fmt::Display for NoCredit {
    ghost use Rattle.std.specs.Prelude.{◌++◌, Some, codes, decimal};

    ghost output = { λ x. Some (codes "the charge is above the " ++ decimal x.held ++ codes " credits held") };

    fn fmt<W: fmt::Write>(&self, f: &mut fmt::Formatter<W>) -> fmt::Result {
        write!(f, "the charge is above the {} credits held", self.held)
    }
}

impl Error for NoCredit {}

/// How many credits a client holds, and the message id that it uses next (MS-SMB2 3.2.1.2,
/// Connection.SequenceWindow).
#[derive(Drop)]
pub struct Purse {
    held: u32,
    next: u64,
}

impl Model for Purse {
    ghost use Rattle.std.specs.Prelude.{◌+◌, ◌<◌, ◌^◌};
    ghost use Rattle.spec_wire.specs.credits.Purse.{Credits};

    ghost Value = { Credits };

    ghost view = { λ p. record { held = p.held; next = p.next } };

    ghost invariant = { λ p. p.next + p.held < 2 ^ 64 };
}

impl Purse {
    /// A new purse holds one credit, and its next id is 0.
    pub fn new() -> Purse
        ensures { result ≡ first_purse }
    {
        Purse { held: 1, next: 0 }
    }

    /// How many credits are held.
    pub fn held(&self) -> u32
        ensures { result ≡ self.now.held }
    {
        self.held
    }

    /// Spends the credits of a charge, of which 0 counts as 1. The answer is the first of the message ids
    /// that they pay for. Where the charge is above what is held, nothing changes.
    pub fn spend(&mut self, charge: u16) -> Result<u64, NoCredit>
        ensures spent { IfOk result (λ first. (counted charge ≤ self.old.held) × (first ≡ self.old.next)
            × (self.new ≡ after_spend charge self.old)) }
        ensures refused { IfErr result (λ e. (self.old.held < counted charge) × (e.held ≡ self.old.held) × (self.new ≡ self.old)) }
    {
        let count = u32::from(charge.max(1));
        if self.held < count {
            return Err(NoCredit { held: self.held });
        }
        let first = self.next;
        self.held -= count;
        self.next += u64::from(count);
        Ok(first)
    }

    /// Adds credits that were granted, as far as there are ids for them and as far as 32 bits count.
    pub fn add(&mut self, granted: u16)
        ensures { self.new ≡ after_add granted self.old }
    {
        let left = u64::MAX - self.next;
        let sum = u64::from(self.held) + u64::from(granted);
        let held = sum.min(left).min(u64::from(u32::MAX));
        self.held = held as u32;
    }
}
