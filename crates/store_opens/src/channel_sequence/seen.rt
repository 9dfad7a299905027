use std::marker::Model;

/// What a request's sequence is against the kept one. They are counted modulo 65,536, so the difference decides.
#[derive(Clone, Copy, Debug, PartialEq, Eq)]
pub enum Offered {
    /// It is the kept one.
    Same,
    /// It is newer, by 1 to 0x7fff, and is now the kept one.
    Adopted,
    /// It is older than the kept one, which is told and stays.
    Stale(u16),
}

/// The newest sequence that reached an open.
#[derive(Clone, Copy, Debug, PartialEq, Eq)]
pub struct Seen {
    kept: u16,
}

impl Model for Seen {
    ghost use Rattle.std.specs.Prelude.{ℕ};

    ghost Value = { ℕ };

    ghost view = { λ s. s.kept };

    ghost inverse = { λ n. record { kept = n } };
}

impl Seen {
    ghost use Rattle.std.specs.Prelude.{◌≡◌};
    ghost use Rattle.spec_exchange.specs.CheckOpen.{is_stale};
    ghost use Rattle.store_opens.specs.channel_sequence.Offered.{offered, kept_after, tells_stale};

    pub fn new(n: u16) -> Seen
        ensures { result ≡ n }
    {
        Seen { kept: n }
    }

    /// The kept sequence.
    pub fn number(&self) -> u16
        ensures { result ≡ self.now }
    {
        self.kept
    }

    /// Whether a request of this sequence comes too late.
    pub fn is_stale(&self, n: u16) -> bool
        ensures { result ≡ is_stale n self.now }
    {
        let kept = self.kept;
        (u32::from(n) + 65536 - u32::from(kept)) % 65536 >= 0x8000
    }

    /// A request of this sequence comes to the open; a newer one is kept.
    pub fn offer(&mut self, n: u16) -> Offered
        ensures told { result ≡ offered n self.old }
        ensures kept { self.new ≡ kept_after n self.old }
        ensures stale { tells_stale result ≡ is_stale n self.old }
    {
        let kept = self.kept;
        match (u32::from(n) + 65536 - u32::from(kept)) % 65536 {
            0 => Offered::Same,
            1..=0x7fff => {
                self.kept = n;
                Offered::Adopted
            }
            _ => Offered::Stale(kept),
        }
    }
}
