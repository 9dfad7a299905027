ghost use Rattle.std.specs.Prelude.{[]};

use base_outside::{Disk, Failed};

/// A disk that keeps its length alone, so that a journal may grow to its limit without the memory. It tells nothing of
/// its bytes, never fails, and reads as one that has just ended.
#[derive(Drop)]
pub struct CountingDisk {
    length: u64,
}

impl CountingDisk {
    /// A disk of no bytes.
    pub fn new() -> CountingDisk {
        CountingDisk { length: 0 }
    }
}

impl Disk for CountingDisk {
    ghost told = { ⊥ };

    ghost seen = { λ _. [] };

    ghost may_leave = { λ _ _. Unit {0} };

    ghost moment = { λ _. 0 };

    ghost left_since = { λ _ _ _. Unit {0} };

    ghost faults = { λ _. 0 };

    ghost counts_now = { λ _ _ _ _ _. tt };

    ghost only_now = { λ _ _ _. tt };

    ghost seen_may_stay = { λ _ _. tt };

    fn fault_count(&self) -> u64 {
        0
    }

    fn length(&mut self) -> Result<u64, Failed> {
        Ok(self.length)
    }

    fn read(&mut self, _at: u64, _into: &mut [u8]) -> Result<usize, Failed> {
        Ok(0)
    }

    fn write_at(&mut self, at: u64, from: &[u8]) -> Result<(), Failed> {
        self.length = self.length.max(at.saturating_add(from.len() as u64));
        Ok(())
    }

    fn cut(&mut self, length: u64) -> Result<(), Failed> {
        self.length = self.length.min(length);
        Ok(())
    }

    fn sync(&mut self) -> Result<(), Failed> {
        Ok(())
    }
}
