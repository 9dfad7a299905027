use spec_exchange::values::Kept;
use std::alloc::{AllocError, Global};

/// Slots 1 to 64, each with the number and the status of the last request that used it.
#[derive(Drop, Debug)]
pub struct Slots {
    items: Vec<Option<Kept>>,
}

impl Slots {
    ghost use Rattle.std.specs.Prelude.{◌≡◌, ◌≤◌, ℕ, IfOk, Some, None, Option};
    ghost use Rattle.spec_exchange.specs.State as model;
    ghost use Rattle.spec_exchange.specs.Table.{put};
    ghost use Rattle.spec_exchange.specs.CheckOpen.{kept_status};
    ghost use Rattle.store_opens.specs.lock_replay.Shown.{SlotsShown};

    /// Slots of which none was used.
    pub fn new(alloc: Global) -> Result<Slots, AllocError>
        ensures { IfOk result (λ s. SlotsShown s (λ i. None)) }
    {
        // All at once, so that keeping an answer takes no memory.
        let items = vec![in alloc; None; 64]?;
        Ok(Slots { items })
    }

    /// The status that the slot keeps of this number, where it keeps it.
    pub fn look(&self, index: u8, number: u8) -> Option<u32>
        requires { (1 ≤ index) × (index ≤ 64) }
        ensures { (kept : ℕ → Option model.Kept) → SlotsShown self.now kept → result ≡ kept_status number (kept index) }
    {
        match self.items.get(usize::from(index) - 1) {
            Some(Some(kept)) if kept.number == number => Some(kept.status),
            _ => None,
        }
    }

    /// What the slot keeps.
    pub fn kept(&self, index: u8) -> Option<Kept>
        requires { (1 ≤ index) × (index ≤ 64) }
        ensures { (kept : ℕ → Option model.Kept) → SlotsShown self.now kept → result ≡ kept index }
    {
        let place = usize::from(index) - 1;
        match self.items.get(place) {
            Some(kept) => *kept,
            None => None,
        }
    }

    /// The slot keeps this number with its status from now on. It takes no memory.
    pub fn keep(&mut self, index: u8, number: u8, status: u32)
        requires { (1 ≤ index) × (index ≤ 64) }
        ensures { (kept : ℕ → Option model.Kept) → SlotsShown self.old kept
            → SlotsShown self.new (put kept index (Some (record { number = number; status = status }))) }
    {
        if let Some(slot) = self.items.get_mut(usize::from(index) - 1) {
            *slot = Some(Kept { number, status });
        }
    }
}
