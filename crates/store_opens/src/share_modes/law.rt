ghost use Rattle.std.specs.Prelude.{◌≡◌, List, ◌∷◌, ℕ, map, is_some, not};
ghost use Rattle.spec_exchange.specs.Ranges as model;
ghost use Rattle.store_opens.specs.declared.share_modes.lists.Range.{Range};
ghost use Rattle.store_opens.specs.share_modes.Locking.{range_of, read_conflict, write_conflict, lock_outcome, unlock_outcome};
ghost use Rattle.store_opens.specs.share_modes.Answers.{AllOf, answer_of};

/// What the ranges allow is what the model of the exchange says.
pub fn ranges_law()
    ensures reads { (rs : List Range) (o at n : ℕ) → model.may_read (map range_of rs) o at n ≡ not (is_some (read_conflict rs o at n)) }
    ensures writes { (rs : List Range) (o at n : ℕ) → model.may_write (map range_of rs) o at n ≡ not (is_some (write_conflict rs o at n)) }
    ensures locks { (rs : List Range) (o : ℕ) (w : Range) (ws : List Range) → AllOf o (w ∷ ws)
        → model.lock_ranges (map range_of rs) o (map range_of (w ∷ ws)) ≡ answer_of (lock_outcome rs (w ∷ ws)) }
    ensures unlocks { (rs ws : List Range) → model.unlock_ranges (map range_of rs) (map range_of ws) ≡ answer_of (unlock_outcome rs ws) }
{}
