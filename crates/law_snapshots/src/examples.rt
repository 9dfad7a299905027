//! A snapshot of a small state, computed.

ghost use Rattle.std.specs.Prelude.{◌≡◌, [], ◌∷◌, true, Some};
ghost use Rattle.law_snapshots.specs.examples.Small.{again, small};

/// What the snapshot of a small state stands for is the state: its files with their bytes, told or stored, and the gap in their
/// numbers; what the columns have of a file that is gone isn't told.
pub fn files_example()
    ensures files { again.entries ≡ record { file = 1; path = 97 ∷ [] } ∷ record { file = 2; path = 100 ∷ [] }
        ∷ record { file = 4; path = 100 ∷ 92 ∷ 98 ∷ [] } ∷ [] }
    ensures next { (again.next_file ≡ 5) × (small.next_file ≡ 5) }
    ensures told { (again.content 1 ≡ 0 ∷ 0 ∷ 104 ∷ 105 ∷ []) × (small.content 1 ≡ 0 ∷ 0 ∷ 104 ∷ 105 ∷ []) }
    ensures stored { (again.content 4 ≡ 98 ∷ 0 ∷ 99 ∷ []) × (small.content 4 ≡ 98 ∷ 0 ∷ 99 ∷ []) }
    ensures gone { (again.content 3 ≡ []) × (small.content 3 ≡ 1 ∷ 2 ∷ 3 ∷ []) }
    ensures pending { again.delete_pending 1 ≡ true }
{}

/// And so are its open of an earlier epoch with its slot and its lock, the mark, and the numbers.
pub fn opens_example()
    ensures opens { again.opens ≡ 0x1_0000_0001 ∷ [] }
    ensures slot { again.lock_sequences 0x1_0000_0001 1 ≡ Some (record { number = 0; status = 0 }) }
    ensures ranges { again.ranges 1 ≡ record { owner = 0x1_0000_0001; at = 0; length = 10; exclusive = true } ∷ [] }
    ensures guid { again.by_guid 7 9 ≡ Some 0x1_0000_0001 }
    ensures marks { (again.expired_guids 7 10 ≡ true) × (again.expired_count ≡ 1) }
    ensures numbers { (again.epoch ≡ 2) × (again.version ≡ 2) }
{}
