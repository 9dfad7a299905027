//! A start over a snapshot and the records behind it.
//!
//! The law is a public function with an empty body, whose contract is the statement.

ghost use Rattle.std.specs.Prelude.{◌≡◌, ◌≤◌, ℕ, List, [], ◌++◌, true};
ghost use Rattle.spec_exchange.specs.Fold.{Configuration, full_room, recovered};
ghost use Rattle.spec_exchange.specs.State.{Record, Server};
ghost use Rattle.law_records.specs.recovery.Restarted.{EntriesLeft};
ghost use Rattle.law_server.specs.tables.Fits.{Fits, all_sound};
ghost use Rattle.law_snapshots.specs.behind.Found.{FoundFor};
ghost use Rattle.law_snapshots.specs.restarts.Reopened.{RestartKept, reopened, reopening_records};
ghost use Rattle.law_snapshots.specs.snapshots.Pieces.{SnapshotPiece, unfolded};

/// A start over a snapshot and records that stand for a server stands where it stood: its persistent opens with all that is theirs, in a
/// new epoch of ids, without a session; and the files that are there, with their bytes (`stands`). Each is at its path, but for delete
/// pending ones that no such open has: those go, and a directory that can't go is delete pending no longer (`entries`). The snapshot and
/// the records, with those that the start writes behind them, stand for the server that it makes (`goes_on`), and that fits together
/// (`fits`), where what the snapshot stands for does and no record makes an open that deletes the root on close. Over a snapshot of no
/// pieces it is the start over records alone (`plain`).
pub fn restart_over_law()
    ensures stands { (z : Configuration) (bytes : ℕ) (base : List SnapshotPiece) (stored : ℕ → List ℕ) (since : List Record) (s : Server)
        → FoundFor base stored since s → RestartKept s (reopened z bytes base stored since) }
    ensures entries { (z : Configuration) (bytes : ℕ) (base : List SnapshotPiece) (stored : ℕ → List ℕ) (since : List Record) (s : Server)
        → Fits (unfolded base stored) → all_sound since ≡ true → Fits s → FoundFor base stored since s
        → EntriesLeft s (reopened z bytes base stored since) }
    ensures goes_on { (z : Configuration) (bytes : ℕ) (base : List SnapshotPiece) (stored : ℕ → List ℕ) (since : List Record) (s : Server)
        → z.room ≤ full_room → Fits s → FoundFor base stored since s
        → FoundFor base stored (since ++ reopening_records base stored since) (reopened z bytes base stored since) }
    ensures fits { (z : Configuration) (bytes : ℕ) (base : List SnapshotPiece) (stored : ℕ → List ℕ) (since : List Record)
        → z.room ≤ full_room → Fits (unfolded base stored) → all_sound since ≡ true → Fits (reopened z bytes base stored since) }
    ensures plain { (z : Configuration) (bytes : ℕ) (rs : List Record) → reopened z bytes [] (λ f. []) rs ≡ recovered z bytes rs }
{}
