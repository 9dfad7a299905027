ghost use Rattle.std.specs.Prelude.{◌≡◌, ℕ, ◌≤◌, List, ◌++◌, ◌∷◌, length};
ghost use Rattle.spec_exchange.specs.State.{Server};
ghost use Rattle.law_snapshots.specs.snapshots.Pieces.{FileBytes, SnapshotPiece, snapshot};
ghost use Rattle.journal_bytes.specs.piece_bytes.Grammar.{AreWritablePieces, BreaksPieces, SpellsPieces, pieces_spelling};
ghost use Rattle.journal_bytes.specs.piece_bytes.Examples.{base_told, bytes_told, few_pieces, file_told, guid_told, open_told, range_told, slot_told};
ghost use Rattle.journal_bytes.specs.piece_bytes.Largest.{IsWithinLimits, pieces_size};
ghost use Rattle.journal_bytes.specs.record_bytes.Grammar.{SpellsRecords};
ghost use Rattle.journal_bytes.specs.declared.record_bytes.value.Record.{Record};

/// A body is one list of pieces at most, or has one first break. Pieces that were written are read as they were. No body that
/// has pieces has records.
pub fn pieces_law()
    ensures one { (m : List ℕ) (ps qs : List SnapshotPiece) → SpellsPieces m ps → SpellsPieces m qs → ps ≡ qs }
    ensures whole { (m : List ℕ) (place : ℕ) (ps : List SnapshotPiece) → BreaksPieces m place → SpellsPieces m ps → ⊥ }
    ensures first { (m : List ℕ) (p q : ℕ) → BreaksPieces m p → BreaksPieces m q → p ≡ q }
    ensures again { (ps : List SnapshotPiece) → AreWritablePieces ps → SpellsPieces (pieces_spelling ps) ps }
    ensures apart { (v : ℕ) (m : List ℕ) (p : SnapshotPiece) (ps : List SnapshotPiece) (rs : List Record) → SpellsPieces m (p ∷ ps)
        → SpellsRecords v m rs → ⊥ }
{}

/// Pieces take as many bytes as is reckoned (`size`). The snapshot of a server within the limits takes at most 873,316,409 bytes
/// (`largest`): with 5 around each body, up to 13 million bodies stay below the journal's lower limit, 939,524,096.
pub fn largest_law()
    ensures size { (ps : List SnapshotPiece) → AreWritablePieces ps → length (pieces_spelling ps) ≡ pieces_size ps }
    ensures largest { (s : Server) (held : ℕ → FileBytes) (guids : List (ℕ × ℕ)) → IsWithinLimits s held guids
        → pieces_size (snapshot s held guids) ≤ 873316409 }
{}

/// One piece of each kind, in bytes worked out by hand.
pub fn pieces_example()
    ensures { pieces_spelling few_pieces ≡ base_told ++ (file_told ++ (bytes_told ++ (open_told ++ (slot_told ++ (range_told ++ guid_told))))) }
{}
