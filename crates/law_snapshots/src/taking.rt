//! What a reader takes of pieces, one by one: whatever it takes fits together, and it takes what a server wrote.
//!
//! Each law is a public function with an empty body but for the law that it rests on; its contract is the statement.

ghost use Rattle.std.specs.Prelude.{◌≡◌, ℕ, true, ◌&&◌, List, [], ◌++◌};
ghost use Rattle.spec_exchange.specs.State.{Entry, Server};
ghost use Rattle.law_records.specs.fold.Order.{FilesAscend};
ghost use Rattle.law_server.specs.tables.Fits.{Fits};
ghost use Rattle.law_snapshots.specs.snapshots.Kept.{IsOrderOf, TellsBytes};
ghost use Rattle.law_snapshots.specs.snapshots.Pieces.{FileBytes, SnapshotPiece, snapshot_in, unfolded, with_piece, with_pieces};
ghost use Rattle.law_snapshots.specs.snapshots.Taken.{AreParentsFirst, IsTakable, are_parents_first, numbered_entries};
ghost use Rattle.law_snapshots.specs.snapshots.Taken.{takes_piece, takes_pieces};

use law_records::keeps_law;

/// A piece that is taken leads from a server that fits together to one that does (`fits`), and from files in the order of their numbers
/// to such (`ascends`). So whatever pieces are taken from the first on, what they stand for fits together, with its files in that order
/// (`unfolded`). Pieces in two parts stand for what the second part makes of the first, and are taken where both are (`joined`).
pub fn piece_fits_law()
    ensures fits { (s : Server) (p : SnapshotPiece) → Fits s → takes_piece s p ≡ true → Fits (with_piece s p) }
    ensures ascends { (s : Server) (p : SnapshotPiece) → FilesAscend s → takes_piece s p ≡ true → FilesAscend (with_piece s p) }
    ensures unfolded { (base : List SnapshotPiece) (stored : ℕ → List ℕ) → takes_pieces (unfolded [] stored) base ≡ true
        → Fits (unfolded base stored) × FilesAscend (unfolded base stored) }
    ensures joined { (s : Server) (ps qs : List SnapshotPiece) → (with_pieces s (ps ++ qs) ≡ with_pieces (with_pieces s ps) qs)
        × (takes_pieces s (ps ++ qs) ≡ (takes_pieces s ps && takes_pieces (with_pieces s ps) qs)) }
{
    keeps_law();
}

/// All pieces of a server's snapshot are taken, one behind the other, where its files are told each behind the directory in which it
/// stands, with some bytes at a time (`all`). That order is one of numbers, each once and behind that of its directory (`order`).
pub fn taken_law()
    ensures all { (s : Server) (stored : ℕ → List ℕ) (held : ℕ → FileBytes) (guids : List (ℕ × ℕ)) (order : List Entry) → Fits s
        → FilesAscend s → TellsBytes (record s { stored = stored }) held → IsOrderOf order s.entries → IsTakable s held guids order
        → takes_pieces (unfolded [] stored) (snapshot_in s held guids order) ≡ true }
    ensures order { (s : Server) (fs : List ℕ) → Fits s → FilesAscend s → AreParentsFirst s fs → IsOrderOf (numbered_entries s fs) s.entries
        × (are_parents_first s [] (numbered_entries s fs) ≡ true) }
{}
