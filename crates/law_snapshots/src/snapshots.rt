//! A snapshot stands for the part of a state that outlives a restart.
//!
//! Each law is a public function with an empty body, whose contract is the statement.

ghost use Rattle.std.specs.Prelude.{◌≡◌, ℕ, List, [], ◌++◌, length};
ghost use Rattle.spec_exchange.specs.State.{Entry, Server};
ghost use Rattle.law_records.specs.fold.Order.{FilesAscend};
ghost use Rattle.law_server.specs.tables.Fits.{Fits};
ghost use Rattle.law_snapshots.specs.snapshots.Kept.{IsOrderOf, Keeps, ListsGuids, SnapshotKeeps, TellsBytes, parts_joined};
ghost use Rattle.law_snapshots.specs.snapshots.Kept.{patches_of};
ghost use Rattle.law_snapshots.specs.snapshots.Pieces.{FileBytes, shown, snapshot, snapshot_in, unfolded};

use law_records::keeps_law;

/// Of a server that fits together, with its files in the order of their numbers: what its snapshot stands for is all that outlives a
/// restart of it, its files with their bytes, its persistent opens with their rows, slots, guids and ranges in their order, the guids
/// of expired ones, and the numbers; however the bytes are told, and whichever of them are stored beside the journal.
pub fn snapshot_law()
    ensures { (s : Server) (held : ℕ → FileBytes) (guids : List (ℕ × ℕ)) → SnapshotKeeps s held guids }
{}

/// What the snapshot of a server that fits together stands for fits together too (`fits`), with its files in the order of their numbers
/// (`ascends`); and so does what no pieces stand for, whatever is stored beside the journal (`none`).
pub fn snapshot_fits_law()
    ensures fits { (s : Server) (held : ℕ → FileBytes) (guids : List (ℕ × ℕ)) → Fits s → FilesAscend s → TellsBytes s held
        → ListsGuids s guids → Fits (unfolded (snapshot s held guids) s.stored) }
    ensures ascends { (s : Server) (held : ℕ → FileBytes) (guids : List (ℕ × ℕ)) → Fits s → FilesAscend s → TellsBytes s held
        → ListsGuids s guids → FilesAscend (unfolded (snapshot s held guids) s.stored) }
    ensures none { (stored : ℕ → List ℕ) → Fits (unfolded [] stored) }
{
    keeps_law();
}

/// In whatever order the files are told, once each, and whatever is stored beside the journal, if the bytes are told over it: what the
/// pieces stand for is all that outlives a restart of the server (`keeps`), and it fits together (`fits`), with its files in the order of
/// their numbers (`ascends`).
pub fn order_law()
    ensures keeps { (s : Server) (stored : ℕ → List ℕ) (held : ℕ → FileBytes) (guids : List (ℕ × ℕ)) (order : List Entry) → Fits s
        → FilesAscend s → TellsBytes (record s { stored = stored }) held → ListsGuids s guids → IsOrderOf order s.entries
        → Keeps (unfolded (snapshot_in s held guids order) stored) s }
    ensures fits { (s : Server) (stored : ℕ → List ℕ) (held : ℕ → FileBytes) (guids : List (ℕ × ℕ)) (order : List Entry) → Fits s
        → FilesAscend s → TellsBytes (record s { stored = stored }) held → ListsGuids s guids → IsOrderOf order s.entries
        → Fits (unfolded (snapshot_in s held guids order) stored) }
    ensures ascends { (s : Server) (stored : ℕ → List ℕ) (held : ℕ → FileBytes) (guids : List (ℕ × ℕ)) (order : List Entry) → Fits s
        → FilesAscend s → TellsBytes (record s { stored = stored }) held → ListsGuids s guids → IsOrderOf order s.entries
        → FilesAscend (unfolded (snapshot_in s held guids order) stored) }
{
    keeps_law();
}

/// Two ways to tell a file's bytes: nothing of it stored, and all parts of it one behind the other, cut anywhere (`cut`); or all of
/// it stored, with any bytes behind, and nothing told (`stored`).
pub fn held_law()
    ensures cut { (parts : List (List ℕ)) (w : List ℕ)
        → shown (record { stored = 0; patches = patches_of 0 parts }) (length (parts_joined parts)) w ≡ parts_joined parts }
    ensures stored { (bytes more : List ℕ)
        → shown (record { stored = length bytes; patches = [] }) (length bytes) (bytes ++ more) ≡ bytes }
{}
