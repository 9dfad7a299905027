//! A journal that is written anew in a draft beside it, which then takes its name.
//!
//! Each law is a public function with an empty body but for the laws that it rests on; its contract is the statement.

ghost use Rattle.std.specs.Prelude.{◌≡◌, ◌⊎◌, ℕ, ◌+◌, ◌*◌, ◌≤◌, List, [], true};
ghost use Rattle.spec_exchange.specs.Fold.{Configuration};
ghost use Rattle.spec_exchange.specs.State.{Record, Server};
ghost use Rattle.law_records.specs.fold.Order.{FilesAscend};
ghost use Rattle.law_records.specs.recovery.Restarted.{EntriesLeft};
ghost use Rattle.law_server.specs.tables.Fits.{Fits, all_sound};
ghost use Rattle.law_snapshots.specs.behind.Found.{FoundFor};
ghost use Rattle.law_snapshots.specs.drafts.Cost.{AreWorthwhile, Rewriting, all_appended, all_snapshots};
ghost use Rattle.law_snapshots.specs.drafts.Folder.{AllDraftOnly, FolderStep, Folder, FolderLeaves, IsSettledFolder, LeavesDuring};
ghost use Rattle.law_snapshots.specs.drafts.Folder.{behind_steps, rewriting, settling};
ghost use Rattle.law_snapshots.specs.restarts.Reopened.{RestartKept, reopened};
ghost use Rattle.law_snapshots.specs.snapshots.Kept.{ListsGuids, TellsBytes, parts_joined};
ghost use Rattle.law_snapshots.specs.snapshots.Pieces.{FileBytes, SnapshotPiece, snapshot, unfolded};

use law_records::keeps_law;

/// A crash at any moment at which a journal is written anew leaves it as it was, or the new one whole (`whole`). Behind it a crash leaves
/// the new one and nothing else, all of it on the disk under its name (`done`). A draft that is given up, however much of it was written
/// and synced, leaves the journal as it was (`given_up`), so that it goes on, or is written anew from the first part (`goes_on`). Whatever
/// a program that was stopped left, a start settles it, with the bytes that it reads, by two syncs (`settles`).
pub fn draft_law()
    ensures whole { (w : Folder) (parts : List (List ℕ)) (c : List ℕ) → IsSettledFolder w → LeavesDuring w (rewriting parts) c
        → (c ≡ w.journal.bytes) ⊎ (c ≡ parts_joined parts) }
    ensures done { (w : Folder) (parts : List (List ℕ)) → IsSettledFolder (behind_steps w (rewriting parts))
        × ((behind_steps w (rewriting parts)).journal.bytes ≡ parts_joined parts)
        × ((c : List ℕ) → FolderLeaves (behind_steps w (rewriting parts)) c → c ≡ parts_joined parts) }
    ensures given_up { (w : Folder) (steps : List FolderStep) (c : List ℕ) → AllDraftOnly steps → IsSettledFolder w → LeavesDuring w steps c
        → c ≡ w.journal.bytes }
    ensures goes_on { (w : Folder) (steps : List FolderStep) → AllDraftOnly steps → IsSettledFolder w
        → IsSettledFolder (behind_steps w steps)
        × ((behind_steps w steps).journal ≡ w.journal) }
    ensures settles { (w : Folder) → IsSettledFolder (behind_steps w settling)
        × ((behind_steps w settling).journal.bytes ≡ w.journal.bytes) }
{}

/// A server writes its snapshot into the place of its journal. Whatever a crash at any moment of it leaves stands for the server, a
/// snapshot with records behind it as a reader of journals finds them (`stands`), and a start over these stands where the server stood
/// (`restarts`). What the snapshot stands for fits together, and no record makes an open that deletes the root on close, where that held
/// of the journal before (`sound`); then each file is at its path too (`entries`).
pub fn compaction_law()
    ensures stands { (means : List ℕ → List SnapshotPiece × List Record) (w : Folder) (parts : List (List ℕ)) (s : Server)
        (held : ℕ → FileBytes) (guids : List (ℕ × ℕ)) (c : List ℕ) → IsSettledFolder w → Fits s → FilesAscend s → TellsBytes s held
        → ListsGuids s guids → FoundFor (means w.journal.bytes).0 s.stored (means w.journal.bytes).1 s
        → means (parts_joined parts) ≡ (snapshot s held guids, []) → LeavesDuring w (rewriting parts) c
        → FoundFor (means c).0 s.stored (means c).1 s }
    ensures restarts { (means : List ℕ → List SnapshotPiece × List Record) (w : Folder) (parts : List (List ℕ)) (s : Server)
        (held : ℕ → FileBytes) (guids : List (ℕ × ℕ)) (c : List ℕ) (z : Configuration) (bytes : ℕ) → IsSettledFolder w → Fits s
        → FilesAscend s → TellsBytes s held → ListsGuids s guids
        → FoundFor (means w.journal.bytes).0 s.stored (means w.journal.bytes).1 s
        → means (parts_joined parts) ≡ (snapshot s held guids, []) → LeavesDuring w (rewriting parts) c
        → RestartKept s (reopened z bytes (means c).0 s.stored (means c).1) }
    ensures sound { (means : List ℕ → List SnapshotPiece × List Record) (w : Folder) (parts : List (List ℕ)) (s : Server)
        (held : ℕ → FileBytes) (guids : List (ℕ × ℕ)) (c : List ℕ) → IsSettledFolder w → Fits s → FilesAscend s → TellsBytes s held
        → ListsGuids s guids → Fits (unfolded (means w.journal.bytes).0 s.stored) → all_sound (means w.journal.bytes).1 ≡ true
        → means (parts_joined parts) ≡ (snapshot s held guids, []) → LeavesDuring w (rewriting parts) c
        → Fits (unfolded (means c).0 s.stored) × (all_sound (means c).1 ≡ true) }
    ensures entries { (means : List ℕ → List SnapshotPiece × List Record) (w : Folder) (parts : List (List ℕ)) (s : Server)
        (held : ℕ → FileBytes) (guids : List (ℕ × ℕ)) (c : List ℕ) (z : Configuration) (bytes : ℕ) → IsSettledFolder w → Fits s
        → FilesAscend s → TellsBytes s held → ListsGuids s guids
        → FoundFor (means w.journal.bytes).0 s.stored (means w.journal.bytes).1 s
        → Fits (unfolded (means w.journal.bytes).0 s.stored) → all_sound (means w.journal.bytes).1 ≡ true
        → means (parts_joined parts) ≡ (snapshot s held guids, []) → LeavesDuring w (rewriting parts) c
        → EntriesLeft s (reopened z bytes (means c).0 s.stored (means c).1) }
{
    keeps_law();
}

/// A journal is written anew only where that leaves it at least a third smaller. Then all snapshots together have at most twice the bytes
/// of the first and of all that was appended: for each byte that was appended at most three are written in all. Drafts that were given up
/// don't count.
pub fn cost_law()
    ensures { (last : ℕ) (rewritings : List Rewriting) → AreWorthwhile last rewritings
        → all_snapshots rewritings ≤ 2 * (last + all_appended rewritings) }
{}
