//! Records behind a snapshot: what they lead to depends on no file that is gone, and they go on standing for the server.
//!
//! Each law is a public function with an empty body, whose contract is the statement.

ghost use Rattle.std.specs.Prelude.{ℕ, List, [], ◌++◌};
ghost use Rattle.spec_exchange.specs.Fold.{fold_from};
ghost use Rattle.spec_exchange.specs.State.{Record, Server, ServerEvent};
ghost use Rattle.spec_exchange.specs.Step.{step};
ghost use Rattle.law_records.specs.recovery.Recovers.{Mirrors, RecordRecovers};
ghost use Rattle.law_server.specs.tables.Fits.{Fits};
ghost use Rattle.law_snapshots.specs.behind.Alike.{RecordAlike};
ghost use Rattle.law_snapshots.specs.behind.Found.{FoundFor};
ghost use Rattle.law_snapshots.specs.snapshots.Kept.{Keeps};
ghost use Rattle.law_snapshots.specs.snapshots.Pieces.{SnapshotPiece};
ghost use Rattle.spec_world.specs.Lacking.{Expires, alone_records};

use law_records::{dated_law, keeps_law};

/// Records lead from states that are alike to states that are alike (`alike`). A state that keeps what another has is alike to one
/// that mirrors it column by column (`mirrored`), and what is alike to a state that mirrors another keeps what that has (`kept`).
pub fn alike_law()
    ensures alike { (d e : Server) (rs : List Record) → RecordAlike d e → RecordAlike (fold_from d rs) (fold_from e rs) }
    ensures mirrored { (d s : Server) → Keeps d s → (e : Server) × RecordAlike d e × Mirrors e s }
    ensures kept { (d e s : Server) → RecordAlike d e → Mirrors e s → Keeps d s }
{}

/// A snapshot and the records behind it go on standing for a server that fits together, with the records of an event behind them
/// (`stepped`), and with those of an expiry that stands alone, where memory ran out for the event (`alone`). Records that stand for a
/// server do so behind a snapshot of no pieces, whatever is stored beside the journal (`plain`).
pub fn behind_law()
    ensures stepped { (base : List SnapshotPiece) (stored : ℕ → List ℕ) (since : List Record) (s : Server) (now : ℕ) (e : ServerEvent) → Fits s
        → FoundFor base stored since s → FoundFor base stored (since ++ (step s now e).records) (step s now e).server }
    ensures alone { (base : List SnapshotPiece) (stored : ℕ → List ℕ) (since : List Record) (s : Server) (now : ℕ) (e : ServerEvent) (t : Server)
        (o : ℕ) → Fits s → FoundFor base stored since s → Expires s now e t o → FoundFor base stored (since ++ alone_records s now e o) t }
    ensures plain { (stored : ℕ → List ℕ) (rs : List Record) (s : Server) → RecordRecovers rs s → FoundFor [] stored rs s }
{
    dated_law();
    keeps_law();
}
