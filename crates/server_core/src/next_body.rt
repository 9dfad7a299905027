//! The body of an event's records, behind those that stand on the disk: what they spell together.
//!
//! The law is a public function with an empty body but for the laws that it rests on; its contract is the statement.

ghost use Rattle.std.specs.Prelude.{◌≡◌, ◌++◌, ℕ, List};
ghost use Rattle.spec_exchange.specs.Fold.{fold};
ghost use Rattle.spec_exchange.specs.State.{Record, Server, ServerEvent};
ghost use Rattle.spec_exchange.specs.Step.{step};
ghost use Rattle.spec_world.specs.Lacking.{Expires, alone_records};
ghost use Rattle.law_server.specs.tables.Fits.{Fits};
ghost use Rattle.law_snapshots.specs.snapshots.Pieces.{SnapshotPiece};
ghost use Rattle.journal_bytes.specs.record_bodies.Body.{IsBodyOf, bodies_of};
ghost use Rattle.server_core.specs.Over.{StandsOver, found_over};
ghost use Rattle.server_core.specs.Reading.{BodiesSpell, SpellOver};

use crate::laws::more_law;
use journal_bytes::body_law;

/// Where bodies spell records of version 2, these and the body of further records, if it has any, spell them all (`spelled`), and so they
/// do behind a snapshot (`over`). The base and the records behind it go on standing for a server that fits together, with the records of
/// an event (`stepped`), and with those of an expiry that stands alone (`alone`).
pub fn behind_law()
    ensures spelled { (bodies : List (List ℕ)) (rs more : List Record) (body : List ℕ) → BodiesSpell bodies rs → (fold rs).version ≡ 2
        → IsBodyOf body more → BodiesSpell (bodies ++ bodies_of body) (rs ++ more) }
    ensures over { (base : List SnapshotPiece) (bodies : List (List ℕ)) (rs more : List Record) (body : List ℕ) → SpellOver base bodies rs
        → (found_over base rs).version ≡ 2 → IsBodyOf body more → SpellOver base (bodies ++ bodies_of body) (rs ++ more) }
    ensures stepped { (base : List SnapshotPiece) (rs : List Record) (s : Server) (now : ℕ) (e : ServerEvent) → Fits s
        → StandsOver base rs s → StandsOver base (rs ++ (step s now e).records) (step s now e).server }
    ensures alone { (base : List SnapshotPiece) (rs : List Record) (s : Server) (now : ℕ) (e : ServerEvent) (t : Server) (o : ℕ) → Fits s
        → StandsOver base rs s → Expires s now e t o → StandsOver base (rs ++ alone_records s now e o) t }
{
    body_law();
    more_law();
    law_snapshots::behind_law();
}
