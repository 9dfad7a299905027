//! What bodies stand for, one behind the other.
ghost use Rattle.std.specs.Prelude.{ℕ, List, [], ◌∷◌, ◌++◌};
ghost use Rattle.spec_exchange.specs.Fold.{fold};
ghost use Rattle.spec_exchange.specs.State as model;
ghost use Rattle.law_snapshots.specs.snapshots.Pieces.{SnapshotPiece};
ghost use Rattle.journal_bytes.specs.record_bytes.Grammar.{SpellsRecords};
ghost use Rattle.journal_bytes.specs.record_bytes.Meaning.{records_of};
ghost use Rattle.journal_bytes.specs.declared.record_bytes.value.Record.{Record};
ghost use Rattle.server_core.specs.Over.{found_over};
ghost use Rattle.server_core.specs.Reading.{BodiesSpell, SpellOver};

/// With one more body, which spells records in the version that the records before it have reached, bodies spell these records too
/// (`plain`), and so they do behind a snapshot (`over`).
pub fn more_law()
    ensures plain { (bodies : List (List ℕ)) (rs : List model.Record) (body : List ℕ) (more : List Record) → BodiesSpell bodies rs
        → SpellsRecords (fold rs).version body more → BodiesSpell (bodies ++ body ∷ []) (rs ++ records_of more) }
    ensures over { (base : List SnapshotPiece) (bodies : List (List ℕ)) (rs : List model.Record) (body : List ℕ) (more : List Record)
        → SpellOver base bodies rs → SpellsRecords (found_over base rs).version body more
        → SpellOver base (bodies ++ body ∷ []) (rs ++ records_of more) }
{}
