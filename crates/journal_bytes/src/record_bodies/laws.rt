ghost use Rattle.std.specs.Prelude.{◌≡◌, ◌∷◌, ℕ, List, length};
ghost use Rattle.spec_exchange.specs.Records.{entry_bytes, fits};
ghost use Rattle.spec_exchange.specs.State.{Record, Server};
ghost use Rattle.journal_bytes.specs.declared.record_bytes.value.Record as spelled;
ghost use Rattle.journal_bytes.specs.record_bytes.Grammar.{SpellsRecords};
ghost use Rattle.journal_bytes.specs.record_bodies.Body.{IsBody, IsBodyOf, added_by, fits_by};

/// The body of records takes as many bytes as the model reckons, fits where they do below the lower limit, and reads back.
pub fn body_law()
    ensures added { (body : List ℕ) (rs : List Record) → IsBodyOf body rs → added_by body ≡ entry_bytes rs }
    ensures fits { (s : Server) (body : List ℕ) (rs : List Record) → s.limit ≡ 939524096 → IsBodyOf body rs
        → fits s rs ≡ fits_by s.journal (length body) }
    ensures again { (body : List ℕ) (r : spelled.Record) (rs : List spelled.Record) → IsBody body (r ∷ rs)
        → SpellsRecords 2 body (r ∷ rs) }
{}
