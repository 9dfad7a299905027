ghost use Rattle.std.specs.Prelude.{◌≡◌, ℕ, List, length};
ghost use Rattle.spec_exchange.specs.Records.{records_size};
ghost use Rattle.journal_bytes.specs.record_bytes.Grammar.{AreInRange, AreWritableRecords, BreaksRecords, WrittenRecordsFit, SpellsRecords};
ghost use Rattle.journal_bytes.specs.record_bytes.Grammar.{records_spelling};
ghost use Rattle.journal_bytes.specs.record_bytes.Meaning.{records_of};
ghost use Rattle.journal_bytes.specs.declared.record_bytes.value.Record.{Record};

/// A body is one list of records at most, or has one first break. Records that were written are read as they were,
/// and take as many bytes as the model reckons. Whatever `can_write` lets pass is such, so it reads back.
pub fn records_law()
    ensures one { (v : ℕ) (m : List ℕ) (rs ss : List Record) → SpellsRecords v m rs → SpellsRecords v m ss → rs ≡ ss }
    ensures whole { (v : ℕ) (m : List ℕ) (place : ℕ) (rs : List Record) → BreaksRecords v m place → SpellsRecords v m rs → ⊥ }
    ensures first { (v : ℕ) (m : List ℕ) (p q : ℕ) → BreaksRecords v m p → BreaksRecords v m q → p ≡ q }
    ensures again { (rs : List Record) → AreWritableRecords rs → SpellsRecords 2 (records_spelling rs) rs }
    ensures size { (rs : List Record) → AreWritableRecords rs → length (records_spelling rs) ≡ records_size (records_of rs) }
    ensures fit { (rs : List Record) → WrittenRecordsFit rs → AreInRange rs → AreWritableRecords rs }
    ensures fit_again { (rs : List Record) → WrittenRecordsFit rs → AreInRange rs → SpellsRecords 2 (records_spelling rs) rs }
{}
