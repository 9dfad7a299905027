//! The checksum of an entry, and what it tells of a changed byte.
//!
//! Each law is a public function with an empty body, whose contract is the statement.

ghost use Rattle.std.specs.Prelude.{◌≡◌, ◌≢◌, ℕ, ◌<◌, ◌^◌, List, [], ◌∷◌, ◌++◌, length, replicate};
ghost use Rattle.spec_journal.specs.Castagnoli.{AreBytes, behind_bytes, crc32c};
ghost use Rattle.spec_journal.specs.Forms.{NoEntryAt, form_front};
ghost use Rattle.spec_journal.specs.Vectors.{digits, downwards, read_command, upwards};
ghost use Rattle.spec_journal.specs.declared.form.Form.TheVariants.{Summed};
ghost use Rattle.spec_wire.specs.journal.Grammar.{AllFit, entry};
ghost use Rattle.spec_wire.specs.messages.Places.{le};

/// The published values: of the digits 1 to 9; and those of RFC 3720 B.4, of 32 bytes of zeros, of ones, of 0 to 31, of 31 to 0, and of a
/// command.
pub fn checksum_example()
    ensures text { crc32c digits ≡ 0xe306_9283 }
    ensures zeros { crc32c (replicate 32 0) ≡ 0x8a91_36aa }
    ensures ones { crc32c (replicate 32 255) ≡ 0x62a8_ab43 }
    ensures rising { crc32c (upwards 32) ≡ 0x46dd_794e }
    ensures falling { crc32c (downwards 32) ≡ 0x113f_db5c }
    ensures command { crc32c read_command ≡ 0xd996_3a56 }
{}

/// Of one body of one byte the journal of the second form is worked by hand.
pub fn summed_example()
    ensures { form_front Summed ((65 ∷ []) ∷ []) ++ 0 ∷ [] ≡ 115 ∷ 109 ∷ 98 ∷ 51 ∷ 49 ∷ 49 ∷ 106 ∷ 50 ∷ 1 ∷ 1 ∷ 0 ∷ 0 ∷ 0
        ∷ 0x26 ∷ 0x87 ∷ 0x73 ∷ 0xce ∷ 65 ∷ 0 ∷ [] }
{}

/// Bytes may come part by part (`parts`). One byte that is changed alone changes the checksum (`changed`), which has 32 bits (`small`).
pub fn checksum_law()
    ensures parts { (left : ℕ) (a b : List ℕ) → behind_bytes left (a ++ b) ≡ behind_bytes (behind_bytes left a) b }
    ensures changed { (front rest : List ℕ) (b c : ℕ) → AreBytes front → AreBytes rest → b < 256 → c < 256 → b ≢ c
        → crc32c (front ++ b ∷ rest) ≢ crc32c (front ++ c ∷ rest) }
    ensures small { (bytes : List ℕ) → AreBytes bytes → crc32c bytes < 2 ^ 32 }
{}

/// A byte of a body that is another than the one that was written is found: behind the bodies before it, its gate has no entry, whatever
/// follows.
pub fn changed_byte_law()
    ensures { (before : List (List ℕ)) (front rest more : List ℕ) (b c : ℕ) → AllFit before → length (front ++ b ∷ rest) < 2 ^ 32
        → AreBytes front → AreBytes rest → b < 256 → c < 256 → b ≢ c
        → NoEntryAt (form_front Summed before ++ 1 ∷ (le 4 (length (front ++ b ∷ rest))
        ++ (le 4 (crc32c (entry (front ++ b ∷ rest))) ++ ((front ++ c ∷ rest) ++ more)))) (length (form_front Summed before)) }
{}
