// What the checksum is of parts, and the published values. Each function does nothing, and its contract is the law.
ghost use Rattle.std.specs.Prelude.{◌≡◌, ℕ, List, ◌++◌, replicate};
ghost use Rattle.spec_journal.specs.Castagnoli.{behind_bytes, crc32c};
ghost use Rattle.spec_journal.specs.Vectors.{digits, downwards, upwards};

/// Bytes may come part by part.
pub fn sums_law()
    ensures parts { (left : ℕ) (a b : List ℕ) → behind_bytes left (a ++ b) ≡ behind_bytes (behind_bytes left a) b }
{}

/// The published values: of the digits 1 to 9; and those of RFC 3720 B.4, of 32 bytes of zeros, of ones, of 0 to 31, of 31 to 0.
pub fn vectors_example()
    ensures text { crc32c digits ≡ 0xe306_9283 }
    ensures zeros { crc32c (replicate 32 0) ≡ 0x8a91_36aa }
    ensures ones { crc32c (replicate 32 255) ≡ 0x62a8_ab43 }
    ensures rising { crc32c (upwards 32) ≡ 0x46dd_794e }
    ensures falling { crc32c (downwards 32) ≡ 0x113f_db5c }
{}
