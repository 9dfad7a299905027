ghost use Rattle.std.specs.Prelude.{◌≡◌, ◌+◌, ◌*◌, ◌^◌, ◌<◌, ◌++◌, ℕ, List, [], length, None};
ghost use Rattle.spec_wire.specs.messages.Places.{le, number_of, bytes_at};
ghost use Rattle.spec_wire.specs.messages.Table.{Field, Stands, with_fields, AreWritable, IsPart, IsCounted, layout, widths};
ghost use Rattle.spec_wire.specs.messages.Fault.{short_fault, part_fault, count_fault};
ghost use Rattle.spec_wire.specs.declared.messages.error.Part.{Part};

/// A number in `w` bytes has `w` bytes, and is read as it was written where it fits.
pub fn number_law()
    ensures width { (w n : ℕ) → length (le w n) ≡ w }
    ensures again { (w n : ℕ) → n < 256 ^ w → number_of (le w n) ≡ n }
{}

/// The fields of a table: at one place at most one table of a layout stands; fields that stand have
/// room; fields that are written, between any bytes, stand there.
pub fn table_law()
    ensures one { (m : List ℕ) (at : ℕ) (fs gs : List Field) → layout fs ≡ layout gs → Stands m at fs → Stands m at gs → fs ≡ gs }
    ensures whole { (m : List ℕ) (at : ℕ) (fs : List Field) → Stands m at fs → short_fault m at (widths fs) ≡ None }
    ensures again { (front rest : List ℕ) (fs : List Field) → AreWritable fs
        → Stands (front ++ (with_fields [] fs ++ rest)) (length front) fs }
{}

/// The variable parts: a part or a list that stands breaks nothing, and where nothing breaks, it stands.
pub fn part_law()
    ensures part { (m : List ℕ) (at len fixed : ℕ) (bytes : List ℕ) (part : Part) → IsPart m at len fixed bytes
        → part_fault m at len fixed part ≡ None }
    ensures given_part { (m : List ℕ) (at len fixed : ℕ) (part : Part) → part_fault m at len fixed part ≡ None
        → IsPart m at len fixed (bytes_at len m at) }
    ensures list { (m : List ℕ) (at count each : ℕ) (bytes : List ℕ) (part : Part) → IsCounted m at count each bytes
        → count_fault m at count each part ≡ None }
    ensures given_list { (m : List ℕ) (at count each : ℕ) (part : Part) → count_fault m at count each part ≡ None
        → IsCounted m at count each (bytes_at (count * each) m at) }
{}
