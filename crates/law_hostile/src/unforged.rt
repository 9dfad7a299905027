//! What the ends of a run take with a valid signature was signed for its place, or a message of the run is forged.
//!
//! The law is the contract of a public function that does nothing.

ghost use Rattle.law_hostile.specs.unforged.Unforged.{ForgedApart, ForgedOrSigned};

/// Of each run of a network that repeats, reorders and redirects, from wherever it is watched: a message in it is forged, or each
/// message that an end takes with a valid signature was signed by an end before, with that key, for that place (`either`), and
/// never both (`apart`).
pub fn forged_or_signed_law()
    ensures either { ForgedOrSigned }
    ensures apart { ForgedApart }
{}
