//! How many bytes a listing takes that the exchange model's server gives, and what FileStandardInformation tells of a file.
//!
//! Each law is a public function with an empty body, whose contract is the statement.

ghost use Rattle.law_commands.specs.lengths.Lengths.{UnitsAreCounted, ListingsAreShort, StandardsAreShort};

/// A text has as many units in UTF-16 as the model counts of its bytes in UTF-8.
pub fn units_are_counted_law()
    ensures counted { UnitsAreCounted }
{}

/// A listing of names that are text takes at most 7 bytes more than the room that was asked for, as each entry begins at a multiple of 8
/// and is counted with its name in UTF-16 (MS-FSCC 2.4).
pub fn listings_are_short_law()
    ensures short { ListingsAreShort }
{}

/// FileStandardInformation (MS-FSCC 2.4.47) takes 24 bytes.
pub fn standards_are_short_law()
    ensures short { StandardsAreShort }
{}
