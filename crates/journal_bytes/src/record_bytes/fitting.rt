//! Whether records can be written.
ghost use Rattle.std.specs.Prelude.{◌≡◌, ◌<◌, length, IsTrue, ◌↔◌};
ghost use Rattle.spec_wire.specs.messages.Utf16.{units_of};
ghost use Rattle.journal_bytes.specs.record_bytes.Grammar.{TextFits, OpenFits, WrittenRecordFits, WrittenRecordsFit};

use crate::record_bytes::value::{NewOpen, Record};
use wire_bytes::Text;

// How many bytes a character takes in UTF-16.
#[tactic(auto, using(crate::proofs::record_bytes::Characters::short_units, crate::proofs::record_bytes::Characters::long_units))]
fn units_size(character: char) -> u32
    ensures { result ≡ length (units_of character) }
{
    if (character as u32) < 0x10000 { 2 } else { 4 }
}

/// Whether a text has fewer than 65,536 bytes in UTF-16.
pub fn is_short(text: &str) -> bool
    ensures { IsTrue result ↔ TextFits text.now }
{
    let mut size = 0u32;
    for character in text.chars() {
        size = size.saturating_add(units_size(character));
    }
    size < 65536
}

fn text_fits(text: &Text) -> bool
    ensures { IsTrue result ↔ TextFits text.now }
{
    is_short(text.as_str())
}

fn open_fits(opened: &Option<NewOpen>) -> bool
    ensures { IsTrue result ↔ OpenFits opened.now }
{
    match opened {
        Some(open) => text_fits(&open.user),
        None => true,
    }
}

fn record_fits(r: &Record) -> bool
    ensures { IsTrue result ↔ WrittenRecordFits r.now }
{
    match r {
        Record::Create { path, opened, .. } => text_fits(path) && open_fits(opened),
        Record::Write { bytes, .. } => bytes.len() < 0x1_0000_0000,
        Record::Rename { path, .. } => text_fits(path),
        Record::Lock { elements, .. } => elements.len() / 24 < 65536 && elements.len() % 24 == 0,
        Record::Version { number } => *number == 2,
        _ => true,
    }
}

/// Whether each text has fewer than 65,536 bytes in UTF-16, the bytes of each write are fewer than 2^32, the elements of each
/// lock are whole ones and fewer than 65,536, and each version told is 2: `write_records` asks for it.
pub fn can_write(records: &[Record]) -> bool
    ensures { IsTrue result ↔ WrittenRecordsFit records.now }
{
    for r in records {
        if !record_fits(r) {
            return false;
        }
    }
    true
}
