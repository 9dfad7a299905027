ghost use Rattle.std.specs.Prelude.{◌≡◌, false, [], ◌∷◌};
ghost use Rattle.spec_wire.specs.messages.Places.{number};
ghost use Rattle.spec_wire.specs.messages.Chain.{is_badly_linked};
ghost use Rattle.spec_wire.specs.messages.Fault.{◌or_else◌, Reads, short_fault};
ghost use Rattle.spec_wire.specs.messages.Directory.{link_fault};
ghost use Rattle.wire_info.specs.classes.Listing.{ReadsFirstEntry, ReadsListing};

use crate::classes::directory_entry::DirectoryEntry;
use crate::classes::directory_reading::read_directory_entry;
use spec_wire::DirectoryClass;
use std::alloc::Global;
use thiserror::Error;
use wire_bytes::{Cursor, MessageError, Part, is_badly_linked, items_behind, piece_of};

/// The entry that a listing begins with, and how far behind its beginning the next one is, 0 where there is
/// none.
#[derive(Clone, Copy, Debug, PartialEq, Eq)]
pub struct FirstEntry<'a> {
    pub entry: DirectoryEntry<'a>,
    pub next: usize,
}

/// Why bytes give no list of entries.
#[derive(Clone, Copy, Debug, PartialEq, Eq, Error)]
pub enum ListingError {
    #[error("memory ran out")]
    Memory,
    /// The first break. The place of a field that doesn't fit is counted from its entry. A next entry that
    /// isn't at a multiple of 8 or is past the end is told of `Part::Output`.
    #[error("{0}")]
    Message(MessageError),
}

// How far the next entry is.
#[tactic(auto, unfolding(spec_wire::specs::messages::Directory::link_fault))]
fn next_of(m: &[u8]) -> Result<usize, MessageError>
    ensures { Reads (short_fault m.now 0 (4 ∷ []) or_else link_fault m.now) (λ n. (n ≡ number 4 m.now 0)
        × (is_badly_linked m.now ≡ false)) (λ n. n) result }
{
    let mut cursor = Cursor::new(m);
    let next = cursor.get_u32()? as usize;
    if is_badly_linked(m, next) {
        return Err(MessageError::BadOffset(Part::Output));
    }
    Ok(next)
}

/// The entry that a listing begins with, laid out by its class. The entries behind it begin `next` bytes
/// behind it.
pub fn first_entry(class: DirectoryClass, m: &[u8]) -> Result<FirstEntry<'_>, MessageError>
    ensures { ReadsFirstEntry class m.now result }
{
    let next = next_of(m)?;
    let entry = read_directory_entry(class, piece_of(m, next))?;
    Ok(FirstEntry { entry, next })
}

/// The entries of a listing, laid out by their class; no bytes are none.
pub fn read_listing(
    alloc: Global,
    class: DirectoryClass,
    m: &[u8],
) -> Result<Vec<DirectoryEntry<'_>>, ListingError>
    ensures { ReadsListing (λ v. v.items) class m.now result }
{
    let mut found = Vec::new(alloc);
    if m.is_empty() {
        return Ok(found);
    }
    let mut rest = m;
    loop {
        let head = match first_entry(class, rest) {
            Ok(head) => head,
            Err(error) => return Err(ListingError::Message(error)),
        };
        if found.push(head.entry).is_err() {
            return Err(ListingError::Memory);
        }
        if head.next == 0 {
            return Ok(found);
        }
        rest = items_behind(rest, head.next);
    }
}
