//! The names of a listing that a client hears.
ghost use Rattle.std.specs.Prelude.{◌≡◌, ◌+◌, ◌<◌, ◌∷◌, length, drop, IfOk, option_map, map};
ghost use Rattle.wire_info.specs.classes.Views.{directory_entry};
ghost use Rattle.wire_info.specs.classes.Listing.{entries};
ghost use Rattle.spec_commands.specs.ReplyOf;
ghost use Rattle.wire_commands.specs.values.Meaning;

use crate::reading::hearing::of_length;
use crate::reading::texts::text_in;
use crate::values::{Body, Named, directory_class};
use law_commands::same_listing_law;
use std::alloc::{AllocError, Global};
use wire_info::{DirectoryClass, DirectoryEntry, ListingError, read_listing};

// An entry, with those behind it.
fn entry_at<'a>(found: &[DirectoryEntry<'a>], at: usize) -> DirectoryEntry<'a>
    requires { at < length found.now }
    ensures { drop at (entries found.now) ≡ directory_entry result ∷ drop (at + 1) (entries found.now) }
{
    found[at]
}

// The names of entries, where all are text.
fn names_of(alloc: Global, found: &[DirectoryEntry<'_>]) -> Result<Option<Vec<Named>>, AllocError>
    ensures { IfOk result (λ names. option_map (λ v. map Meaning.named_of v.items) names ≡ ReplyOf.names_of (entries found.now)) }
{
    let mut names = Vec::new(alloc);
    for at in 0..found.len() {
        let entry = entry_at(found, at);
        let text = match text_in(alloc, entry.name) {
            Ok(text) => text,
            Err(error) => return Err(error),
        };
        match text {
            Some(name) => names.push(Named {
                name,
                info: of_length(entry.end_of_file),
            })?,
            None => return Ok(None),
        }
    }
    Ok(Some(names))
}

fn listing_by(
    alloc: Global,
    class: DirectoryClass,
    number: u8,
    bytes: &[u8],
) -> Result<Option<Body>, AllocError>
    ensures { IfOk result (λ found. option_map Meaning.body_of found ≡ ReplyOf.listing_by (Some class) number bytes.now) }
{
    same_listing_law();
    let found = match read_listing(alloc, class, bytes) {
        Ok(found) => found,
        Err(ListingError::Memory) => return Err(AllocError),
        Err(ListingError::Message(_)) => return Ok(None),
    };
    match names_of(alloc, found.as_slice()) {
        Ok(Some(entries)) => Ok(Some(Body::Listing {
            class: number,
            entries,
        })),
        Ok(None) => Ok(None),
        Err(error) => Err(error),
    }
}

#[tactic(auto, unfolding(spec_commands::specs::ReplyOf::listing_in))]
pub(crate) fn listing_in(alloc: Global, class: u8, bytes: &[u8]) -> Result<Option<Body>, AllocError>
    ensures { IfOk result (λ found. option_map Meaning.body_of found ≡ ReplyOf.listing_in class bytes.now) }
{
    match directory_class(class) {
        Some(known) => listing_by(alloc, known, class, bytes),
        None => Ok(None),
    }
}
