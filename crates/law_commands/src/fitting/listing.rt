//! Listings in each class (MS-SMB2 2.2.33, MS-FSCC 2.4).
ghost use Rattle.std.specs.Prelude.{◌≡◌, ◌^◌, ◌<◌, ◌++◌, ℕ, Bool, List, length, None, Some};
ghost use Rattle.spec_wire.specs.declared.messages.directory_class.DirectoryClass.{DirectoryClass};
ghost use Rattle.spec_wire.specs.messages.Directory.{SpellsListing};
ghost use Rattle.spec_wire.specs.messages.QueryDirectory.{query_directory_response_fault, query_directory_response_in};
ghost use Rattle.spec_exchange.specs.Commands.{ListDirectory};
ghost use Rattle.spec_exchange.specs.State.{Named, Listing};
ghost use Rattle.spec_commands.specs.Infos as infos;
ghost use Rattle.spec_commands.specs.ReplyBody.{success_body};
ghost use Rattle.spec_commands.specs.ReplyOf.{body_in};
ghost use Rattle.spec_commands.specs.Tables.{directory_class};
ghost use Rattle.law_commands.specs.fitting.Listings.{AreListingEntries, as_listed};

use law_wire::{directory_entry_law, listing_law, query_directory_response_law};

/// The success of a QUERY_DIRECTORY in any class is heard as the names that were written, with the lengths that the class tells,
/// and its output reads as all that the class tells of each entry.
pub fn listing_reply_law()
    ensures heard { (header rest token : List ℕ) (file class : ℕ) (restart single : Bool) (pattern : List ℕ)
        (room : ℕ) (c : DirectoryClass) (ns : List Named) → length header ≡ 64 → directory_class class ≡ Some c
        → AreListingEntries ns → length (infos.listing_bytes class ns) < 256 ^ 4
        → body_in (ListDirectory file class restart single pattern room) (header
        ++ (success_body token (ListDirectory file class restart single pattern room) (Listing class ns) ++ rest))
        ≡ Some (Listing class (as_listed c ns)) }
    ensures output { (header rest token : List ℕ) (file class told : ℕ) (restart single : Bool) (pattern : List ℕ)
        (room : ℕ) (ns : List Named) → length header ≡ 64 → length (infos.listing_bytes told ns) < 256 ^ 4
        → let m = header
        ++ (success_body token (ListDirectory file class restart single pattern room) (Listing told ns) ++ rest)
        in (query_directory_response_fault m ≡ None)
        × ((query_directory_response_in m).output ≡ infos.listing_bytes told ns) }
    ensures entries { (class : ℕ) (c : DirectoryClass) (ns : List Named) → directory_class class ≡ Some c
        → AreListingEntries ns → SpellsListing c (infos.listing_bytes class ns) (infos.entries_of c ns) }
{
    query_directory_response_law();
    directory_entry_law();
    listing_law();
}
