ghost use Rattle.std.specs.Prelude.{◌≡◌, ◌++◌, ℕ, List, None};
ghost use Rattle.spec_wire.specs.messages.Directory.{DirectoryEntryValue, SpellsDirectoryEntry, IsWritableDirectoryEntry};
ghost use Rattle.spec_wire.specs.messages.Directory.{directory_entry_fault, directory_entry_in, directory_entry_spelling};
ghost use Rattle.spec_wire.specs.messages.Directory.{SpellsListing, BreaksListing, listing_spelling};
ghost use Rattle.law_wire.specs.info.Entries.{AreWritableEntries};
ghost use Rattle.spec_wire.specs.declared.messages.directory_class.DirectoryClass.{DirectoryClass};
ghost use Rattle.spec_wire.specs.declared.messages.error.MessageError.{MessageError};

/// The laws of an entry of a listing, for each class. `next` is the place of the next entry that is written
/// in it.
pub fn directory_entry_law()
    ensures one { (c : DirectoryClass) (m : List ℕ) (v w : DirectoryEntryValue) → SpellsDirectoryEntry c m v
        → SpellsDirectoryEntry c m w → v ≡ w }
    ensures whole { (c : DirectoryClass) (m : List ℕ) (v : DirectoryEntryValue) → SpellsDirectoryEntry c m v
        → directory_entry_fault c m ≡ None }
    ensures given { (c : DirectoryClass) (m : List ℕ) → directory_entry_fault c m ≡ None
        → SpellsDirectoryEntry c m (directory_entry_in c m) }
    ensures again { (c : DirectoryClass) (rest : List ℕ) (v : DirectoryEntryValue) (next : ℕ)
        → IsWritableDirectoryEntry c v next → SpellsDirectoryEntry c (directory_entry_spelling c v next ++ rest) v }
{}

/// The laws of a listing: bytes are one list of entries at most; what is a listing breaks nothing; there is
/// at most one first break; a canonical listing reads back.
pub fn listing_law()
    ensures one { (c : DirectoryClass) (m : List ℕ) (vs ws : List DirectoryEntryValue) → SpellsListing c m vs
        → SpellsListing c m ws → vs ≡ ws }
    ensures whole { (c : DirectoryClass) (m : List ℕ) (vs : List DirectoryEntryValue) (e : MessageError)
        → SpellsListing c m vs → BreaksListing c m e → ⊥ }
    ensures broken { (c : DirectoryClass) (m : List ℕ) (e f : MessageError) → BreaksListing c m e → BreaksListing c m f → e ≡ f }
    ensures again { (c : DirectoryClass) (vs : List DirectoryEntryValue) → AreWritableEntries c vs
        → SpellsListing c (listing_spelling c vs) vs }
{}
