ghost use Rattle.std.specs.Prelude.{◌≡◌, ℕ, List, Some, None, IsUtf8};
ghost use Rattle.spec_wire.specs.messages.Chain.{BreaksChain, IsChainOf};
ghost use Rattle.spec_wire.specs.messages.CreateContexts.{SpellsCreateContexts, first_fault, request_due, CreateContext, IsContext};
ghost use Rattle.spec_wire.specs.messages.Utf16.{utf16, BreaksUtf16};
ghost use Rattle.spec_wire.specs.declared.messages.chain_error.ChainError.{ChainError};
ghost use Rattle.spec_wire.specs.declared.messages.context.CreateContexts.{CreateContexts};
ghost use Rattle.spec_wire.specs.declared.messages.refusal.TextError.{TextError};
ghost use Rattle.spec_wire.specs.declared.messages.refusal.TextError.TheVariants as errors;
ghost use Rattle.spec_commands.specs.Clashes.{clash, clash_in};
ghost use Rattle.spec_commands.specs.CommandOf.{contexts_in};
ghost use Rattle.spec_commands.specs.Text.{text_in};
ghost use Rattle.spec_commands.specs.Items.{items_in};
ghost use Rattle.std.specs.Prelude.{is_some};
ghost use Rattle.spec_wire.specs.messages.Directory.{DirectoryEntryValue, SpellsListing, BreaksListing};
ghost use Rattle.spec_wire.specs.messages.Directory.{directory_entry_in, first_entry_fault};
ghost use Rattle.spec_wire.specs.declared.messages.directory_class.DirectoryClass.{DirectoryClass};
ghost use Rattle.spec_wire.specs.declared.messages.error.MessageError.{MessageError};

use law_wire::directory_entry_law;

/// Contexts and texts read as the wire's own grammar says: what is spelled gives its value, and what has a
/// break gives none. Contexts clash as those that are spelled.
pub fn same_reading_law()
    ensures contexts { (m : List ℕ) (c : CreateContexts) → SpellsCreateContexts m c → contexts_in m ≡ Some c }
    ensures no_contexts { (m : List ℕ) (e : ChainError) → BreaksChain (first_fault request_due) m e → contexts_in m ≡ None }
    ensures clash { (m : List ℕ) (vs : List CreateContext) → IsChainOf (IsContext request_due) m vs → clash_in m ≡ clash vs }
    ensures text { (t : List ℕ) → IsUtf8 t → text_in (utf16 t) ≡ Some t }
    ensures no_text { (bytes : List ℕ) (e : TextError) → BreaksUtf16 bytes e → (e ≡ errors.Memory → ⊥) → text_in bytes ≡ None }
{}

/// A listing reads as the wire's own grammar says, in each class: its entries, or none where it has a break.
pub fn same_listing_law()
    ensures listing { (c : DirectoryClass) (m : List ℕ) (vs : List DirectoryEntryValue) → SpellsListing c m vs
        → items_in (directory_entry_in c) (λ m. is_some (first_entry_fault c m)) m ≡ Some vs }
    ensures no_listing { (c : DirectoryClass) (m : List ℕ) (e : MessageError) → BreaksListing c m e
        → items_in (directory_entry_in c) (λ m. is_some (first_entry_fault c m)) m ≡ None }
{
    directory_entry_law();
}
