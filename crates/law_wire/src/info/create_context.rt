ghost use Rattle.std.specs.Prelude.{◌≡◌, ◌++◌, ℕ, List, length, Option, None};
ghost use Rattle.spec_wire.specs.messages.Table.{AreWritable};
ghost use Rattle.spec_wire.specs.messages.Chain.{BreaksChain};
ghost use Rattle.spec_wire.specs.messages.CreateContexts.{CreateContext, IsContext, HasLength, context_fault, first_fault};
ghost use Rattle.spec_wire.specs.messages.CreateContexts.{context_in, context_whole, context_spelling, request_due, reply_due};
ghost use Rattle.spec_wire.specs.messages.CreateContexts.{SpellsCreateContexts, IsWritableCreateContexts};
ghost use Rattle.spec_wire.specs.messages.CreateContexts.{create_contexts_spelling, SpellsReplyContexts, IsWritableReplyContexts};
ghost use Rattle.spec_wire.specs.messages.CreateContexts.{reply_contexts_spelling};
ghost use Rattle.spec_wire.specs.declared.messages.chain_error.ChainError.{ChainError};
ghost use Rattle.spec_wire.specs.declared.messages.context.CreateContexts.{CreateContexts};
ghost use Rattle.spec_wire.specs.declared.messages.context.ReplyContexts.{ReplyContexts};

/// The laws of one create context, whatever length is due for which name.
pub fn create_context_law()
    ensures one { (due : List ℕ → Option ℕ) (m : List ℕ) (v w : CreateContext) → IsContext due m v → IsContext due m w → v ≡ w }
    ensures whole { (due : List ℕ → Option ℕ) (m : List ℕ) (v : CreateContext) → IsContext due m v → context_fault due m ≡ None }
    ensures given { (due : List ℕ → Option ℕ) (m : List ℕ) → context_fault due m ≡ None → IsContext due m (context_in m) }
    ensures again { (due : List ℕ → Option ℕ) (rest : List ℕ) (v : CreateContext) (next : ℕ)
        → AreWritable (context_whole v next) → HasLength (due v.name) (length v.value)
        → IsContext due (context_spelling v next ++ rest) v }
{}

/// The laws of the contexts of a CREATE request: bytes say one thing at most; what says something breaks
/// nothing; there is at most one first break; a canonical chain reads back.
pub fn create_contexts_law()
    ensures one { (m : List ℕ) (c d : CreateContexts) → SpellsCreateContexts m c → SpellsCreateContexts m d → c ≡ d }
    ensures whole { (m : List ℕ) (c : CreateContexts) (e : ChainError) → SpellsCreateContexts m c
        → BreaksChain (first_fault request_due) m e → ⊥ }
    ensures broken { (m : List ℕ) (e f : ChainError) → BreaksChain (first_fault request_due) m e
        → BreaksChain (first_fault request_due) m f → e ≡ f }
    ensures again { (c : CreateContexts) → IsWritableCreateContexts c → SpellsCreateContexts (create_contexts_spelling c) c }
{}

/// The same laws of the contexts of a CREATE response.
pub fn reply_contexts_law()
    ensures one { (m : List ℕ) (c d : ReplyContexts) → SpellsReplyContexts m c → SpellsReplyContexts m d → c ≡ d }
    ensures whole { (m : List ℕ) (c : ReplyContexts) (e : ChainError) → SpellsReplyContexts m c
        → BreaksChain (first_fault reply_due) m e → ⊥ }
    ensures broken { (m : List ℕ) (e f : ChainError) → BreaksChain (first_fault reply_due) m e
        → BreaksChain (first_fault reply_due) m f → e ≡ f }
    ensures again { (c : ReplyContexts) → IsWritableReplyContexts c → SpellsReplyContexts (reply_contexts_spelling c) c }
{}
