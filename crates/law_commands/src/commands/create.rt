ghost use Rattle.std.specs.Prelude.{◌≡◌, ◌++◌, ℕ, List, length};
ghost use Rattle.spec_exchange.specs.Commands.{CreateRequest, Create};
ghost use Rattle.spec_commands.specs.CommandOf.{create_in};
ghost use Rattle.spec_commands.specs.BodyOf.{body_of};
ghost use Rattle.law_commands.specs.commands.Fitting.{IsFittingCreate};

use law_wire::{create_contexts_law, create_request_law};

// CREATE
pub fn create_again()
    ensures { (header rest : List ℕ) (r : CreateRequest) → length header ≡ 64 → IsFittingCreate r
        → create_in (header ++ (body_of (Create r) ++ rest)) ≡ Create r }
{
    create_request_law();
    create_contexts_law();
}
