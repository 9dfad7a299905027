ghost use Rattle.std.specs.Prelude.{◌≡◌, ◌^◌, ◌*◌, ◌≤◌, ◌<◌, ◌++◌, ◌==◌, ℕ, Bool, true, false, List, length};
ghost use Rattle.spec_wire.specs.messages.Classes.{is_directory_class, is_query_class};
ghost use Rattle.spec_exchange.specs.Commands.{Element, Write, Lock, ListDirectory, QueryFile};
ghost use Rattle.spec_exchange.specs.Operations.{charge};
ghost use Rattle.spec_commands.specs.CommandOf.{write_in, lock_in, list_in, query_in};
ghost use Rattle.spec_commands.specs.BodyOf.{body_of};
ghost use Rattle.law_commands.specs.commands.Fitting.{IsFittingName, AreElements, HeardPaid};

use law_wire::{
    lock_request_law, query_directory_request_law, query_info_request_law, write_request_law,
};

// WRITE
pub fn write_again()
    ensures { (paid : ℕ) (header rest : List ℕ) (file at : ℕ) (bytes : List ℕ) (channel : ℕ) → length header ≡ 64
        → file < 256 ^ 8 → at < 256 ^ 8 → length bytes < 256 ^ 4 → channel < 256 ^ 4 → charge (length bytes) ≤ paid
        → HeardPaid 9 paid (header ++ (body_of (Write file at bytes channel) ++ rest)) write_in (Write file at bytes channel) }
{
    write_request_law();
}

// LOCK
pub fn lock_again()
    ensures { (header rest : List ℕ) (file index number : ℕ) (elements : List Element) → length header ≡ 64
        → file < 256 ^ 8 → index < 256 ^ 3 → number < 16 → 1 ≤ length elements → length elements < 256 ^ 2
        → AreElements elements → lock_in (header ++ (body_of (Lock file index number elements) ++ rest))
        ≡ Lock file index number elements }
{
    lock_request_law();
}

// QUERY_DIRECTORY
pub fn list_again()
    ensures { (paid : ℕ) (header rest : List ℕ) (file class : ℕ) (restart single : Bool) (pattern : List ℕ) (room : ℕ)
        → length header ≡ 64 → file < 256 ^ 8 → class < 256 ^ 1 → is_directory_class class ≡ true → IsFittingName pattern
        → room < 256 ^ 4 → charge room ≤ paid
        → HeardPaid 14 paid (header ++ (body_of (ListDirectory file class restart single pattern room) ++ rest)) list_in
        (ListDirectory file class restart single pattern room) }
{
    query_directory_request_law();
}

// QUERY_INFO of a file
pub fn query_again()
    ensures { (paid : ℕ) (header rest : List ℕ) (file class room : ℕ) → length header ≡ 64 → file < 256 ^ 8 → class < 256 ^ 1
        → is_query_class 1 class ≡ true → (class == 15) ≡ false → room < 256 ^ 4 → charge room ≤ paid
        → HeardPaid 16 paid (header ++ (body_of (QueryFile file class room) ++ rest)) query_in (QueryFile file class room) }
{
    query_info_request_law();
}
