ghost use Rattle.std.specs.Prelude.{◌≡◌, ◌^◌, ◌<◌, ◌≤◌, ◌++◌, ℕ, Bool, List, length};
ghost use Rattle.spec_exchange.specs.Commands.{Close, Flush, Read};
ghost use Rattle.spec_exchange.specs.Operations.{charge};
ghost use Rattle.spec_commands.specs.CommandOf.{close_in, flush_in, read_in};
ghost use Rattle.spec_commands.specs.BodyOf.{body_of};
ghost use Rattle.law_commands.specs.commands.Fitting.{HeardPaid};

use law_wire::{close_request_law, flush_request_law, read_request_law};

// CLOSE
pub fn close_again()
    ensures { (header rest : List ℕ) (file : ℕ) (query : Bool) → length header ≡ 64 → file < 256 ^ 8
        → close_in (header ++ (body_of (Close file query) ++ rest)) ≡ Close file query }
{
    close_request_law();
}

// FLUSH
pub fn flush_again()
    ensures { (header rest : List ℕ) (file : ℕ) → length header ≡ 64 → file < 256 ^ 8
        → flush_in (header ++ (body_of (Flush file) ++ rest)) ≡ Flush file }
{
    flush_request_law();
}

// READ
pub fn read_again()
    ensures { (paid : ℕ) (header rest : List ℕ) (file at size minimum channel : ℕ) → length header ≡ 64 → file < 256 ^ 8
        → at < 256 ^ 8 → size < 256 ^ 4 → minimum < 256 ^ 4 → channel < 256 ^ 4 → charge size ≤ paid
        → HeardPaid 8 paid (header ++ (body_of (Read file at size minimum channel) ++ rest)) read_in
        (Read file at size minimum channel) }
{
    read_request_law();
}
