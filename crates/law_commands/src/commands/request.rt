ghost use Rattle.std.specs.Prelude.{◌≡◌, ◌^◌, ◌<◌, ◌≤◌, ◌++◌, ℕ, true, List, length, Some};
ghost use Rattle.spec_wire.specs.declared.messages.header.Header.{Header};
ghost use Rattle.spec_exchange.specs.Operations.{Op, keeps_limits, is_create, request_of, reconnect_of, weight, charge};
ghost use Rattle.spec_commands.specs.CommandOf.{Told, command_of};
ghost use Rattle.spec_commands.specs.BodyOf.{body_of, number_of_command};

use crate::commands::create::create_again;
use crate::commands::parts::{list_again, lock_again, query_again, write_again};
use crate::commands::plain::{close_again, flush_again, read_again};
use crate::commands::setting::set_again;

/// What a client writes for an operation's command, or for the one that attaches its open, reads back as
/// that very command: behind any header of 64 bytes that has its number, whatever follows it, and whatever
/// the connection tells. The operation keeps the limits at which it is taken; a CreateGuid has 16 bytes, an
/// open's id 8, a slot's index fits a LockSequence, and its number is below 16. The header pays for the
/// operation's bytes.
pub fn request_law()
    ensures own { (t : Told) (h : Header) (header rest : List ℕ) (op : Op) (guid file slot number : ℕ) → length header
        ≡ 64 → keeps_limits op ≡ true → guid < 256 ^ 16 → file < 256 ^ 8 → slot < 256 ^ 3 → number < 16
        → charge (weight op) ≤ h.charge → h.command ≡ number_of_command (request_of op guid file slot number)
        → command_of t h (header ++ (body_of (request_of op guid file slot number) ++ rest))
        ≡ Some (request_of op guid file slot number) }
    ensures attach { (t : Told) (h : Header) (header rest : List ℕ) (op : Op) (guid file : ℕ) → length header ≡ 64
        → keeps_limits op ≡ true → is_create op ≡ true → guid < 256 ^ 16 → file < 256 ^ 8 → h.command
        ≡ number_of_command (reconnect_of op guid file)
        → command_of t h (header ++ (body_of (reconnect_of op guid file) ++ rest)) ≡ Some (reconnect_of op guid file) }
{
    create_again();
    close_again();
    flush_again();
    read_again();
    write_again();
    lock_again();
    list_again();
    query_again();
    set_again();
}
