//! What a request owes for the bytes that it moves (MS-SMB2 3.1.5.2).
ghost use Rattle.std.specs.Prelude.{◌≡◌, ◌<◌, true, IfOk, OnErr};
ghost use Rattle.spec_exchange.specs.Status.{invalid_parameter};
ghost use Rattle.spec_exchange.specs.Commands as asks;
ghost use Rattle.spec_exchange.specs.Operations as operations;
ghost use Rattle.spec_commands.specs.Charges as charges;
ghost use Rattle.spec_commands.specs.CommandOf;
ghost use Rattle.wire_commands.specs.reading.Lacking.{may_lack};
ghost use Rattle.wire_commands.specs.values.Meaning;

use crate::reading::query::list_in;
use crate::reading::setting::set_in;
use crate::reading::status::INVALID_PARAMETER;
use crate::values::Command;
use std::alloc::{AllocError, Global};
use wire_bytes::u32_at;

// The number of 4 bytes at a place; 0 where the message ends before it.
fn told_at(m: &[u8], at: u8) -> u64
    ensures value { result ≡ charges.told_at m.now at }
    ensures small { result < 0x1_0000_0000 }
{
    let at = at as usize;
    if m.len() < at + 4 {
        return 0;
    }
    u32_at(m, at) as u64
}

// The greater of the bytes that a request of this command carries and those that it asks for.
fn payload(command: u16, m: &[u8]) -> u64
    ensures value { result ≡ charges.payload command m.now }
    ensures small { result < 0x2_0000_0000 }
{
    if command == 8 || command == 9 || command == 17 {
        return told_at(m, 68);
    }
    if command == 11 {
        let carried = told_at(m, 92) + told_at(m, 104);
        let asked = told_at(m, 96) + told_at(m, 108);
        return carried.max(asked);
    }
    if command == 14 {
        return told_at(m, 92);
    }
    if command == 16 {
        let carried = told_at(m, 76);
        let asked = told_at(m, 68);
        return carried.max(asked);
    }
    0
}

// What a client pays for this many bytes.
fn charge(bytes: u64) -> u64
    ensures { result ≡ operations.charge bytes }
{
    if bytes == 0 {
        return 1;
    }
    (bytes - 1) / 65536 + 1
}

// The CreditCharge of a request of this command is below what its bytes cost; 0 counts as 1.
fn is_undercharged(command: u16, paid: u16, m: &[u8]) -> bool
    ensures { result ≡ charges.is_undercharged command paid m.now }
{
    let paid = (paid as u64).max(1);
    paid < charge(payload(command, m))
}

fn unpaid<'a>() -> Command<'a>
    ensures { Meaning.command_of result ≡ asks.Unreadable invalid_parameter }
{
    Command::Unreadable {
        status: INVALID_PARAMETER,
    }
}

/// The command of a request, where it is paid for (3.3.5.2.5).
pub(crate) fn paid_for<'a>(number: u16, paid: u16, m: &[u8], command: Command<'a>) -> Command<'a>
    ensures { Meaning.command_of result ≡ charges.paid_for number paid m.now (Meaning.command_of command.entry) }
{
    if is_undercharged(number, paid, m) {
        return unpaid();
    }
    command
}

/// QUERY_DIRECTORY, whose pattern isn't read where it isn't paid for.
pub(crate) fn paid_list(alloc: Global, paid: u16, m: &[u8]) -> Result<Command<'_>, AllocError>
    ensures lacks { OnErr result (may_lack 14 paid m.now ≡ true) }
    ensures reads { IfOk result (λ c. Meaning.command_of c ≡ charges.paid_for 14 paid m.now (CommandOf.list_in m.now)) }
{
    if is_undercharged(14, paid, m) {
        return Ok(unpaid());
    }
    list_in(alloc, m)
}

/// SET_INFO, whose information isn't read where it isn't paid for.
pub(crate) fn paid_setting(alloc: Global, paid: u16, m: &[u8]) -> Result<Command<'_>, AllocError>
    ensures lacks { OnErr result (may_lack 17 paid m.now ≡ true) }
    ensures reads { IfOk result (λ c. Meaning.command_of c ≡ charges.paid_for 17 paid m.now (CommandOf.set_in m.now)) }
{
    if is_undercharged(17, paid, m) {
        return Ok(unpaid());
    }
    set_in(alloc, m)
}
