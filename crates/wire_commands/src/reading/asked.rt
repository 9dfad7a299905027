//! What a message asks, by the number of its command.
ghost use Rattle.std.specs.Prelude.{◌≡◌, true, IfOk, OnErr, option_map};
ghost use Rattle.spec_commands.specs.CommandOf;
ghost use Rattle.spec_commands.specs.CommandOf.{Told};
ghost use Rattle.wire_commands.specs.reading.Lacking.{may_lack};
ghost use Rattle.wire_commands.specs.values.Meaning;

use crate::reading::charges::{paid_for, paid_list, paid_setting};
use crate::reading::create::create_in;
use crate::reading::ids::has_bit;
use crate::reading::lock::lock_in;
use crate::reading::plain::{
    close_in, flush_in, ioctl_in, logoff_in, read_in, tree_disconnect_in, write_in,
};
use crate::reading::query::query_in;
use crate::reading::session::{echo_form, setup_in, tree_connect_in};
use crate::reading::status::{INVALID_PARAMETER, NOT_SUPPORTED};
use crate::values::{Command, Message, Request};
use spec_wire::Header;
use std::alloc::{AllocError, Global};

// CHANGE_NOTIFY (15) and OPLOCK_BREAK (18) aren't supported; any other number is no command's.
fn other_of<'a>(number: u16) -> Command<'a>
    ensures { Meaning.command_of result ≡ CommandOf.other_of number }
{
    if number == 15 || number == 18 {
        return Command::Unreadable {
            status: NOT_SUPPORTED,
        };
    }
    Command::Unreadable {
        status: INVALID_PARAMETER,
    }
}

// The command of a message that needs nothing of its connection.
fn command_in(alloc: Global, number: u16, charge: u16, m: &[u8]) -> Result<Command<'_>, AllocError>
    requires { Meaning.IsValueOwn number }
    ensures lacks { OnErr result (may_lack number charge m.now ≡ true) }
    ensures reads { (t : Told) (h : Header) → h.charge ≡ charge
        → IfOk result (λ c. Meaning.command_of c ≡ CommandOf.named_command number t h m.now) }
{
    match number {
        2 => Ok(logoff_in(m)),
        3 => tree_connect_in(alloc, m),
        4 => Ok(tree_disconnect_in(m)),
        5 => create_in(alloc, m),
        6 => Ok(close_in(m)),
        7 => Ok(flush_in(m)),
        8 => Ok(paid_for(8, charge, m, read_in(m))),
        9 => Ok(paid_for(9, charge, m, write_in(m))),
        10 => lock_in(alloc, m),
        11 => Ok(paid_for(11, charge, m, ioctl_in(m))),
        14 => paid_list(alloc, charge, m),
        16 => Ok(paid_for(16, charge, m, query_in(m))),
        17 => paid_setting(alloc, charge, m),
        _ => Ok(other_of(number)),
    }
}

/// What the message `m` of this header asks (MS-SMB2 2.2.1, 2.2.3 to 2.2.40): `None` exactly for a CANCEL. `m`
/// begins with the header. What its charge doesn't pay for, a body that doesn't read, an information class that isn't known and what isn't
/// supported are `Unreadable`, with the status that answers it. Only what a WRITE and a SESSION_SETUP carry is
/// borrowed; texts and the elements of a LOCK take memory.
#[tactic(auto, unfolding(spec_commands::specs::CommandOf::command_of))]
pub fn request_of<'a>(
    alloc: Global,
    header: &Header,
    m: &'a [u8],
) -> Result<Option<Request<'a>>, AllocError>
    ensures lacks { OnErr result (may_lack header.now.command header.now.charge m.now ≡ true) }
    ensures reads { (t : Told) → IfOk result (λ found. CommandOf.command_of t header.now m.now ≡ option_map (Meaning.request_of t) found) }
{
    match header.command {
        0 => Ok(Some(Request::Negotiate)),
        1 => Ok(Some(Request::Setup(setup_in(header, m)))),
        12 => Ok(None),
        13 => Ok(Some(Request::Echo { form: echo_form(m) })),
        number => match command_in(alloc, number, header.charge, m) {
            Ok(command) => Ok(Some(Request::Command(command))),
            Err(error) => Err(error),
        },
    }
}

/// The message that the server hears of a command: the header's ids, channel sequence and replay flag with what its
/// connection is and found (MS-SMB2 2.2.1.2). `fault` is ACCESS_DENIED where the request isn't signed or sealed as
/// owed.
pub fn heard_as<'a>(
    connection: u32,
    client_guid: u128,
    fault: Option<u32>,
    header: &Header,
    command: Command<'a>,
) -> Message<'a>
    ensures { (t : Told) → t.connection ≡ connection → t.client ≡ client_guid → t.fault ≡ fault → Meaning.message_of result
        ≡ CommandOf.heard_as t header.now (Meaning.command_of command.entry) }
{
    Message {
        connection,
        client_guid,
        session_id: header.session,
        tree_id: header.tree,
        message_id: header.message,
        channel_sequence: (header.status % 65536) as u16,
        replay: has_bit(header.flags, 0x2000_0000),
        fault,
        command,
    }
}
