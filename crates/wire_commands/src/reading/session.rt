//! SESSION_SETUP, TREE_CONNECT and ECHO.
ghost use Rattle.std.specs.Prelude.{◌≡◌, IfOk, OnErr, None, Option, ℕ};
ghost use Rattle.spec_exchange.specs.Commands as asks;
ghost use Rattle.spec_wire.specs.messages.Bare.{bare_fault};
ghost use Rattle.spec_commands.specs.CommandOf.{Told, setup_in, tree_connect_in, echo_status};
ghost use Rattle.spec_wire.specs.messages.TreeConnect.{tree_connect_request_fault};
ghost use Rattle.wire_commands.specs.values.Meaning;

use crate::reading::ids::has_bit;
use crate::reading::status::{INVALID_PARAMETER, status_of, unreadable};
use crate::reading::texts::{leaf_of, text_in};
use crate::values::{Command, SetupForm};
use spec_wire::Header;
use std::alloc::{AllocError, Global};
use wire_bytes::{Text, read_echo_request, read_session_setup_request, read_tree_connect_request};

// What a SESSION_SETUP tells by itself; of a body that doesn't read nothing.
#[tactic(auto, unfolding(spec_commands::specs::CommandOf::setup_in, spec_exchange::specs::Commands::has_bit), using(crate::proofs::reading::Unless::setup_where_it_breaks))]
pub(crate) fn setup_in<'a>(header: &Header, m: &'a [u8]) -> SetupForm<'a>
    ensures { (t : Told) → asks.Setup (Meaning.setup_told t result) ≡ setup_in t header.now m.now }
{
    let signed = has_bit(header.flags, 8);
    match read_session_setup_request(m) {
        Ok(v) => SetupForm {
            readable: true,
            binding: has_bit(v.flags as u32, 1),
            signed,
            previous: v.previous_session_id,
            token: v.security,
        },
        Err(_) => SetupForm {
            readable: false,
            binding: false,
            signed,
            previous: 0,
            token: &[],
        },
    }
}

#[tactic(auto, unfolding(spec_commands::specs::CommandOf::tree_connect_in), using(crate::proofs::reading::Unless::reads_or_breaks))]
pub(crate) fn tree_connect_in(alloc: Global, m: &[u8]) -> Result<Command<'_>, AllocError>
    ensures lacks { OnErr result (tree_connect_request_fault m.now ≡ None) }
    ensures reads { IfOk result (λ c. Meaning.command_of c ≡ tree_connect_in m.now) }
{
    let v = match read_tree_connect_request(m) {
        Ok(v) => v,
        Err(error) => return Ok(unreadable(error)),
    };
    match text_in(alloc, v.path) {
        Ok(Some(path)) => match Text::from_str(alloc, leaf_of(path.as_str())) {
            Ok(share) => Ok(Command::TreeConnect { share }),
            Err(error) => Err(error),
        },
        Ok(None) => Ok(Command::Unreadable {
            status: INVALID_PARAMETER,
        }),
        Err(error) => Err(error),
    }
}

// The status of an ECHO's form, where it doesn't read.
pub(crate) fn echo_form(m: &[u8]) -> Option<u32>
    ensures { (fault : Option ℕ) → Meaning.echo_told fault result ≡ echo_status fault (bare_fault m.now) }
{
    match read_echo_request(m) {
        Ok(_) => None,
        Err(error) => Some(status_of(error)),
    }
}
