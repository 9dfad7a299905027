//! What a message asks of the server.
ghost use Rattle.std.specs.Prelude.{◌≡◌, ◌∷◌, ◌++◌, ℕ, List, [], None, Some, slice_get, option_map, true, false, if◌then◌else◌, IfOk};
ghost use Rattle.spec_crypto.specs.sessions.Chain.{chain};
ghost use Rattle.spec_exchange.specs.Status.{invalid_parameter};
ghost use Rattle.spec_exchange.specs.Commands as asks;
ghost use Rattle.spec_commands.specs.CommandOf;
ghost use Rattle.wire_commands.specs.values.Meaning;
ghost use Rattle.spec_world.specs.Ends.{Logons, ServerEnd};
ghost use Rattle.spec_world.specs.Hearing as hearing;
ghost use Rattle.spec_world.specs.Logon.{full_transcript};
ghost use Rattle.spec_world.specs.Related.{file_place};
ghost use Rattle.spec_world.specs.Settings.{ServerSettings};
ghost use Rattle.spec_world.specs.Connection.{heard_message};
ghost use Rattle.conn_core.specs.declared.frame_messages.checked.Checked.{Checked};
ghost use Rattle.conn_core.specs.Shown.{ShowsEnd, ShowsGreeting, ShowsMaking};
ghost use Rattle.conn_core.specs.frame_messages.Checking.{HasMessage, IsDenied, ShowsGoing};
ghost use Rattle.conn_core.specs.requests.Asking.{IsGreetingTold, IsRequestEvent, IsFormed, IsRequestTold};
ghost use Rattle.conn_core.specs.related.Carrying as carrying;
ghost use Rattle.conn_core.specs.related.Carrying.{IsCarried};

use crate::conn::Conn;
use crate::frame_messages::{Checked, CheckedFrame};
use crate::related::breaks_form;
use crypto_sessions::{Chain, chain_law};
use server_checks::{ServerEvent, SetupHeard};
use spec_crypto::Chosen;
use std::alloc::{AllocError, Global};
use wire_commands::{Command, Request, SetupForm, heard_as, request_of};

/// STATUS_INVALID_PARAMETER (MS-ERREF 2.3.1)
const INVALID_PARAMETER: u32 = 0xc000_000d;

const SESSION_SETUP: u16 = 1;

/// The flag of a request that goes out again (MS-SMB2 2.2.1.2).
const REPLAY: u32 = 0x2000_0000;

/// What a connection tells of a message beside its bytes, so that its event can be made where the connection isn't at hand.
#[derive(Clone, Copy, Debug)]
pub struct Told {
    pub connection: u32,
    pub client_guid: u128,
    /// What NEGOTIATE chose.
    pub chosen: Chosen,
    /// Of a SESSION_SETUP: the chain behind it.
    pub chain: Chain,
    /// Random bytes for a challenge.
    pub fresh: [u8; 8],
}

#[tactic(auto, unfolding(spec_exchange::specs::Commands::has_bit))]
fn setup_heard<'a>(
    told: &Told,
    checked: &Checked,
    form: SetupForm<'a>,
    bytes: &'a [u8],
) -> SetupHeard<'a>
    ensures { IsFormed told.now checked.now form.entry bytes.now result }
{
    SetupHeard {
        connection: told.connection,
        client_guid: told.client_guid,
        session_id: checked.header.session,
        tree_id: checked.header.tree,
        message_id: checked.header.message,
        channel_sequence: (checked.header.status % 65536) as u16,
        replay: checked.header.flags / REPLAY % 2 == 1,
        fault: checked.fault,
        form,
        bytes,
        chosen: told.chosen,
        chain: told.chain.value(),
        fresh: told.fresh,
    }
}

/// A command whose message breaks its form by its place doesn't read.
fn placed<'a>(checked: &Checked, command: Command<'a>) -> Command<'a>
    ensures { Meaning.command_of result
        ≡ (if carrying.breaks_form checked.now then asks.Unreadable invalid_parameter else Meaning.command_of command.entry) }
{
    if breaks_form(checked) {
        Command::Unreadable {
            status: INVALID_PARAMETER,
        }
    } else {
        command
    }
}

fn form_placed<'a>(checked: &Checked, form: SetupForm<'a>) -> SetupForm<'a>
    ensures { result ≡ (if carrying.breaks_form checked.now then record form.entry { readable = false } else form.entry) }
{
    if breaks_form(checked) {
        SetupForm {
            readable: false,
            ..form
        }
    } else {
        form
    }
}

/// What a message of this header asks of the server by what was found in it.
fn event_of<'a>(
    told: &Told,
    checked: &Checked,
    message: &'a [u8],
    found: Request<'a>,
) -> Option<ServerEvent<'a>>
    ensures { (z : ServerSettings) (L : Logons) (f : ServerEnd) (c : hearing.Checked) → IsCarried checked.now message.now c
        → (file_place checked.now.header.command ≡ None → c.raw ≡ message.now) → IsDenied checked.now.fault → IsGreetingTold f told.now
        → ((t : CommandOf.Told) → CommandOf.command_of t checked.now.header message.now ≡ Some (Meaning.request_of t found.entry))
        → IsRequestEvent z.users L told.now c (heard_message z L told.now.connection f c) result }
{
    match found {
        Request::Negotiate => None,
        Request::Echo { form: _form } => None,
        Request::Setup(form) => Some(ServerEvent::Setup {
            setup: setup_heard(told, checked, form_placed(checked, form), message),
        }),
        Request::Command(command) => Some(ServerEvent::Message {
            message: heard_as(
                told.connection,
                told.client_guid,
                checked.fault,
                &checked.header,
                placed(checked, command),
            ),
        }),
    }
}

/// The same of a message that may be a CANCEL, in which nothing is found.
fn event_if<'a>(
    told: &Told,
    checked: &Checked,
    message: &'a [u8],
    found: Option<Request<'a>>,
) -> Option<ServerEvent<'a>>
    ensures { (z : ServerSettings) (L : Logons) (f : ServerEnd) (c : hearing.Checked) → IsCarried checked.now message.now c
        → (file_place checked.now.header.command ≡ None → c.raw ≡ message.now) → IsDenied checked.now.fault → IsGreetingTold f told.now
        → ((t : CommandOf.Told) → CommandOf.command_of t checked.now.header message.now
        ≡ option_map (Meaning.request_of t) found.entry)
        → IsRequestEvent z.users L told.now c (heard_message z L told.now.connection f c) result }
{
    match found {
        Some(found) => event_of(told, checked, message, found),
        None => None,
    }
}

/// What a message asks of the server; nothing of NEGOTIATE and ECHO, which the connection answers by itself, nor of
/// CANCEL. Texts and the elements of a LOCK take memory.
pub fn event<'a>(
    frame: &'a CheckedFrame,
    alloc: Global,
    at: usize,
    told: &Told,
) -> Result<Option<ServerEvent<'a>>, AllocError>
    requires { HasMessage frame.now at }
    ensures { (z : ServerSettings) (L : Logons) (f : ServerEnd) (m : Checked) (c : hearing.Checked)
        → slice_get frame.now.messages.items at ≡ Some m → ShowsGoing frame.now.bytes.items m c → IsGreetingTold f told.now
        → IfOk result (λ event. IsRequestEvent z.users L told.now c (heard_message z L told.now.connection f c) event) }
{
    let checked = frame.checked(at);
    let message = frame.message(at);
    match request_of(alloc, &checked.header, message) {
        Ok(found) => Ok(event_if(told, checked, message, found)),
        Err(error) => Err(error),
    }
}

/// The chain behind one more message.
fn taken(before: Chain, message: &[u8]) -> Chain
    ensures { (messages : List (List ℕ)) → before ≡ chain messages → result ≡ chain (messages ++ message.now ∷ []) }
{
    chain_law();
    let mut behind = before;
    behind.take(message);
    behind
}

/// The chain behind a SESSION_SETUP; of any other message that of before.
fn chain_behind(conn: &Conn, frame: &CheckedFrame, at: usize) -> Chain
    requires { HasMessage frame.now at }
    ensures { (f : ServerEnd) (m : Checked) (c : hearing.Checked) → ShowsGreeting conn.now.logon.greeting f.greeting
        → ShowsMaking conn.now.logon.making f.making → slice_get frame.now.messages.items at ≡ Some m
        → ShowsGoing frame.now.bytes.items m c → hearing.is_setup c.header ≡ true → result ≡ chain (full_transcript f c.raw) }
{
    let before = conn.logon.before_setup();
    let is_setup = frame.checked(at).header.command == SESSION_SETUP;
    if !is_setup {
        return before;
    }
    taken(before, frame.message(at))
}

/// What this connection tells of a message of a checked frame. It takes no memory.
pub fn told_of(conn: &Conn, frame: &CheckedFrame, at: usize, fresh: [u8; 8]) -> Told
    requires { HasMessage frame.now at }
    ensures told { (guid : List ℕ) (f : ServerEnd) (m : Checked) (c : hearing.Checked)
        → ShowsEnd conn.now.id guid conn.now f → slice_get frame.now.messages.items at ≡ Some m
        → ShowsGoing frame.now.bytes.items m c → IsRequestTold f c result }
    ensures connection { result.connection ≡ conn.now.id }
    ensures fresh { result.fresh ≡ fresh }
{
    Told {
        connection: conn.id,
        client_guid: conn.logon.client(),
        chosen: conn.logon.chosen(),
        chain: chain_behind(conn, frame, at),
        fresh,
    }
}
