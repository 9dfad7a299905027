ghost use Rattle.std.specs.Prelude.{◌≡◌, ◌<◌, ◌^◌, ◌&&◌, IfOk, IsOk, false, length, nat_le};
ghost use Rattle.wire_commands.specs.values.Meaning.{command_of, message_of, setup_of, shows_of};
ghost use Rattle.spec_exchange.specs.State.{Heard, Server};
ghost use Rattle.spec_exchange.specs.Step.{connection_of};
ghost use Rattle.server_checks.specs.event_heard.Heard.{AskedAgrees, LogonFor, PartOf, event_of, heard_event};
ghost use Rattle.server_checks.specs.event_heard.Heard.{is_setup_heard, part_in, without_token};
ghost use Rattle.server_checks.specs.setups.Setups.{in_the_making, request_of, setup_message, verified_by};
ghost use Rattle.server_checks.specs.session_table.Logons.{LogonsShown, begun_in, shown_of};
ghost use Rattle.server_checks.specs.session_table.Shown.{ShowsSessions};
ghost use Rattle.spec_crypto.specs.sessions.Signing.{verifies};
ghost use Rattle.spec_crypto.specs.tokens.Tokens as tokens;
ghost use Rattle.spec_world.specs.Ends.{Logons};
ghost use Rattle.spec_world.specs.Logon as logon;

use crate::event_heard::event::ServerEvent;
use crate::session_table::{Sessions, TokenShown, token_shown};
use crate::setups::SetupHeard;
use crypto_sessions::{Users, verify};
use spec_crypto::{Chosen, Keys};
use std::alloc::{AllocError, Global};
use wire_bytes::Text;
use wire_commands::{Command, Message, SetupRequest, Shows};

/// An event, and of a SESSION_SETUP what the making of a session takes of it.
#[derive(Drop)]
pub enum Asked<'a> {
    Accept {
        connection: u32,
    },
    Says {
        message: Message<'a>,
        logon: Option<LogonPart>,
    },
    End {
        connection: u32,
    },
    Stop,
}

/// What a SESSION_SETUP's token shows, and what keys and challenges are made of.
#[derive(Drop)]
pub struct LogonPart {
    /// What the token shows behind what is in the making on its connection.
    pub shown: TokenShown,
    /// Cipher and signing algorithm that NEGOTIATE chose.
    pub chosen: Chosen,
    /// The value of the preauthentication chain behind the request.
    pub chain: [u8; 64],
    /// Random bytes for a challenge.
    pub fresh: [u8; 8],
}

impl<'a> Asked<'a> {
    /// The connection of which it speaks, 0 where of none.
    pub fn connection(&self) -> u32
        ensures { result ≡ connection_of (event_of self.now) }
    {
        match self {
            Asked::Accept { connection } => *connection,
            Asked::Says { message, .. } => message.connection,
            Asked::End { connection } => *connection,
            Asked::Stop => 0,
        }
    }
}

/// The event as the model's step takes it. A SESSION_SETUP with its bytes has none where memory runs out, and a signed one of
/// 2^60 bytes or more has none either.
pub fn hear<'a>(
    alloc: Global,
    users: &Users,
    sessions: &Sessions,
    event: ServerEvent<'a>,
) -> Result<Asked<'a>, AllocError>
    ensures event { IfOk result (λ a. (s : Server) (L : Logons) → ShowsSessions sessions.now s → LogonsShown sessions.now L.keys L.pending
        → (event_of a ≡ heard_event users.now (in_the_making s L) s event.entry) × LogonFor users.now (in_the_making s L) event.entry a) }
    ensures agrees { IfOk result (λ a. AskedAgrees a) }
    ensures sure { is_setup_heard event.entry ≡ false → IsOk result }
{
    match event {
        ServerEvent::Accept { connection } => Ok(Asked::Accept { connection }),
        ServerEvent::Message { message } => Ok(Asked::Says {
            message: without_token(message),
            logon: None,
        }),
        ServerEvent::Setup { setup } => asked_setup(alloc, users, sessions, setup),
        ServerEvent::End { connection } => Ok(Asked::End { connection }),
        ServerEvent::Stop => Ok(Asked::Stop),
    }
}

fn asked_setup<'a>(
    alloc: Global,
    users: &Users,
    sessions: &Sessions,
    setup: SetupHeard<'a>,
) -> Result<Asked<'a>, AllocError>
    ensures event { IfOk result (λ a. (s : Server) (L : Logons) → ShowsSessions sessions.now s → LogonsShown sessions.now L.keys L.pending
        → (event_of a ≡ Heard (setup_message users.now (in_the_making s L) s setup.entry))
        × PartOf users.now (in_the_making s L) setup.entry (part_in a)) }
    ensures agrees { IfOk result (λ a. AskedAgrees a) }
{
    let shown = setup_shown(alloc, users, sessions, &setup)?;
    let request = setup_request(sessions, &setup, &shown)?;
    let logon = LogonPart {
        shown,
        chosen: setup.chosen,
        chain: setup.chain,
        fresh: setup.fresh,
    };
    Ok(Asked::Says {
        message: Message {
            connection: setup.connection,
            client_guid: setup.client_guid,
            session_id: setup.session_id,
            tree_id: setup.tree_id,
            message_id: setup.message_id,
            channel_sequence: setup.channel_sequence,
            replay: setup.replay,
            fault: setup.fault,
            command: Command::Setup(request),
        },
        logon: Some(logon),
    })
}

// What its token shows behind what is in the making on its connection.
fn setup_shown(
    alloc: Global,
    users: &Users,
    sessions: &Sessions,
    setup: &SetupHeard<'_>,
) -> Result<TokenShown, AllocError>
    ensures shown { IfOk result (λ v. (s : Server) (L : Logons) → ShowsSessions sessions.now s → LogonsShown sessions.now L.keys L.pending
        → shown_of v ≡ tokens.shown users.now ((in_the_making s L).pending setup.now.connection) setup.now.form.token.now) }
    ensures begun { IfOk result (λ v. begun_in v ≡ tokens.begun_by users.now.bare setup.now.form.token.now) }
{
    let making = sessions.making(setup.connection);
    token_shown(alloc, users, making, setup.form.token)
}

fn setup_request(
    sessions: &Sessions,
    setup: &SetupHeard<'_>,
    shown: &TokenShown,
) -> Result<SetupRequest, AllocError>
    ensures agrees { IfOk result (λ r. (shows_of r.shows ≡ logon.shows_of (shown_of shown.now)) × (r.cipher ≡ setup.now.chosen.cipher)
        × (r.signing ≡ setup.now.chosen.signing)) }
    ensures request { IfOk result (λ r. (s : Server) (L : Logons) → ShowsSessions sessions.now s → LogonsShown sessions.now L.keys L.pending
        → (users : tokens.Users) → setup_of r ≡ record (request_of users L s setup.now) { shows = logon.shows_of (shown_of shown.now) }) }
{
    let verified = is_verified(sessions, setup)?;
    let shows = shows_of(shown)?;
    Ok(SetupRequest {
        readable: setup.form.readable,
        binding: setup.form.binding,
        signed: setup.form.signed,
        verified,
        previous: setup.form.previous,
        cipher: setup.chosen.cipher,
        signing: setup.chosen.signing,
        shows,
    })
}

// Whether it has the signature of a live session.
fn is_verified(sessions: &Sessions, setup: &SetupHeard<'_>) -> Result<bool, AllocError>
    ensures { IfOk result (λ b. (s : Server) (L : Logons) → ShowsSessions sessions.now s → LogonsShown sessions.now L.keys L.pending
        → b ≡ verified_by L s setup.now) }
{
    if !setup.form.signed {
        return Ok(false);
    }
    verifies(sessions, setup.session_id, setup.bytes)
}

// Whether a message has the signature of a live session. For one of 2^60 bytes there is no memory.
fn verifies(sessions: &Sessions, session: u64, bytes: &[u8]) -> Result<bool, AllocError>
    ensures { IfOk result (λ b. (s : Server) (L : Logons) → ShowsSessions sessions.now s → LogonsShown sessions.now L.keys L.pending
        → b ≡ (s.present session && (nat_le 64 (length bytes.now) && verifies (L.keys session).signing bytes.now))) }
{
    if bytes.len() >= 0x1000_0000_0000_0000 {
        return Err(AllocError);
    }
    match sessions.row(session) {
        Some(row) => Ok(is_signed(&row.keys, bytes)),
        None => Ok(false),
    }
}

fn is_signed(keys: &Keys, bytes: &[u8]) -> bool
    requires { length bytes.now < 2 ^ 60 }
    ensures { result ≡ (nat_le 64 (length bytes.now) && verifies keys.now.signing bytes.now) }
{
    bytes.len() >= 64 && verify(&keys.signing, bytes)
}

fn shows_of(shown: &TokenShown) -> Result<Shows, AllocError>
    ensures { IfOk result (λ r. shows_of r ≡ logon.shows_of (shown_of shown.now)) }
{
    match shown {
        TokenShown::Begins(_) => Ok(Shows::Begins),
        TokenShown::Bad => Ok(Shows::Bad),
        TokenShown::Refused => Ok(Shows::Refused),
        TokenShown::LoggedOn { logon, .. } => {
            let user: Text = logon.user.copy()?;
            Ok(Shows::Logon { user })
        }
    }
}

// A SESSION_SETUP that came without its bytes shows no token, and has no signature that verifies.
fn without_token(message: Message<'_>) -> Message<'_>
    ensures { message_of result ≡ record (message_of message.entry) { command = without_token (command_of message.entry.command) } }
{
    Message {
        connection: message.connection,
        client_guid: message.client_guid,
        session_id: message.session_id,
        tree_id: message.tree_id,
        message_id: message.message_id,
        channel_sequence: message.channel_sequence,
        replay: message.replay,
        fault: message.fault,
        command: command_without_token(message.command),
    }
}

fn command_without_token(command: Command<'_>) -> Command<'_>
    ensures { command_of result ≡ without_token (command_of command.entry) }
{
    match command {
        Command::Setup(request) => Command::Setup(SetupRequest {
            readable: request.readable,
            binding: request.binding,
            signed: request.signed,
            verified: false,
            previous: request.previous,
            cipher: request.cipher,
            signing: request.signing,
            shows: Shows::Bad,
        }),
        other => other,
    }
}
