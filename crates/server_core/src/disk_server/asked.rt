//! What of an event its reply is written by, taken before the server takes the event.
ghost use Rattle.std.specs.Prelude.{◌≡◌, ◌<◌, ◌^◌, ◌&&◌, nat_le, length, IfOk, List, Some};
ghost use Rattle.spec_crypto.specs.sessions.Signing.{verifies};
ghost use Rattle.spec_exchange.specs.State as model;
ghost use Rattle.law_snapshots.specs.snapshots.Pieces.{SnapshotPiece};
ghost use Rattle.server_core.specs.disk_server.Asked.{HasShape, BookLogonIs, IsBookLogon, signs_binding};
ghost use Rattle.server_core.specs.Shown.{HoldsServerOver};
ghost use Rattle.spec_world.specs.Ends.{Logons};

use crate::event_replies::Logon;
use crate::server::Server;
use base_outside::Disk;
use crypto_sessions::verify;
use server_checks::{ServerEvent, SetupHeard};
use spec_crypto::Signer;
use std::alloc::{AllocError, Global};
use wire_commands::{Command, no_setup, shape_of};

// A command whose replies have the same bodies. No connection asks for one of another event.
pub(crate) fn shape_in<'a>(alloc: Global, event: &ServerEvent<'a>) -> Command<'a>
    ensures { HasShape event.now result }
{
    match event {
        ServerEvent::Message { message } => shape_of(alloc, &message.command),
        ServerEvent::Setup { setup: _ } => Command::Setup(no_setup()),
        ServerEvent::Accept { connection: _ } => Command::Logoff,
        ServerEvent::End { connection: _ } => Command::Logoff,
        ServerEvent::Stop => Command::Logoff,
    }
}

fn is_signed(own: &Signer, bytes: &[u8]) -> bool
    requires { length bytes.now < 2 ^ 60 }
    ensures { result ≡ (nat_le 64 (length bytes.now) && verifies own.now bytes.now) }
{
    bytes.len() >= 64 && verify(own, bytes)
}

fn is_signed_binding(setup: &SetupHeard<'_>) -> bool
    ensures { result ≡ (setup.now.form.binding && setup.now.form.signed) }
{
    setup.form.binding && setup.form.signed
}

// Whether a binding has the signature of this signer. For one of 2^60 bytes there is no memory.
fn signs_binding(setup: &SetupHeard<'_>, own: &Signer) -> Result<bool, AllocError>
    ensures { IfOk result (λ b. b ≡ signs_binding setup.now (Some own.now)) }
{
    let owes = is_signed_binding(setup);
    if !owes {
        return Ok(false);
    }
    if setup.bytes.len() >= 0x1000_0000_0000_0000 {
        return Err(AllocError);
    }
    Ok(is_signed(own, setup.bytes))
}

fn is_verified(setup: &SetupHeard<'_>, signer: &Option<Signer>) -> Result<bool, AllocError>
    ensures { IfOk result (λ b. b ≡ signs_binding setup.now signer.now) }
{
    match signer {
        Some(own) => signs_binding(setup, own),
        None => Ok(false),
    }
}

fn setup_logon<D: Disk>(server: &Server<D>, setup: &SetupHeard<'_>) -> Result<Logon, AllocError>
    ensures { IfOk result (λ l. (base : List SnapshotPiece) (s : model.Server) (L : Logons) (records : List model.Record)
        → HoldsServerOver D.told D.seen D.may_leave base server.now s L records → IsBookLogon s L setup.now l) }
{
    let signer = server.signer(setup.session_id);
    let verified = is_verified(setup, &signer)?;
    Ok(Logon {
        binds: setup.form.binding,
        signed: setup.form.signed,
        verified,
        algorithm: setup.chosen.signing,
        signer,
    })
}

// Of a SESSION_SETUP who signs its refusal or its interim response.
pub(crate) fn logon_in<D: Disk>(
    server: &Server<D>,
    event: &ServerEvent<'_>,
) -> Result<Option<Logon>, AllocError>
    ensures { IfOk result (λ o. (base : List SnapshotPiece) (s : model.Server) (L : Logons) (records : List model.Record)
        → HoldsServerOver D.told D.seen D.may_leave base server.now s L records → BookLogonIs s L event.now o) }
{
    match event {
        ServerEvent::Setup { setup } => {
            let logon = setup_logon(server, setup)?;
            Ok(Some(logon))
        }
        ServerEvent::Message { message: _ } => Ok(None),
        ServerEvent::Accept { connection: _ } => Ok(None),
        ServerEvent::End { connection: _ } => Ok(None),
        ServerEvent::Stop => Ok(None),
    }
}
