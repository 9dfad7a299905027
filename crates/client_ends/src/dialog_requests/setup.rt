//! SESSION_SETUP at the client.
ghost use Rattle.std.specs.Prelude.{◌≡◌, ◌<◌, ◌≤◌, true, length, vec_len, IfOk};
ghost use Rattle.spec_commands.specs.Tables.{bit_if};
ghost use Rattle.spec_exchange.specs.State.{Message};
ghost use Rattle.spec_crypto.specs.sessions.Signing.{signed};
ghost use Rattle.spec_wire.specs.messages.SessionSetup.{session_setup_request_spelling};
ghost use Rattle.spec_world.specs.Ends.{ClientEnd};
ghost use Rattle.spec_world.specs.Sending.{setup_frame as setup_due, setup_text as text_due};
ghost use Rattle.client_ends.specs.dialog_requests.Dialogs.{IsDialogs, setup_value};

use crate::dialog_requests::frame::{header_for, message, sign_in_place};
use spec_crypto::Signer;
use std::alloc::{AllocError, Global};
use wire_bytes::{Bytes, SessionSetupRequest, write_session_setup_request};

/// What a SESSION_SETUP says (MS-SMB2 2.2.5): whether it binds, the session that a new one takes the place of, a token, and
/// the ids of its header.
#[derive(Clone, Copy)]
pub struct Setup<'a> {
    pub bound: bool,
    pub previous: u64,
    pub token: &'a [u8],
    pub id: u64,
    pub session: u64,
}

/// SMB2_SESSION_FLAG_BINDING
#[tactic(auto, unfolding(spec_commands::specs::Tables::bit_if))]
fn binding_flag(bound: bool) -> u8
    ensures { result ≡ bit_if bound 1 }
{
    if bound { 1 } else { 0 }
}

/// SecurityMode: signing enabled.
fn setup_body(alloc: Global, setup: &Setup<'_>) -> Result<Bytes, AllocError>
    requires { length setup.now.token.now < 65536 }
    ensures spelled { IfOk result (λ b. b ≡ session_setup_request_spelling (setup_value setup.now)) }
    ensures size { IfOk result (λ b. length b < 65600) }
{
    let body = write_session_setup_request(
        alloc,
        &SessionSetupRequest {
            flags: binding_flag(setup.bound),
            security_mode: 1,
            capabilities: 0,
            channel: 0,
            previous_session_id: setup.previous,
            security: setup.token,
        },
    )?;
    Ok(body)
}

fn setup_text(alloc: Global, setup: &Setup<'_>) -> Result<Vec<u8>, AllocError>
    requires { length setup.now.token.now < 65536 }
    ensures text { (m : Message) → IsDialogs m setup.now.id setup.now.session
        → IfOk result (λ v. v.items ≡ text_due setup.now.bound setup.now.previous setup.now.token.now m) }
    ensures size { IfOk result (λ v. (64 ≤ vec_len v) × (vec_len v < 65700)) }
{
    let body = setup_body(alloc, setup)?;
    let header = header_for(1, setup.id, setup.session, setup.bound);
    let frame = message(alloc, &header, body.as_slice())?;
    Ok(frame)
}

/// The text of a SESSION_SETUP, signed.
fn signed_text(mut text: Vec<u8>, signer: &Signer) -> Bytes
    requires whole { 64 ≤ vec_len text }
    requires short { vec_len text < 65700 }
    ensures { result ≡ signed signer.now text.items }
{
    sign_in_place(text.as_mut_slice(), signer);
    Bytes::from_vec(text)
}

/// A SESSION_SETUP, which in a binding is signed with the session's key. The token's length fits its field.
pub fn setup_frame(alloc: Global, signer: &Signer, setup: &Setup<'_>) -> Result<Bytes, AllocError>
    requires { length setup.now.token.now < 65536 }
    ensures { (n : ClientEnd) (m : Message) → (setup.now.bound ≡ true → n.keys.signing ≡ signer.now)
        → IsDialogs m setup.now.id setup.now.session
        → IfOk result (λ b. b ≡ setup_due n setup.now.bound setup.now.previous setup.now.token.now m) }
{
    let bound = setup.bound;
    let text = setup_text(alloc, setup)?;
    if bound {
        return Ok(signed_text(text, signer));
    }
    Ok(Bytes::from_vec(text))
}
