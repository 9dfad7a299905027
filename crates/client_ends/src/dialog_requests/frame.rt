//! A message of a dialog.
ghost use Rattle.std.specs.Prelude.{◌≡◌, ◌+◌, ◌≤◌, ◌<◌, ◌^◌, ◌++◌, length, take, drop, vec_len, IfOk};
ghost use Rattle.spec_commands.specs.Tables.{bit_if};
ghost use Rattle.spec_exchange.specs.State.{Message};
ghost use Rattle.spec_crypto.specs.sessions.Signing.{signed};
ghost use Rattle.spec_world.specs.Messages.{message_spelling};
ghost use Rattle.spec_world.specs.Sending.{request_header};
ghost use Rattle.client_ends.specs.dialog_requests.Dialogs.{IsDialogs};

use crypto_sessions::sign;
use spec_crypto::Signer;
use spec_wire::Header;
use std::alloc::{AllocError, Global};
use wire_bytes::write_header;

/// SMB2_FLAGS_SIGNED
#[tactic(auto, unfolding(spec_commands::specs::Tables::bit_if))]
fn sign_flag(signs: bool) -> u32
    ensures { result ≡ bit_if signs 8 }
{
    if signs { 8 } else { 0 }
}

/// The header of a dialog's message: it asks for 512 credits, and takes one.
#[tactic(auto, using(crate::proofs::dialog_requests::Headers::header_is))]
pub(crate) fn header_for(command: u16, id: u64, session: u64, signs: bool) -> Header
    ensures { (m : Message) → IsDialogs m id session → result ≡ request_header m 1 command signs }
{
    Header {
        charge: 1,
        status: 0,
        command,
        credits: 512,
        flags: sign_flag(signs),
        next: 0,
        message: id,
        tree: 0,
        session,
        signature: [0; 16],
    }
}

/// A header and what stands behind it.
#[tactic(auto, unfolding(spec_world::specs::Messages::message_spelling))]
pub(crate) fn message(alloc: Global, header: &Header, body: &[u8]) -> Result<Vec<u8>, AllocError>
    ensures spelled { IfOk result (λ v. v.items ≡ message_spelling header.now body.now) }
    ensures size { IfOk result (λ v. vec_len v ≡ 64 + length body.now) }
{
    let mut out = Vec::with_capacity(alloc, 64 + body.len())?;
    out.extend_from_slice(&write_header(header))?;
    out.extend_from_slice(body)?;
    Ok(out)
}

fn put_signature(message: &mut [u8], signature: &[u8; 16])
    requires { 64 ≤ length message.old }
    ensures { message.new ≡ take 48 message.old ++ (signature.now ++ drop 64 message.old) }
{
    message[48..64].copy_from_slice(signature);
}

/// Signs a message where it stands.
#[tactic(auto, unfolding(spec_crypto::specs::sessions::Signing::signed))]
pub(crate) fn sign_in_place(message: &mut [u8], signer: &Signer)
    requires whole { 64 ≤ length message.old }
    requires short { length message.old < 2 ^ 60 }
    ensures { message.new ≡ signed signer.now message.old }
{
    let signature = sign(signer, message);
    put_signature(message, &signature);
}
