//! The client's NEGOTIATE.
ghost use Rattle.std.specs.Prelude.{◌≡◌, ◌<◌, ℕ, List, length, IfOk};
ghost use Rattle.spec_exchange.specs.State.{Message};
ghost use Rattle.wire_bytes.specs.negotiate_contexts.Views.{offer as offer_view};
ghost use Rattle.spec_world.specs.Negotiate.{client_offer, negotiate_request_body};
ghost use Rattle.spec_world.specs.Sending.{greeting_text as greeting_due};
ghost use Rattle.client_ends.specs.ends.Shown.{settings_of};
ghost use Rattle.client_ends.specs.dialog_requests.Dialogs.{IsDialogs, CanOffer};

use crate::dialog_requests::frame::{header_for, message};
use crate::ends::ClientConfig;
use std::alloc::{AllocError, Global};
use wire_bytes::{
    Bytes, NegotiateRequest, Numbers, Offer, context_count, write_contexts, write_negotiate_request,
};

/// SMB 3.1.1, the one dialect that is offered.
const DIALECTS: [u8; 2] = [0x11, 0x03];

/// SHA-512, and a list of ciphers and one of signing algorithms.
fn offer_of(alloc: Global, config: &ClientConfig) -> Result<Offer, AllocError>
    ensures offer { IfOk result (λ o. offer_view o ≡ client_offer (settings_of config.now)) }
    ensures lists { IfOk result (λ o. (o.ciphers ≡ config.now.ciphers) × (o.signings ≡ config.now.signings)) }
{
    Ok(Offer {
        sha512: true,
        preauth: true,
        ciphers: Numbers::from_slice(alloc, config.ciphers.as_slice())?,
        signings: Numbers::from_slice(alloc, config.signings.as_slice())?,
    })
}

/// SecurityMode: signing enabled 1 and required 2. Capabilities: large MTU 4, multi-channel 8, persistent handles 0x10.
fn greeting_body(alloc: Global, config: &ClientConfig, salt: &[u8; 32]) -> Result<Bytes, AllocError>
    requires { CanOffer config.now }
    ensures { IfOk result (λ b. b ≡ negotiate_request_body (settings_of config.now) salt.now) }
{
    let offer = offer_of(alloc, config)?;
    let contexts = write_contexts(alloc, &offer, salt)?;
    let body = write_negotiate_request(
        alloc,
        &NegotiateRequest {
            security_mode: 3,
            capabilities: 0x1c,
            client_guid: config.guid,
            negotiate_context_count: context_count(&offer),
            dialects: &DIALECTS,
            contexts: contexts.as_slice(),
        },
    )?;
    Ok(body)
}

/// The client's NEGOTIATE, the first message on its connection, with a salt of 32 random bytes. The lists that it offers
/// fit their contexts.
pub fn greeting_text(
    alloc: Global,
    config: &ClientConfig,
    salt: &[u8; 32],
) -> Result<Bytes, AllocError>
    requires { CanOffer config.now }
    ensures { (m : Message) → IsDialogs m 0 0 → IfOk result (λ b. b ≡ greeting_due (settings_of config.now) salt.now m) }
{
    let body = greeting_body(alloc, config, salt)?;
    let header = header_for(0, 0, 0, false);
    let frame = message(alloc, &header, body.as_slice())?;
    Ok(Bytes::from_vec(frame))
}
