//! The response to NEGOTIATE.
ghost use Rattle.std.specs.Prelude.{◌≡◌, ℕ, List, None, IfOk, MatchOption, is_none, true, false};
ghost use Rattle.spec_wire.specs.messages.Negotiate.{negotiate_response_in, negotiate_response_fault};
ghost use Rattle.spec_wire.specs.messages.Offer.{offer_fault, offer_in};
ghost use Rattle.wire_bytes.specs.session_messages.Views.{negotiate_response};
ghost use Rattle.wire_bytes.specs.negotiate_contexts.Views.{offer as offer_view};
ghost use Rattle.client_ends.specs.ends.Shown.{settings_of};
ghost use Rattle.client_ends.specs.dialog_responses.Greeting.{Greets, GreetingHints};

use crate::dialog_responses::choice::{choice_refusal, chosen_of};
use crate::dialog_responses::contexts::hash_count;
use crate::ends::ClientConfig;
use crate::tokens::is_hint;
use law_wire::negotiate_response_law;
use spec_crypto::Chosen;
use std::alloc::{AllocError, Global};
use wire_bytes::{NegotiateResponse, Offer, Refusal, read_contexts, read_negotiate_response};

/// The response that stands in a message.
fn response_in(m: &[u8]) -> Option<NegotiateResponse<'_>>
    ensures { MatchOption result (is_none (negotiate_response_fault m.now) ≡ false)
        (λ r. (is_none (negotiate_response_fault m.now) ≡ true) × (negotiate_response r ≡ negotiate_response_in m.now)) }
{
    negotiate_response_law();
    match read_negotiate_response(m) {
        Ok(response) => Some(response),
        Err(_) => None,
    }
}

/// What is taken of contexts whose choices were offered, where the token is a hint.
fn hinted(
    alloc: Global,
    response: &NegotiateResponse<'_>,
    told: &Offer,
) -> Result<Result<Chosen, Refusal>, AllocError>
    ensures { IfOk result (λ r. GreetingHints response.now.security.now told.now.ciphers told.now.signings r) }
{
    let hints = is_hint(alloc, response.security)?;
    if hints {
        Ok(Ok(chosen_of(told)))
    } else {
        Ok(Err(Refusal::BadToken))
    }
}

/// What contexts that read tell: a choice that wasn't offered; a token that is no hint.
fn greeting_by(
    alloc: Global,
    config: &ClientConfig,
    response: &NegotiateResponse<'_>,
    told: &Offer,
) -> Result<Result<Chosen, Refusal>, AllocError>
    requires { offer_fault response.now.contexts.now response.now.negotiate_context_count ≡ None }
    ensures { (m : List ℕ) → is_none (negotiate_response_fault m) ≡ true → negotiate_response response.now ≡ negotiate_response_in m
        → offer_view told.now ≡ offer_in response.now.contexts.now response.now.negotiate_context_count
        → IfOk result (λ r. Greets (settings_of config.now) m r) }
{
    let hashes = hash_count(response.contexts, response.negotiate_context_count);
    match choice_refusal(config, response.dialect_revision, hashes, told) {
        Some(why) => Ok(Err(why)),
        None => hinted(alloc, response, told),
    }
}

/// What a response that reads tells: contexts that don't read; else what these tell.
fn greeting_of(
    alloc: Global,
    config: &ClientConfig,
    response: &NegotiateResponse<'_>,
) -> Result<Result<Chosen, Refusal>, AllocError>
    ensures { (m : List ℕ) → is_none (negotiate_response_fault m) ≡ true → negotiate_response response.now ≡ negotiate_response_in m
        → IfOk result (λ r. Greets (settings_of config.now) m r) }
{
    let read = read_contexts(alloc, response.contexts, response.negotiate_context_count)?;
    match read {
        Ok(told) => greeting_by(alloc, config, response, &told),
        Err(_) => Ok(Err(Refusal::BadToken)),
    }
}

/// What the server chose, by its response to NEGOTIATE, `m` being the message from its header on; or the first fault: a
/// body or contexts that don't read; a dialect, a hash, a cipher or a signing algorithm that wasn't offered; a token that
/// is no hint (MS-SMB2 3.2.5.2).
pub fn greeting(
    alloc: Global,
    config: &ClientConfig,
    m: &[u8],
) -> Result<Result<Chosen, Refusal>, AllocError>
    ensures { IfOk result (λ r. Greets (settings_of config.now) m.now r) }
{
    match response_in(m) {
        Some(response) => greeting_of(alloc, config, &response),
        None => Ok(Err(Refusal::BadToken)),
    }
}
