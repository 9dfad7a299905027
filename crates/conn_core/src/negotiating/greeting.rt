//! NEGOTIATE at the server (MS-SMB2 3.3.5.4).
ghost use Rattle.std.specs.Prelude.{[], ◌≡◌, ◌≤◌, ◌<◌, ℕ, List, None, Err, length, IfOk};
ghost use Rattle.spec_wire.specs.messages.Offer.{offer_fault, offer_in};
ghost use Rattle.wire_bytes.specs.session_messages.Views.{negotiate_request};
ghost use Rattle.spec_wire.specs.messages.Places.{number_of};
ghost use Rattle.spec_crypto.specs.tokens.Tokens as tokens;
ghost use Rattle.wire_bytes.specs.negotiate_contexts.Views.{offer as offer_view};
ghost use Rattle.spec_world.specs.Negotiate as negotiate;
ghost use Rattle.conn_core.specs.negotiating.Greeting.{HasDialect, IsAsked, IsHello};

use crypto_sessions::{InitToken, NTLM_LIST, write_init};
use law_wire::negotiate_request_law;
use spec_crypto::Chosen;
use std::alloc::{AllocError, Global};
use wire_bytes::{
    Bytes, ChooseError, NegotiateRequest, NegotiateResponse, Numbers, Offer, choose, context_count,
    halves_of, read_contexts, read_negotiate_request, u16_at, write_contexts,
    write_negotiate_response,
};

const SUCCESS: u32 = 0;

/// STATUS_INVALID_PARAMETER (MS-ERREF 2.3.1)
const INVALID_PARAMETER: u32 = 0xc000_000d;

/// STATUS_NOT_SUPPORTED
const NOT_SUPPORTED: u32 = 0xc000_00bb;

/// STATUS_SMB_NO_PREAUTH_INTEGRITY_HASH_OVERLAP
const HASH_OVERLAP: u32 = 0xc05d_0000;

/// What answers a NEGOTIATE: its status, and for a success what was chosen and the response behind a header.
#[derive(Drop, Debug)]
pub struct Hello {
    pub status: u32,
    pub client: u128,
    pub chosen: Chosen,
    pub body: Bytes,
}

/// A status by which nothing is chosen.
fn refused(alloc: Global, status: u32) -> Hello
    ensures { (result.status ≡ status) × (result.body ≡ []) }
{
    Hello {
        status,
        client: 0,
        chosen: Chosen {
            cipher: 0,
            signing: 1,
            signing_told: false,
        },
        body: Bytes::new(alloc),
    }
}

/// SMB 3.1.1 is among the dialects.
#[tactic(auto, unfolding(spec_world::specs::Negotiate::has_dialect))]
fn has_dialect(dialects: &[u8]) -> bool
    ensures { result ≡ negotiate.has_dialect dialects.now }
{
    for k in 0..dialects.len() / 2 {
        if u16_at(dialects, 2 * k) == 0x311 {
            return true;
        }
    }
    false
}

/// The number of a ClientGuid, its first byte the lowest.
#[tactic(auto, using(crate::proofs::negotiating::Guids::guid_cut))]
fn client_told(guid: &[u8; 16]) -> u128
    ensures { result ≡ number_of guid.now }
{
    match halves_of(guid) {
        Ok(halves) => halves.low as u128 + halves.high as u128 * 0x1_0000_0000_0000_0000,
        Err(_short) => 0,
    }
}

/// A list of one algorithm, or of none.
fn told_if(alloc: Global, told: bool, id: u16) -> Result<Numbers, AllocError>
    ensures ids { IfOk result (λ ids. ids ≡ negotiate.told_if told id) }
    ensures few { IfOk result (λ ids. length ids ≤ 1) }
{
    if told {
        Numbers::from_slice(alloc, &[id])
    } else {
        Ok(Numbers::new(alloc))
    }
}

/// What the response's contexts tell: each kind where it was offered, with the one algorithm that was chosen.
fn choice_offer(alloc: Global, offer: &Offer, chosen: &Chosen) -> Result<Offer, AllocError>
    ensures offer { IfOk result (λ o. offer_view o ≡ negotiate.choice_offer (offer_view offer.now) chosen.now) }
    ensures few { IfOk result (λ o. (length o.ciphers ≤ 1) × (length o.signings ≤ 1)) }
{
    Ok(Offer {
        sha512: true,
        preauth: true,
        ciphers: told_if(alloc, !offer.ciphers.is_empty(), chosen.cipher)?,
        signings: told_if(alloc, chosen.signing_told, chosen.signing)?,
    })
}

/// The token by which a client knows that NTLM is wanted.
fn hint_token(alloc: Global) -> Result<Bytes, AllocError>
    ensures token { IfOk result (λ b. b ≡ tokens.hint_token) }
    ensures short { IfOk result (λ b. length b < 65536) }
{
    write_init(
        alloc,
        &InitToken {
            mech_list: Bytes::from_slice(alloc, &NTLM_LIST)?,
            ntlm_first: true,
            token: None,
            mic: None,
        },
    )
}

/// Who answers a NEGOTIATE, with random bytes and a moment.
#[derive(Clone, Copy)]
pub struct Greeter {
    pub guid: [u8; 16],
    pub salt: [u8; 32],
    pub moment: u64,
}

/// SecurityMode: signing enabled 1 and required 2. Capabilities: large MTU 4, multi-channel 8, persistent handles 0x10.
fn response_body(
    alloc: Global,
    greeter: &Greeter,
    offer: &Offer,
    chosen: &Chosen,
) -> Result<Bytes, AllocError>
    ensures short { IfOk result (λ b. length b ≤ 1113984) }
    ensures body { (m : List ℕ) → offer_view offer.now ≡ negotiate.offer_told m → chosen.now ≡ negotiate.negotiated m
        → IfOk result (λ b. b ≡ negotiate.negotiate_response_body greeter.now.guid greeter.now.salt greeter.now.moment m) }
{
    let told = choice_offer(alloc, offer, chosen)?;
    let contexts = write_contexts(alloc, &told, &greeter.salt)?;
    let hint = hint_token(alloc)?;
    write_negotiate_response(
        alloc,
        &NegotiateResponse {
            security_mode: 3,
            dialect_revision: 0x311,
            negotiate_context_count: context_count(&told),
            server_guid: greeter.guid,
            capabilities: 0x1c,
            max_transact_size: 1_048_576,
            max_read_size: 1_048_576,
            max_write_size: 1_048_576,
            system_time: greeter.moment,
            server_start_time: 0,
            security: hint.as_slice(),
            contexts: contexts.as_slice(),
        },
    )
}

/// The status of an offer from which nothing is chosen.
fn status_of(why: ChooseError) -> u32
    ensures { result ≡ negotiate.choice_status (Err why) }
{
    match why {
        ChooseError::NoPreauth => INVALID_PARAMETER,
        ChooseError::NoHash => HASH_OVERLAP,
    }
}

/// No context of preauthentication; no SHA-512; else a choice.
fn hello_of(
    alloc: Global,
    greeter: &Greeter,
    request: &NegotiateRequest<'_>,
    offer: &Offer,
) -> Result<Hello, AllocError>
    ensures short { IfOk result (λ h. length h.body ≤ 1113984) }
    ensures hello { (m : List ℕ) → IsAsked m (negotiate_request request.now) → HasDialect m
        → offer_fault request.now.contexts.now request.now.negotiate_context_count ≡ None
        → offer_view offer.now ≡ offer_in request.now.contexts.now request.now.negotiate_context_count
        → IfOk result (λ h. IsHello greeter.now.guid greeter.now.salt greeter.now.moment m h) }
{
    match choose(offer) {
        Err(why) => Ok(refused(alloc, status_of(why))),
        Ok(chosen) => Ok(Hello {
            status: SUCCESS,
            client: client_told(&request.client_guid),
            chosen,
            body: response_body(alloc, greeter, offer, &chosen)?,
        }),
    }
}

/// Contexts that don't read; else what they offer.
fn hello_in(
    alloc: Global,
    greeter: &Greeter,
    request: &NegotiateRequest<'_>,
) -> Result<Hello, AllocError>
    ensures short { IfOk result (λ h. length h.body ≤ 1113984) }
    ensures hello { (m : List ℕ) → IsAsked m (negotiate_request request.now) → HasDialect m
        → IfOk result (λ h. IsHello greeter.now.guid greeter.now.salt greeter.now.moment m h) }
{
    match read_contexts(alloc, request.contexts, request.negotiate_context_count)? {
        Err(_) => Ok(refused(alloc, INVALID_PARAMETER)),
        Ok(offer) => hello_of(alloc, greeter, request, &offer),
    }
}

/// No 0x0311; else its contexts.
fn hello_by(
    alloc: Global,
    greeter: &Greeter,
    request: &NegotiateRequest<'_>,
) -> Result<Hello, AllocError>
    ensures short { IfOk result (λ h. length h.body ≤ 1113984) }
    ensures hello { (m : List ℕ) → IsAsked m (negotiate_request request.now)
        → IfOk result (λ h. IsHello greeter.now.guid greeter.now.salt greeter.now.moment m h) }
{
    if has_dialect(request.dialects) {
        hello_in(alloc, greeter, request)
    } else {
        Ok(refused(alloc, NOT_SUPPORTED))
    }
}

/// The answer to a NEGOTIATE, `m` being the message from its header on. In order: a body that doesn't read, or has no
/// dialect; no 0x0311; then its contexts.
pub fn hello_to(alloc: Global, greeter: &Greeter, m: &[u8]) -> Result<Hello, AllocError>
    ensures short { IfOk result (λ h. length h.body ≤ 1113984) }
    ensures hello { IfOk result (λ h. IsHello greeter.now.guid greeter.now.salt greeter.now.moment m.now h) }
{
    negotiate_request_law();
    match read_negotiate_request(m) {
        Err(_) => Ok(refused(alloc, INVALID_PARAMETER)),
        Ok(request) => hello_by(alloc, greeter, &request),
    }
}
