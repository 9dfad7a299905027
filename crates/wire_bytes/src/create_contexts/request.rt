ghost use Rattle.std.specs.Prelude.{◌≡◌, ◌<◌, length, if◌then◌else◌, true, Some, None, IfOk, MatchResult, OnOk};
ghost use Rattle.spec_wire.specs.messages.CreateContexts.{first_fault, is_named, is_persistent, dh2q, dh2q_in, dh2c, dh2c_in};
ghost use Rattle.spec_wire.specs.messages.CreateContexts.{request_due, request_of, both_requests, no_requests, first, HasLength};
ghost use Rattle.spec_wire.specs.messages.CreateContexts.{ReadsCreateContexts};
ghost use Rattle.wire_bytes.specs.create_contexts.Parts.{context, FirstRequestSays};

use crate::byte_lists::{Short, array_at, fields_fit, u32_at};
use crate::create_contexts::context::{Context, first_context};
use crate::create_contexts::due::{Side, is_named};
use crate::create_contexts::values::{first, is_persistent};
use crate::headers::items_behind;
use spec_wire::{ChainError, CreateContexts, Dh2c, Dh2q};

fn dh2q_in(value: &[u8]) -> Result<Dh2q, Short>
    ensures { MatchResult result (λ q. q ≡ dh2q_in value.now) (λ _. length value.now < 32) }
{
    fields_fit(value, &[4, 4, 8, 16])?;
    let timeout = u32_at(value, 0);
    let flags = u32_at(value, 4);
    let guid = array_at::<16>(value, 16);
    Ok(Dh2q {
        timeout,
        persistent: is_persistent(flags),
        guid,
    })
}

fn dh2c_in(value: &[u8]) -> Result<Dh2c, Short>
    ensures { MatchResult result (λ q. q ≡ dh2c_in value.now) (λ _. length value.now < 36) }
{
    fields_fit(value, &[16, 16, 4])?;
    let file = array_at::<16>(value, 0);
    let guid = array_at::<16>(value, 16);
    let flags = u32_at(value, 32);
    Ok(Dh2c {
        file,
        guid,
        persistent: is_persistent(flags),
    })
}

fn dh2q_of(c: &Context<'_>) -> Result<Option<Dh2q>, Short>
    ensures { MatchResult result (λ q. q ≡ (if is_named c.now.name.now dh2q then Some (dh2q_in c.now.value.now) else
        None)) (λ _. (is_named c.now.name.now dh2q ≡ true) × (length c.now.value.now < 32)) }
{
    if !is_named(c.name, b"DH2Q") {
        return Ok(None);
    }
    let q = dh2q_in(c.value)?;
    Ok(Some(q))
}

fn dh2c_of(c: &Context<'_>) -> Result<Option<Dh2c>, Short>
    ensures { MatchResult result (λ q. q ≡ (if is_named c.now.name.now dh2c then Some (dh2c_in c.now.value.now) else
        None)) (λ _. (is_named c.now.name.now dh2c ≡ true) × (length c.now.value.now < 36)) }
{
    if !is_named(c.name, b"DH2C") {
        return Ok(None);
    }
    let q = dh2c_in(c.value)?;
    Ok(Some(q))
}

// What one context says. Data that are as long as is due are never too short.
#[tactic(auto, unfolding(spec_wire::specs::messages::CreateContexts::request_due, spec_wire::specs::messages::CreateContexts::is_named))]
fn request_of(c: &Context<'_>) -> Result<CreateContexts, Short>
    ensures { MatchResult result (λ r. r ≡ request_of (context c.now)) (λ _. HasLength (request_due c.now.name.now)
        (length c.now.value.now) → ⊥) }
{
    let dh2q = dh2q_of(c)?;
    let dh2c = dh2c_of(c)?;
    Ok(CreateContexts {
        dh2q,
        dh2c,
        mxac: is_named(c.name, b"MxAc"),
        qfid: is_named(c.name, b"QFid"),
    })
}

fn both_requests(a: &CreateContexts, b: &CreateContexts) -> CreateContexts
    ensures { result ≡ both_requests a.now b.now }
{
    CreateContexts {
        dh2q: first(a.dh2q, b.dh2q),
        dh2c: first(a.dh2c, b.dh2c),
        mxac: a.mxac || b.mxac,
        qfid: a.qfid || b.qfid,
    }
}

fn no_requests() -> CreateContexts
    ensures { result ≡ no_requests }
{
    CreateContexts {
        dh2q: None,
        dh2c: None,
        mxac: false,
        qfid: false,
    }
}

// What the context says that a chain begins with, and how far the next one is.
#[derive(Clone, Copy)]
struct FirstRequest {
    said: CreateContexts,
    next: usize,
}

fn first_request(m: &[u8]) -> Result<FirstRequest, ChainError>
    ensures { MatchResult result (λ f. FirstRequestSays m.now f.said f.next) (λ e. first_fault request_due m.now ≡ Some e) }
{
    let first = match first_context(Side::Request, m) {
        Ok(first) => first,
        Err(error) => return Err(error),
    };
    match request_of(&first.context) {
        Ok(said) => Ok(FirstRequest {
            said,
            next: first.next,
        }),
        Err(_short) => Err(ChainError::Short),
    }
}

/// Reads the create contexts of a CREATE request (MS-SMB2 2.2.13.2); no bytes are no contexts. It takes
/// no memory, so `Memory` never comes.
pub fn read_chain(bytes: &[u8]) -> Result<CreateContexts, ChainError>
    ensures { ReadsCreateContexts bytes.now result }
{
    let mut found = no_requests();
    if bytes.is_empty() {
        return Ok(found);
    }
    let mut rest = bytes;
    loop {
        let head = match first_request(rest) {
            Ok(head) => head,
            Err(error) => return Err(error),
        };
        found = both_requests(&found, &head.said);
        if head.next == 0 {
            return Ok(found);
        }
        rest = items_behind(rest, head.next);
    }
}
