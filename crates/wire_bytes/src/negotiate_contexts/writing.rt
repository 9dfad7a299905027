ghost use Rattle.std.specs.Prelude.{◌≡◌, ◌+◌, ◌*◌, ◌<◌, ◌^◌, ◌++◌, length, IfOk, OnOk, [], ◌∷◌, if◌then◌else◌};
ghost use Rattle.spec_wire.specs.messages.Places.{le};
ghost use Rattle.spec_wire.specs.messages.Contexts.{with_context, with_contexts};
ghost use Rattle.spec_wire.specs.messages.Offer.{ids_spelling, ids_contexts, preauth_context, offer_count, offer_spelling};
ghost use Rattle.wire_bytes.specs.negotiate_contexts.Views.{offer};

use crate::byte_lists::{Bytes, Out};
use crate::negotiate_contexts::offer::Offer;
use std::alloc::{AllocError, Global};

// Puts a context behind what stands there.
fn put_context(out: &mut Out, kind: u16, bytes: &[u8]) -> Result<(), AllocError>
    requires { length bytes.now < 2 ^ 16 }
    ensures { OnOk result (out.new ≡ with_context out.old (record { kind = kind; bytes = bytes.now })) }
{
    out.pad8()?;
    out.put_u16(kind)?;
    out.put_u16(bytes.len() as u16)?;
    out.put_u32(0)?;
    out.put_slice(bytes)
}

// Puts ids.
fn put_all(out: &mut Out, ids: &[u16]) -> Result<(), AllocError>
    ensures { OnOk result (out.new ≡ out.old ++ ids_spelling ids.now) }
{
    for id in ids {
        out.put_u16(*id)?;
    }
    Ok(())
}

// A count and ids.
fn ids_bytes(alloc: Global, ids: &[u16]) -> Result<Bytes, AllocError>
    requires { length ids.now < 32767 }
    ensures { IfOk result (λ b. b ≡ le 2 (length ids.now) ++ ids_spelling ids.now) }
{
    let mut out = Out::new(alloc);
    out.put_u16(ids.len() as u16)?;
    put_all(&mut out, ids)?;
    Ok(out.finish())
}

// Puts the context of a list, and none for an empty one.
#[tactic(auto, using(crate::proofs::negotiate_contexts::Spelling::ids_fit, crate::proofs::negotiate_contexts::Spelling::ids_there), unfolding(spec_wire::specs::messages::Contexts::with_contexts))]
fn put_ids(alloc: Global, out: &mut Out, kind: u16, ids: &[u16]) -> Result<(), AllocError>
    requires { length ids.now < 32767 }
    ensures { OnOk result (out.new ≡ with_contexts out.old (ids_contexts kind ids.now)) }
{
    if ids.is_empty() {
        return Ok(());
    }
    let bytes = ids_bytes(alloc, ids)?;
    put_context(out, kind, bytes.as_slice())
}

// What the preauthentication context tells: SHA-512 or no hash, and the salt.
fn preauth_bytes(alloc: Global, v: &Offer, salt: &[u8; 32]) -> Result<Bytes, AllocError>
    ensures { IfOk result (λ b. b ≡ (preauth_context (offer v.now) salt.now).bytes) }
{
    let mut out = Out::new(alloc);
    if v.sha512 {
        out.put_u16(1)?;
        out.put_u16(32)?;
        out.put_u16(1)?;
        out.put_slice(salt)?;
        return Ok(out.finish());
    }
    out.put_u16(0)?;
    out.put_u16(32)?;
    out.put_slice(salt)?;
    Ok(out.finish())
}

// Puts the preauthentication context where it is offered.
#[tactic(auto, unfolding(spec_wire::specs::messages::Contexts::with_contexts))]
fn put_preauth(alloc: Global, out: &mut Out, v: &Offer, salt: &[u8; 32]) -> Result<(), AllocError>
    ensures { OnOk result (out.new ≡ with_contexts out.old (if v.now.preauth then preauth_context (offer v.now) salt.now ∷ [] else [])) }
{
    if !v.preauth {
        return Ok(());
    }
    let bytes = preauth_bytes(alloc, v, salt)?;
    put_context(out, 1, bytes.as_slice())
}

/// How many contexts `write_contexts` writes.
pub fn context_count(v: &Offer) -> u16
    ensures { result ≡ offer_count (offer v.now) }
{
    let preauth = if v.preauth { 1 } else { 0 };
    let ciphers = if v.ciphers.is_empty() { 0 } else { 1 };
    let signings = if v.signings.is_empty() { 0 } else { 1 };
    preauth + (ciphers + signings)
}

/// The canonical spelling of an offer's contexts, with this salt (MS-SMB2 2.2.3.1): preauthentication,
/// ciphers, signing algorithms, each where it is offered. The place of the first one in its message is
/// to be a multiple of 8. The lengths of the lists must fit their contexts.
pub fn write_contexts(alloc: Global, v: &Offer, salt: &[u8; 32]) -> Result<Bytes, AllocError>
    requires ciphers { length v.now.ciphers < 32767 }
    requires signings { length v.now.signings < 32767 }
    ensures { IfOk result (λ b. b ≡ offer_spelling (offer v.now) salt.now) }
{
    let mut out = Out::new(alloc);
    put_preauth(alloc, &mut out, v, salt)?;
    put_ids(alloc, &mut out, 2, v.ciphers.as_slice())?;
    put_ids(alloc, &mut out, 8, v.signings.as_slice())?;
    Ok(out.finish())
}
