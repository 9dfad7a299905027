ghost use Rattle.std.specs.Prelude.{◌≡◌, ◌≤◌, ◌&&◌, ◌⊎◌, nat_le, true, [], length, IfOk, MatchOption, Some, None};
ghost use Rattle.spec_wire.specs.messages.Contexts.{contexts_end, contexts_in};
ghost use Rattle.spec_wire.specs.messages.Offer.{all_fit, first_of, lists_fit, ids_in, doubled};
ghost use Rattle.wire_bytes.specs.negotiate_contexts.Views.{ReadsOffer};

use crate::byte_lists::u16_at;
use crate::headers::context_behind;
use crate::negotiate_contexts::kinds::{Seen, doubles, lists_fit, with_kind};
use crate::negotiate_contexts::numbers::{Numbers, has_number, numbers_at};
use crate::negotiate_contexts::offer::Offer;
use spec_wire::CtxError;
use std::alloc::{AllocError, Global};

// Whether so many contexts, and their own lists, fit.
fn all_fit(bytes: &[u8], count: u16) -> bool
    ensures { result ≡ (nat_le (contexts_end bytes.now 0 count) (length bytes.now) && all_fit (contexts_in bytes.now 0 count)) }
{
    let mut end = 0;
    let mut left = count;
    while left > 0 {
        let Some(context) = context_behind(bytes, end) else {
            return false;
        };
        if !lists_fit(context.kind, context.bytes) {
            return false;
        }
        end = context.end;
        left -= 1;
    }
    true
}

// The first known type that stands twice.
fn doubled(bytes: &[u8], count: u16) -> Option<u16>
    requires { contexts_end bytes.now 0 count ≤ length bytes.now }
    ensures { MatchOption result (doubled [] (contexts_in bytes.now 0 count) ≡ None) (λ k. doubled [] (contexts_in
        bytes.now 0 count) ≡ Some k) }
{
    let mut seen = Seen {
        preauth: false,
        encryption: false,
        signing: false,
    };
    let mut end = 0;
    let mut left = count;
    while left > 0 {
        let Some(context) = context_behind(bytes, end) else {
            return None;
        };
        if doubles(seen, context.kind) {
            return Some(context.kind);
        }
        seen = with_kind(seen, context.kind);
        end = context.end;
        left -= 1;
    }
    None
}

// The first context of a type.
fn first_of(bytes: &[u8], count: u16, kind: u16) -> Option<&[u8]>
    requires fits { contexts_end bytes.now 0 count ≤ length bytes.now }
    requires lists { all_fit (contexts_in bytes.now 0 count) ≡ true }
    ensures { MatchOption result (first_of kind (contexts_in bytes.now 0 count) ≡ None) (λ b. (first_of kind
        (contexts_in bytes.now 0 count) ≡ Some (record { kind = kind; bytes = b.now })) × (lists_fit (record {
          kind =
              kind;
          bytes = b.now;
        }) ≡ true)) }
{
    let mut end = 0;
    let mut left = count;
    while left > 0 {
        let Some(context) = context_behind(bytes, end) else {
            return None;
        };
        if context.kind == kind {
            return Some(context.bytes);
        }
        end = context.end;
        left -= 1;
    }
    None
}

// The ids of the first context of a known type.
fn ids_of(alloc: Global, bytes: &[u8], count: u16, kind: u16) -> Result<Numbers, AllocError>
    requires known { (kind ≡ 1) ⊎ (kind ≡ 2) ⊎ (kind ≡ 8) }
    requires fits { contexts_end bytes.now 0 count ≤ length bytes.now }
    requires lists { all_fit (contexts_in bytes.now 0 count) ≡ true }
    ensures { IfOk result (λ n. n ≡ ids_in (first_of kind (contexts_in bytes.now 0 count))) }
{
    match first_of(bytes, count, kind) {
        Some(found) => {
            let from = if kind == 1 { 4 } else { 2 };
            numbers_at(alloc, found, from, u16_at(found, 0))
        }
        None => Ok(Numbers::new(alloc)),
    }
}

/// Reads `count` contexts, the first of which begins with the bytes, whose place in the message is a
/// multiple of 8 (MS-SMB2 2.2.3.1). Contexts of types other than 1, 2 and 8 are passed over. `Short`
/// comes exactly where the contexts, or the lists of one of them, don't fit; else `Doubled` has the
/// first type of the three that stood before.
pub fn read_contexts(
    alloc: Global,
    bytes: &[u8],
    count: u16,
) -> Result<Result<Offer, CtxError>, AllocError>
    ensures { IfOk result (λ r. ReadsOffer bytes.now count r) }
{
    // All contexts are measured before one is read: `Short` comes before `Doubled`, and no later walk finds too few
    // bytes.
    if !all_fit(bytes, count) {
        return Ok(Err(CtxError::Short));
    }
    if let Some(kind) = doubled(bytes, count) {
        return Ok(Err(CtxError::Doubled(kind)));
    }
    let hashes = ids_of(alloc, bytes, count, 1)?;
    let ciphers = ids_of(alloc, bytes, count, 2)?;
    let signings = ids_of(alloc, bytes, count, 8)?;
    Ok(Ok(Offer {
        sha512: has_number(hashes.as_slice(), 1),
        preauth: first_of(bytes, count, 1).is_some(),
        ciphers,
        signings,
    }))
}
