//! The hashes of a preauthentication context.
ghost use Rattle.std.specs.Prelude.{◌≡◌, ◌≤◌, true, length, MatchOption, Some, None};
ghost use Rattle.spec_wire.specs.messages.Contexts.{contexts_end, contexts_in};
ghost use Rattle.spec_wire.specs.messages.Offer.{all_fit, first_of, lists_fit, ids_in, offer_fault};

use wire_bytes::{context_behind, u16_at};

/// The first context of a type.
fn first_context(bytes: &[u8], count: u16, kind: u16) -> Option<&[u8]>
    requires fits { contexts_end bytes.now 0 count ≤ length bytes.now }
    requires lists { all_fit (contexts_in bytes.now 0 count) ≡ true }
    ensures { MatchOption result (first_of kind (contexts_in bytes.now 0 count) ≡ None) (λ b. (first_of kind
        (contexts_in bytes.now 0 count) ≡ Some (record { kind = kind; bytes = b.now })) × (lists_fit (record {
          kind =
              kind;
          bytes = b.now;
        }) ≡ true)) }
{
    let mut end = 0;
    let mut left = count;
    while left > 0 {
        let Some(context) = context_behind(bytes, end) else {
            return None;
        };
        if context.kind == kind {
            return Some(context.bytes);
        }
        end = context.end;
        left -= 1;
    }
    None
}

/// How many hashes the preauthentication context tells, none where there is none.
fn hashes_in(bytes: &[u8], count: u16) -> u16
    requires fits { contexts_end bytes.now 0 count ≤ length bytes.now }
    requires lists { all_fit (contexts_in bytes.now 0 count) ≡ true }
    ensures { result ≡ length (ids_in (first_of 1 (contexts_in bytes.now 0 count))) }
{
    match first_context(bytes, count, 1) {
        Some(found) => u16_at(found, 0),
        None => 0,
    }
}

/// The same of contexts that read.
pub(crate) fn hash_count(bytes: &[u8], count: u16) -> u16
    requires { offer_fault bytes.now count ≡ None }
    ensures { result ≡ length (ids_in (first_of 1 (contexts_in bytes.now 0 count))) }
{
    hashes_in(bytes, count)
}
