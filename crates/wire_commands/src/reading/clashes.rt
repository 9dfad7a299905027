//! Create contexts that may not stand together (MS-SMB2 3.3.5.9.12).
ghost use Rattle.std.specs.Prelude.{◌≡◌, ◌+◌, ◌≤◌, length, true, None, IfOk, is_some};
ghost use Rattle.spec_wire.specs.messages.Chain.{piece};
ghost use Rattle.spec_wire.specs.messages.CreateContexts.{context_in, first_fault, request_due};
ghost use Rattle.spec_wire.specs.messages.Places.{bytes_at, number};
ghost use Rattle.spec_commands.specs.Clashes as clashes;
ghost use Rattle.spec_commands.specs.CommandOf as commands;
ghost use Rattle.wire_commands.specs.reading.Names.{has_name, mixes_versions};

use std::alloc::{AllocError, Global};
use std::collections::BTreeSet;
use wire_bytes::{items_behind, piece_of, u16_at, u32_at};

// How far behind it the context that a chain begins with tells the next one to be.
fn next_at(m: &[u8]) -> usize
    requires { first_fault request_due m.now ≡ None }
    ensures { result ≡ number 4 m.now 0 }
{
    u32_at(m, 0) as usize
}

// A part of a context; an empty one may be told to stand anywhere.
#[tactic(auto, unfolding(spec_wire::specs::messages::Places::bytes_at))]
fn part_at(m: &[u8], at: usize, size: usize) -> &[u8]
    requires { (size ≡ 0 → ⊥) → at + size ≤ length m.now }
    ensures { result.now ≡ bytes_at size m.now at }
{
    if size == 0 {
        return &m[..0];
    }
    &m[at..at + size]
}

// The name of the context that a chain begins with.
fn name_at(m: &[u8], next: usize) -> &[u8]
    requires whole { first_fault request_due m.now ≡ None }
    requires told { next ≡ number 4 m.now 0 }
    ensures { result.now ≡ (context_in (piece m.now)).name }
{
    let context = piece_of(m, next);
    part_at(
        context,
        u16_at(context, 4) as usize,
        u16_at(context, 6) as usize,
    )
}

fn has_name<'a>(names: &BTreeSet<&'a [u8]>, name: &'a [u8]) -> bool
    ensures { result ≡ has_name names.now name.now }
{
    names.contains(&name)
}

// DH2C stands beside a context of the first version.
fn mixes_versions(names: &BTreeSet<&[u8]>) -> bool
    ensures { result ≡ mixes_versions names.now }
{
    has_name(names, b"DH2C") && (has_name(names, b"DHnQ") || has_name(names, b"DHnC"))
}

/// Whether contexts that read clash. Each name is looked up among those before it, so that many contexts don't cost the square of
/// their number.
pub(crate) fn clash_in(alloc: Global, bytes: &[u8]) -> Result<bool, AllocError>
    requires { is_some (commands.contexts_in bytes.now) ≡ true }
    ensures { IfOk result (λ b. b ≡ clashes.clash_in bytes.now) }
{
    if bytes.is_empty() {
        return Ok(false);
    }
    let mut names = BTreeSet::new(alloc);
    let mut rest = bytes;
    loop {
        let next = next_at(rest);
        match names.insert(name_at(rest, next)) {
            Ok(true) => {}
            Ok(false) => return Ok(true),
            Err(_) => return Err(AllocError),
        }
        if next == 0 {
            return Ok(mixes_versions(&names));
        }
        rest = items_behind(rest, next);
    }
}
