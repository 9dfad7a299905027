ghost use Rattle.std.specs.Prelude.{◌≡◌, ◌++◌, ◌<◌, length, IfOk, OnOk};
ghost use Rattle.spec_wire.specs.messages.Places.{gap_to_8};
ghost use Rattle.spec_wire.specs.messages.CreateContexts.{context_spelling};
ghost use Rattle.wire_bytes.specs.create_contexts.Parts.{linked_if};

use crate::byte_lists::{Bytes, FixedOut, Out};
use crate::headers::{gap_before, told_place};
use std::alloc::{AllocError, Global};

// One context, with the place of the next one.
fn context_bytes(
    alloc: Global,
    name: &[u8; 4],
    value: &[u8],
    next: u32,
) -> Result<Bytes, AllocError>
    requires { length value.now < 1000 }
    ensures { IfOk result (λ b. b ≡ context_spelling (record { name = name.now; value = value.now }) next) }
{
    let gap = gap_before(value.len(), name.len());
    let value_at = 16 + name.len() as u32 + gap as u32;
    let mut fixed = FixedOut::<16>::new();
    fixed.put_u32(next);
    fixed.put_u16(16);
    fixed.put_u16(name.len() as u16);
    fixed.put_u16(0);
    fixed.put_u16(told_place(value.len(), value_at) as u16);
    fixed.put_u32(value.len() as u32);
    let mut out = Out::new(alloc);
    out.put_slice(&fixed.finish())?;
    out.put_slice(name)?;
    out.put_zeros(gap)?;
    out.put_slice(value)?;
    Ok(out.finish())
}

fn gap_to_8(at: usize) -> u8
    ensures value { result ≡ gap_to_8 at }
    ensures small { result < 8 }
{
    ((8 - at % 8) % 8) as u8
}

/// Adds a context at the end of a chain, where more follow or none.
pub fn put_context(
    alloc: Global,
    chain: &mut Out,
    name: &[u8; 4],
    value: &[u8],
    more: bool,
) -> Result<(), AllocError>
    requires { length value.now < 1000 }
    ensures { OnOk result (chain.new ≡ chain.old ++ linked_if more (record { name = name.now; value = value.now })) }
{
    if !more {
        let last = context_bytes(alloc, name, value, 0)?;
        return chain.put_slice(last.as_slice());
    }
    let size = 16 + name.len() + gap_before(value.len(), name.len()) as usize + value.len();
    let gap = gap_to_8(size);
    let context = context_bytes(alloc, name, value, size as u32 + gap as u32)?;
    chain.put_slice(context.as_slice())?;
    chain.put_zeros(gap)
}
