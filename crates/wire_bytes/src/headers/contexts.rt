ghost use Rattle.std.specs.Prelude.{◌≡◌, ◌+◌, ◌≤◌, ◌<◌, length, MatchOption};
ghost use Rattle.spec_wire.specs.messages.Places.{number, bytes_at};
ghost use Rattle.spec_wire.specs.messages.Fault.{Reads};
ghost use Rattle.spec_wire.specs.messages.Contexts.{AreContexts, contexts_fault, context_place, context_end, contexts_end};

use crate::byte_lists::Cursor;
use spec_wire::{MessageError, Part};

/// A context of a NEGOTIATE (MS-SMB2 2.2.3.1), and the place behind it.
#[derive(Clone, Copy, Debug, PartialEq, Eq)]
pub struct ContextAt<'a> {
    pub kind: u16,
    pub bytes: &'a [u8],
    pub end: usize,
}

/// The context of `m` that begins at the next multiple of 8 from `behind` on, where it fits.
pub fn context_behind(m: &[u8], behind: usize) -> Option<ContextAt<'_>>
    ensures found { MatchOption result (length m.now < context_end m.now (context_place behind))
        (λ c. (c.kind ≡ number 2 m.now (context_place behind))
        × (c.bytes.now ≡ bytes_at (number 2 m.now (context_place behind + 2)) m.now (context_place behind + 8))) }
    ensures end { MatchOption result (length m.now < context_end m.now (context_place behind))
        (λ c. (c.end ≡ context_end m.now (context_place behind)) × (c.end ≤ length m.now)) }
{
    let mut cursor = Cursor::new(m);
    let _before = cursor.take(behind).ok()?;
    cursor.align8().ok()?;
    let kind = cursor.get_u16().ok()?;
    let len = cursor.get_u16().ok()?;
    let _reserved = cursor.get_u32().ok()?;
    let bytes = cursor.take(len as usize).ok()?;
    Some(ContextAt {
        kind,
        bytes,
        end: cursor.at(),
    })
}

// Where `count` contexts end that begin at `at`, if they fit.
fn end_of(m: &[u8], at: usize, count: u16) -> Option<usize>
    requires { at ≤ length m.now }
    ensures { MatchOption result (length m.now < contexts_end m.now at count) (λ e. (e ≡ contexts_end m.now at count)
        × (at ≤ e) × (e ≤ length m.now)) }
{
    let mut end = at;
    let mut left = count;
    while left > 0 {
        let Some(context) = context_behind(m, end) else {
            return None;
        };
        end = context.end;
        left -= 1;
    }
    Some(end)
}

/// The `count` contexts of a NEGOTIATE at a place of `m`, which must be a multiple of 8 behind the
/// `fixed` first bytes of `m`. Where `count` is 0 there are none, whatever the place.
#[tactic(auto, unfolding(spec_wire::specs::messages::Contexts::contexts_fault, spec_wire::specs::messages::Places::bytes_at))]
pub fn contexts_of(m: &[u8], at: usize, count: u16, fixed: usize) -> Result<&[u8], MessageError>
    ensures { Reads (contexts_fault m.now at count fixed) (λ b. AreContexts m.now at count fixed b) (λ b. b.now) result }
{
    if count == 0 {
        return Ok(&m[..0]);
    }
    if at < fixed || m.len() < at || at % 8 != 0 {
        return Err(MessageError::BadOffset(Part::Contexts));
    }
    match end_of(m, at, count) {
        Some(end) => Ok(&m[at..end]),
        None => Err(MessageError::BadCount(Part::Contexts)),
    }
}
