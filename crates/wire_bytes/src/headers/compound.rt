ghost use Rattle.std.specs.Prelude.{◌≡◌, ◌+◌, ◌≤◌, length, MatchOption, MatchResult};
ghost use Rattle.spec_wire.specs.messages.Compound.{IsJoined, IsLast, AreJoined, BreaksAt, ReadsCompound};

use crate::headers::reading::read_header;
use crate::headers::spans::Parts;
use spec_wire::{HeaderError, Span};
use std::alloc::Global;

// The place of the message behind the one at `at`; `None` where that one is the last.
fn next_of(frame: &[u8], at: usize) -> Result<Option<usize>, HeaderError>
    requires { at ≤ length frame.now }
    ensures { MatchResult result (λ o. MatchOption o (IsLast frame.now (record { start = at; end = length frame.now }))
        (λ next. IsJoined frame.now (record { start = at; end = next }) × (at + 64 ≤ next)
        × (next + 64 ≤ length frame.now))) (λ e. BreaksAt frame.now at e) }
{
    let header = read_header(&frame[at..])?;
    let next = header.next as usize;
    if next == 0 {
        return Ok(None);
    }
    if next % 8 != 0 || next < 64 || frame.len() - at < next + 64 {
        return Err(HeaderError::BadNext(at));
    }
    Ok(Some(at + next))
}

/// The messages of a frame, which NextCommand joins (MS-SMB2 2.2.1). Of the first message whose header
/// doesn't read the refusal is that of the header. `BadNext` has the place of the message, where its
/// NextCommand isn't 0 and isn't a multiple of 8, is below 64, or leaves fewer than 64 bytes.
pub fn split_compound(alloc: Global, frame: &[u8]) -> Result<Parts, HeaderError>
    ensures { ReadsCompound frame.now result }
{
    let mut parts = Parts::new(alloc);
    let mut at = 0;
    loop {
        match next_of(frame, at) {
            Ok(Some(end)) => {
                parts.push(Span { start: at, end })?;
                at = end;
            }
            Ok(None) => {
                let end = frame.len();
                parts.push(Span { start: at, end })?;
                return Ok(parts);
            }
            Err(error) => return Err(error),
        }
    }
}
