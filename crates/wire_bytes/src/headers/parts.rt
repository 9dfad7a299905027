ghost use Rattle.std.specs.Prelude.{◌≡◌, ◌+◌, ◌*◌, ◌≤◌, ◌<◌, ◌^◌, length};
ghost use Rattle.spec_wire.specs.messages.Table.{IsPart, IsCounted};
ghost use Rattle.spec_wire.specs.messages.Fault.{Reads, part_fault, count_fault};

use spec_wire::{MessageError, Part};

/// The variable part of `len` bytes at a place of `m`, which must stand behind the `fixed` first bytes
/// of `m` where it isn't empty.
#[tactic(auto, unfolding(spec_wire::specs::messages::Places::bytes_at, spec_wire::specs::messages::Fault::part_fault))]
pub fn part_of(
    m: &[u8],
    at: usize,
    len: usize,
    fixed: usize,
    part: Part,
) -> Result<&[u8], MessageError>
    ensures { Reads (part_fault m.now at len fixed part) (λ b. IsPart m.now at len fixed b) (λ b. b.now) result }
{
    if len == 0 {
        return Ok(&m[..0]);
    }
    if at < fixed || at > m.len() || m.len() - at < len {
        return Err(MessageError::BadOffset(part));
    }
    Ok(&m[at..at + len])
}

/// The list of `count` elements of `each` bytes at a place of `m`, which has one element at least.
#[tactic(auto, unfolding(spec_wire::specs::messages::Places::bytes_at, spec_wire::specs::messages::Fault::count_fault))]
pub fn counted_at(
    m: &[u8],
    at: usize,
    count: u16,
    each: usize,
    part: Part,
) -> Result<&[u8], MessageError>
    requires { (at < 1000) × (each < 1000) }
    ensures { Reads (count_fault m.now at count each part) (λ b. IsCounted m.now at count each b) (λ b. b.now) result }
{
    let len = count as usize * each;
    if count == 0 || m.len() < at + len {
        return Err(MessageError::BadCount(part));
    }
    Ok(&m[at..at + len])
}
