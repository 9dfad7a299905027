ghost use Rattle.std.specs.Prelude.{◌≡◌, ◌<◌, ◌≤◌};
ghost use Rattle.spec_wire.specs.messages.Aligned.{told, aligned_gap};

/// The place that is told of a variable part of `len` bytes: 0 where it is empty.
pub fn told_place(len: usize, at: u32) -> u32
    ensures value { result ≡ told len at }
    ensures small { result ≤ at }
{
    if len == 0 { 0 } else { at }
}

/// How many zero bytes lie between what ends at a place and a part of `len` bytes that begins at the
/// next multiple of 8; none where the part is empty.
pub fn gap_before(len: usize, at: usize) -> u8
    ensures value { result ≡ aligned_gap len at }
    ensures small { result < 8 }
{
    if len == 0 {
        return 0;
    }
    ((8 - at % 8) % 8) as u8
}
