ghost use Rattle.std.specs.Prelude.{◌≡◌, ◌+◌, ◌<◌, ◌≤◌, length, get_or, IfSome};
ghost use Rattle.spec_wire.specs.messages.Frames.{told_length};

use crate::frames::front::length_of;

/// From how many bytes on a message is gathered apart, so that it isn't copied once more when it is whole.
const LONG: usize = 65_536;

/// The length of a long message, where the front of its frame stands at the front of a stream, and not all of it.
pub(crate) fn long_at(stream: &[u8]) -> Option<usize>
    ensures { IfSome result (λ n. (4 ≤ length stream.now) × (get_or stream.now 0 0 ≡ 0) × (told_length stream.now ≡ n) × (n ≤ 1114112)
        × (length stream.now < 4 + n)) }
{
    if stream.len() < 4 {
        return None;
    }
    if stream[0] != 0 {
        return None;
    }
    let length = length_of(stream) as usize;
    if length < LONG {
        return None;
    }
    if length > 1_114_112 {
        return None;
    }
    if stream.len() - 4 >= length {
        return None;
    }
    Some(length)
}
