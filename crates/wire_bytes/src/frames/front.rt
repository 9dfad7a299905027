ghost use Rattle.std.specs.Prelude.{◌≡◌, ◌+◌, ◌≤◌, length, drop, MatchOption, MatchResult};
ghost use Rattle.spec_wire.specs.messages.Places.{bytes_at};
ghost use Rattle.spec_wire.specs.messages.Frames.{Waits, Whole, Breaks, front, told_length};

use spec_wire::FrameError;

// The length in three bytes behind the first, the highest first.
pub(crate) fn length_of(stream: &[u8]) -> u32
    requires { 4 ≤ length stream.now }
    ensures { result ≡ told_length stream.now }
{
    65536 * stream[1] as u32 + 256 * stream[2] as u32 + stream[3] as u32
}

/// The length of the message whose whole frame stands at the front of a stream; `None` where more bytes
/// are needed.
#[tactic(auto, unfolding(spec_wire::specs::messages::Frames::front))]
pub(crate) fn front_of(stream: &[u8]) -> Result<Option<usize>, FrameError>
    ensures { MatchResult result (λ o. MatchOption o (front stream.now ≡ Waits) (λ n. (4 + n ≤ length stream.now)
        × (front stream.now ≡ Whole (bytes_at n stream.now 4) (drop (4 + n) stream.now)))) (λ e. front stream.now
        ≡ Breaks e) }
{
    if stream.is_empty() {
        return Ok(None);
    }
    if stream[0] != 0 {
        return Err(FrameError::BadLead(stream[0]));
    }
    if stream.len() < 4 {
        return Ok(None);
    }
    let length = length_of(stream);
    // Judged before the message is there, so that no peer makes this end wait for more than a frame may have.
    if length > 1_114_112 {
        return Err(FrameError::TooLong(length));
    }
    if stream.len() - 4 < length as usize {
        return Ok(None);
    }
    Ok(Some(length as usize))
}
