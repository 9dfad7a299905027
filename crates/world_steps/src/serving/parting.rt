// The frames of an answer, one after the other.
ghost use Rattle.std.specs.Prelude.{◌≡◌, ◌++◌, ◌≤◌, ◌<◌, ℕ, List, length, IfSome};
ghost use Rattle.conn_core.specs.reply_sealing.Saying.{framed};
ghost use Rattle.spec_wire.specs.messages.Frames.{told_length};
ghost use Rattle.world_steps.specs.serving.Said.{PartsIn};

/// A frame, and what stands behind it.
#[derive(Drop)]
pub(crate) struct Parted<'a> {
    pub frame: &'a [u8],
    pub rest: &'a [u8],
}

/// The length in three bytes behind the first, the highest first.
fn length_of(bytes: &[u8]) -> usize
    requires { 4 ≤ length bytes.now }
    ensures { result ≡ told_length bytes.now }
{
    65536 * bytes[1] as usize + 256 * bytes[2] as usize + bytes[3] as usize
}

/// The first of frames that stand one after the other, each behind a zero byte and its length in 3 bytes (MS-SMB2 2.1).
pub(crate) fn next_frame(bytes: &[u8]) -> Option<Parted<'_>>
    ensures shorter { IfSome result (λ p. length p.rest.now < length bytes.now) }
    ensures parts { (m rest : List ℕ) → length m ≤ 1114112 → bytes.now ≡ framed m ++ rest → PartsIn m rest result }
{
    if bytes.len() < 4 {
        return None;
    }
    let end = 4 + length_of(bytes);
    if bytes.len() < end {
        return None;
    }
    Some(Parted {
        frame: &bytes[4..end],
        rest: &bytes[end..],
    })
}
