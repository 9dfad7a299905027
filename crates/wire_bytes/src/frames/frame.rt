ghost use Rattle.wire_bytes.specs.frames.Next.{IsFrameOf};

use crate::byte_lists::{Bytes, Out};
use spec_wire::FrameError;
use std::alloc::Global;

/// A message as its frame: a zero byte, the length in 3 bytes, the highest first, and the message.
/// `TooLong` has the length, where it is above 1,114,112; one above 2^32 - 1 is told as that.
#[tactic(auto, using(crate::proofs::byte_lists::Endian::le_1), unfolding(spec_wire::specs::messages::Frames::frame_spelling))]
pub fn frame_of(alloc: Global, message: &[u8]) -> Result<Bytes, FrameError>
    ensures { IsFrameOf message.now result }
{
    let len = message.len();
    if len > 1_114_112 {
        return Err(FrameError::TooLong(u32::try_from(len).unwrap_or(u32::MAX)));
    }
    let mut out = Out::new(alloc);
    out.put_u8(0)?;
    out.put_u8((len / 65536) as u8)?;
    out.put_u8((len / 256 % 256) as u8)?;
    out.put_u8((len % 256) as u8)?;
    out.put_slice(message)?;
    Ok(out.finish())
}
