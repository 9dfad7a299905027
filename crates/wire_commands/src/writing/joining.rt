//! Messages joined into one frame by NextCommand (MS-SMB2 2.2.1, 3.2.4.1.4).
ghost use Rattle.std.specs.Prelude.{◌≡◌, ◌+◌, ◌<◌, ◌^◌, ◌∷◌, ◌++◌, true, List, length, drop, map, OnOk};
ghost use Rattle.spec_wire.specs.messages.Compound.{SpellsCompound};
ghost use Rattle.wire_commands.specs.writing.Joining as frames;
ghost use Rattle.wire_commands.specs.writing.Writing.{BodyWrites, BodyPuts};

use crate::writing::fault::WriteError;
use crate::writing::listing::has_more;
use law_wire::header_law;
use spec_wire::Header;
use std::alloc::{AllocError, Global};
use wire_bytes::{Bytes, Out, gap_before, write_header};

/// A message that is to be sent, whose NextCommand `join_messages` tells.
#[derive(Clone, Copy, Debug)]
pub struct Unjoined<'a> {
    pub header: Header,
    pub body: &'a [u8],
}

fn put_message(out: &mut Out, m: &Unjoined<'_>, next: u32) -> Result<(), AllocError>
    ensures { OnOk result (out.new ≡ out.old ++ frames.joined_message_spelling (frames.message_of m.now) next) }
{
    let header = Header { next, ..m.header };
    out.put_slice(&write_header(&header))?;
    out.put_slice(m.body)
}

// A message padded to a multiple of 8, which others follow.
fn put_joined(out: &mut Out, m: &Unjoined<'_>) -> Result<(), WriteError>
    ensures { BodyPuts (frames.next_place (frames.message_of m.now) < 2 ^ 32) (frames.joined_if true (frames.message_of m.now))
        out.old out.new result }
{
    let len = m.body.len();
    if len >= 0xffff_ffc0 {
        return Err(WriteError::Unwritable);
    }
    let size = 64 + len;
    let gap = gap_before(1, size);
    if size + gap as usize >= 0x1_0000_0000 {
        return Err(WriteError::Unwritable);
    }
    put_message(out, m, (size + gap as usize) as u32)?;
    out.put_zeros(gap)?;
    Ok(())
}

// A message, with whether more follow.
fn put_one(out: &mut Out, m: &Unjoined<'_>, more: bool) -> Result<(), WriteError>
    ensures { BodyPuts (more ≡ true → frames.next_place (frames.message_of m.now) < 2 ^ 32)
        (frames.joined_if more (frames.message_of m.now)) out.old out.new result }
{
    if more {
        return put_joined(out, m);
    }
    put_message(out, m, 0)?;
    Ok(())
}

// A message, with those behind it.
fn message_at<'a>(messages: &[Unjoined<'a>], at: usize) -> Unjoined<'a>
    requires { at < length messages.now }
    ensures { drop at (map frames.message_of messages.now) ≡ frames.message_of result ∷ drop (at + 1) (map frames.message_of messages.now) }
{
    messages[at]
}

/// The frame of messages that NextCommand joins, each but the last padded with zero bytes to a multiple of 8. The
/// NextCommand of each header is told here, whatever it was. `Unwritable` comes exactly where a message but the last is
/// longer than NextCommand can say. Each message's signature is still to be written, over its padding too.
pub fn join_messages(alloc: Global, messages: &[Unjoined<'_>]) -> Result<Bytes, WriteError>
    ensures { BodyWrites (frames.AreSmall (map frames.message_of messages.now))
        (frames.joined_spelling (map frames.message_of messages.now)) result }
{
    let mut out = Out::new(alloc);
    for at in 0..messages.len() {
        let message = message_at(messages, at);
        let more = has_more(at, messages.len());
        match put_one(&mut out, &message, more) {
            Ok(()) => (),
            Err(error) => return Err(error),
        }
    }
    Ok(out.finish())
}

/// Messages that were joined, one at least, are split again where they began, each with its padding.
pub fn joined_law()
    ensures { (m : frames.JoinedMessage) (ms : List frames.JoinedMessage) → frames.AreJoinable (m ∷ ms)
        → SpellsCompound (frames.joined_spelling (m ∷ ms)) (frames.spans_from 0 (m ∷ ms)) }
{
    header_law();
}
