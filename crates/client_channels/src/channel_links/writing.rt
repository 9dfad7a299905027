//! Frames that go out on a link.
ghost use Rattle.std.specs.Prelude.{◌≡◌, ◌++◌, [], List, ℕ, OnErr, OnOk};
ghost use Rattle.base_outside.specs.streams.Faults.{Rose};
ghost use Rattle.serve_turns.specs.link_serving.Passage.{Passed};
ghost use Rattle.spec_wire.specs.messages.Frames.{frame_spelling};
ghost use Rattle.client_channels.specs.channel_links.Going.{SaysOn};

use base_outside::{Failed, Link};
use std::alloc::Global;
use wire_bytes::{Bytes, frame_of};

/// What came of a message that was to go out.
#[derive(Clone, Copy, Debug, PartialEq, Eq)]
pub(crate) enum Said {
    Whole,
    /// The link failed, and took a front of its frame, perhaps none of it.
    Lost,
    /// It found no memory, or is longer than a frame may be, and nothing was written.
    Lack,
}

/// Writes all bytes. A write that fails is not tried again: the link's count of faults then rose, and a front of the bytes was written.
fn write_all<L: Link>(link: &mut L, bytes: &[u8]) -> Result<(), Failed>
    ensures written { OnOk result (Passed L.told L.given L.left L.written link.old link.new [] bytes.now) }
    ensures kept { OnOk result (L.faults link.new ≡ L.faults link.old) }
    ensures front { OnErr result ((wrote : List ℕ) × (lost : List ℕ) × (wrote ++ lost ≡ bytes.now)
        × Passed L.told L.given L.left L.written link.old link.new [] wrote) }
    ensures cause { OnErr result (Rose (L.faults link.old) (L.faults link.new)) }
{
    let mut at = 0;
    while at < bytes.len() {
        at += link.write(&bytes[at..])?;
    }
    Ok(())
}

/// Puts a frame onto a link.
fn put<L: Link>(link: &mut L, frame: &Bytes) -> Said
    ensures { (message : List ℕ) → frame.now ≡ frame_spelling message
        → SaysOn L.told L.given L.left L.written L.faults link.old link.new message result }
{
    match write_all(link, frame.as_slice()) {
        Ok(()) => Said::Whole,
        Err(Failed) => Said::Lost,
    }
}

/// Puts a message onto a link as its frame.
pub(crate) fn say<L: Link>(alloc: Global, link: &mut L, message: &Bytes) -> Said
    ensures { SaysOn L.told L.given L.left L.written L.faults link.old link.new message.now result }
{
    match frame_of(alloc, message.as_slice()) {
        Ok(frame) => put(link, &frame),
        Err(_) => Said::Lack,
    }
}
