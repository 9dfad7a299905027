//! Bytes that go onto a link.
ghost use Rattle.std.specs.Prelude.{◌≡◌, ◌++◌, List, ℕ, OnErr, OnOk};
ghost use Rattle.base_outside.specs.streams.Faults.{Rose};
ghost use Rattle.serve_turns.specs.connection_turns.Passing.{HasWritten};

use base_outside::{Failed, Link};

/// Writes all bytes. A write that fails is not tried again: the link's count of faults then rose, and a front of the bytes was written.
pub(crate) fn write_all<L: Link>(link: &mut L, bytes: &[u8]) -> Result<(), Failed>
    ensures written { OnOk result (HasWritten L.told L.given L.left L.written link.old link.new bytes.now) }
    ensures kept { OnOk result (L.faults link.new ≡ L.faults link.old) }
    ensures front { OnErr result ((wrote : List ℕ) × (lost : List ℕ) × (wrote ++ lost ≡ bytes.now)
        × HasWritten L.told L.given L.left L.written link.old link.new wrote) }
    ensures cause { OnErr result (Rose (L.faults link.old) (L.faults link.new)) }
{
    let mut at = 0;
    while at < bytes.len() {
        at += link.write(&bytes[at..])?;
    }
    Ok(())
}
