// The bytes of a new operation.
ghost use Rattle.std.specs.Prelude.{OnOk, OnErr};
ghost use Rattle.base_lists.specs.range_index.Shown.{top};
ghost use Rattle.client_tables.specs.opens.Opened.{OpenBehind, Clears, OpenStays};

use base_lists::RangeIndex;
use client_values::Kind;
use std::alloc::AllocError;

fn clear_both(written: &mut RangeIndex, locked: &mut RangeIndex)
    ensures written { Clears (top written.new) }
    ensures locked { Clears (top locked.new) }
{
    written.clear();
    locked.clear();
}

/// The new operation is the last write, or the last lock, of its bytes. Behind an end no write is kept, and behind a close neither
/// writes nor locks are: what comes then waits for that one. Where memory runs out nothing changes.
pub fn cover(
    kind: Kind,
    at: u64,
    size: u64,
    number: u32,
    written: &mut RangeIndex,
    locked: &mut RangeIndex,
) -> Result<(), AllocError>
    ensures ok { OnOk result (OpenBehind kind (top written.old) (top written.new) (top locked.old) (top locked.new) at size number) }
    ensures err { OnErr result (OpenStays (top written.old) (top written.new) × OpenStays (top locked.old) (top locked.new)) }
{
    match kind {
        Kind::Write => written.cover(at, size, number),
        Kind::Lock => locked.cover(at, size, number),
        Kind::End => {
            written.clear();
            Ok(())
        }
        Kind::Close => {
            clear_both(written, locked);
            Ok(())
        }
        Kind::Create => Ok(()),
        Kind::Read => Ok(()),
        Kind::Change => Ok(()),
        Kind::Look => Ok(()),
        Kind::List => Ok(()),
    }
}
